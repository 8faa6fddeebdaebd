// Steps over the fields of a book.

ghost use Rattle.std.specs.Prelude.{◌≡◌, ◌<◌, ◌≤◌, ◌∷◌, ◌++◌, [], Some, None, IsSome, IfOk, cond, length, map, replicate, false, vec_capacity};
ghost use Rattle.std.specs.List.{AllByRecursion};
ghost use Rattle.admission_book.specs.CallerRecord.{idle_record, record_at, with_delay};
ghost use Rattle.admission_book.specs.Kept.{AreFrom, IsLeastTicket, IsLesser, IsServed};

use crate::caller_record::CallerRecord;
use session_journal::{Event, Journal};
use session_values::NoMemory;
use std::alloc::Global;

/// Records of so many callers that serve no ticket.
pub(crate) fn idle_records(alloc: Global, callers: u32) -> Result<Vec<CallerRecord>, NoMemory>
    ensures { IfOk result (λ rs. rs.items ≡ replicate callers idle_record) }
{
    let mut records = Vec::with_capacity(alloc, callers as usize)?;
    for _ in 0..callers {
        records.push_reserved(CallerRecord::idle(alloc)?);
    }
    Ok(records)
}

/// The place of the record that has the ticket.
pub(crate) fn place_of(records: &[CallerRecord], t: u32) -> usize
    requires { IsServed records.now t }
    ensures within { result < length records.now }
    ensures serves { (record_at records.now result).ticket ≡ Some t }
{
    for (i, r) in records.iter().enumerate() {
        if r.serves(t) {
            return i;
        }
    }
    unreachable!()
}

/// The lesser of two tickets, where there are any.
fn lesser(a: Option<u32>, b: Option<u32>) -> Option<u32>
    ensures { IsLesser a b result }
{
    match (a, b) {
        (Some(t), Some(u)) => Some(t.min(u)),
        (Some(t), None) => Some(t),
        (None, b) => b,
    }
}

/// The least ticket that a record has.
pub(crate) fn least_ticket(records: &[CallerRecord]) -> Option<u32>
    ensures { IsLeastTicket records.now (length records.now) result }
{
    let mut found = None;
    for r in records {
        found = lesser(found, r.ticket);
    }
    found
}

/// The ticket than which no older one is open, after a ticket has ended: where it was the oldest
/// one, the least that is open, and the next that begins where none is.
pub(crate) fn next_oldest(records: &[CallerRecord], oldest: u32, ended: u32, begun: u32) -> u32
    requires from { AreFrom oldest records.now }
    requires begun { oldest ≤ begun }
    ensures from { AreFrom result records.now }
    ensures begun { result ≤ begun }
{
    if ended > oldest {
        return oldest;
    }
    match least_ticket(records) {
        Some(t) => t.min(begun),
        None => begun,
    }
}

/// Notes a delay, where the last event of the record's ticket is none.
pub(crate) fn note_delay(journal: &mut Journal, r: &mut CallerRecord, delay: Event)
    requires { r.old.delayed ≡ false → length journal.old.events < journal.old.room }
    ensures journal { journal.new ≡ record {
      events = cond r.old.delayed journal.old.events
          (journal.old.events ++ delay ∷ []);
      room = journal.old.room;
    } }
    ensures noted { r.new ≡ with_delay r.old }
{
    if r.delayed {
        return;
    }
    journal.push_reserved(delay);
    r.delayed = true;
}
