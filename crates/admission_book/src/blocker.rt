// Who delays an operation.

ghost use Rattle.std.specs.Prelude.{◌≡◌, ℕ, ◌<◌, MatchOption};
ghost use Rattle.std.specs.List.{AllByRecursion};
ghost use Rattle.symbolic_ops.specs.Matching.{HasNoVar};
ghost use Rattle.symbolic_ops.specs.Commuting.{CommutesWith};
ghost use Rattle.admission_book.specs.Book.{IsFirstAgainst};
ghost use Rattle.admission_book.specs.CallerRecord.{record_at, serving_of, servings};
ghost use Rattle.admission_book.specs.Foresights.{KeepsForesight};
ghost use Rattle.admission_book.specs.Found.{Found, NextFound, bound};
ghost use Rattle.admission_book.specs.Kept.{AreFrom};

use crate::caller_record::CallerRecord;
use commute_tables::commute_symbol;
use session_journal::Tickets;
use session_values::Op;
use symbolic_ops::Symbol;

/// An older open ticket, and its first symbol with which an operation doesn't commute.
#[derive(Clone, Copy)]
pub(crate) struct Blocker {
    /// The ticket.
    pub(crate) older: u32,
    /// The symbol of its foresight.
    pub(crate) symbol: Symbol,
}

/// The first symbol with which the operation doesn't commute.
pub(crate) fn first_against(op: &Op, symbols: &[Symbol]) -> Option<Symbol>
    requires { AllByRecursion HasNoVar symbols.now }
    ensures { MatchOption result (AllByRecursion (λ y. CommutesWith op.now y) symbols.now)
        (λ y. IsFirstAgainst op.now symbols.now y) }
{
    for s in symbols {
        if !commute_symbol(op, s) {
            return Some(*s);
        }
    }
    None
}

/// The ticket below which a blocker is sought.
fn limit(found: &Option<Blocker>, t: u32) -> u32
    ensures { result ≡ bound t found.now }
{
    match found {
        Some(b) => b.older,
        None => t,
    }
}

/// The blocker of one record, where it is older than the one that was found before.
fn older_blocker<S: Tickets>(
    script: &S,
    found: Option<Blocker>,
    r: &CallerRecord,
    t: u32,
    op: &Op,
) -> Option<Blocker>
    requires { KeepsForesight (S.meaning script.now) r.now.foresight }
    ensures { NextFound t op.now found (serving_of (S.meaning script.now) r.now) result }
{
    let Some(u) = r.ticket else {
        return found;
    };
    if u >= limit(&found, t) {
        return found;
    }
    match r.foresight.first_against(script, op) {
        Some(symbol) => Some(Blocker { older: u, symbol }),
        None => found,
    }
}

/// The least older open ticket with a symbol against the operation, and its first one. No ticket
/// older than `oldest` is open, so at this one and older ones no record is looked at.
pub(crate) fn least_against<S: Tickets>(
    script: &S,
    records: &[CallerRecord],
    oldest: u32,
    t: u32,
    op: &Op,
) -> Option<Blocker>
    requires kept { (c : ℕ) →
        KeepsForesight (S.meaning script.now) (record_at records.now c).foresight }
    requires from { AreFrom oldest records.now }
    ensures { Found (servings (S.meaning script.now) records.now) t op.now result }
{
    if t <= oldest {
        return None;
    }
    let mut found = None;
    for r in records {
        found = older_blocker(script, found, r, t, op);
    }
    found
}
