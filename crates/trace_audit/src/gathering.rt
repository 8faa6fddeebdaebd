// The entries of each ticket of a trace.

ghost use Rattle.std.specs.Prelude.{◌≡◌, [], IfOk, replicate};
ghost use Rattle.trace_audit.specs.Desk.{AreGathered, fresh};
ghost use Rattle.trace_audit.specs.Keeping.{noted};

use crate::ticket_replay::{Noted, TicketReplay};
use session_journal::Event;
use session_values::NoMemory;
use std::alloc::Global;

/// So many replays without entries.
fn empty_replays(alloc: Global, requests: u32) -> Result<Vec<TicketReplay>, NoMemory>
    ensures { IfOk result (λ v. v.items ≡ replicate requests (fresh [])) }
{
    let mut tickets = Vec::with_capacity(alloc, requests as usize)?;
    for _ in 0..requests {
        tickets.push(TicketReplay::new(alloc))?;
    }
    Ok(tickets)
}

/// Notes an event at its ticket, where it is one that was done.
fn note(tickets: &mut [TicketReplay], e: &Event) -> Result<(), NoMemory>
    ensures { IfOk result (λ _. tickets.new ≡ noted tickets.old e.now) }
{
    let Event::Done { ticket, op, reply } = *e else {
        return Ok(());
    };
    let at = ticket as usize;
    if at < tickets.len() {
        tickets[at].push(Noted { op, reply })?;
    }
    Ok(())
}

/// The replays of so many tickets over the entries of these events.
pub(crate) fn gather(
    alloc: Global,
    requests: u32,
    events: &[Event],
) -> Result<Vec<TicketReplay>, NoMemory>
    ensures { IfOk result (λ v. AreGathered requests events.now v.items) }
{
    let mut tickets = empty_replays(alloc, requests)?;
    for e in events {
        note(tickets.as_mut_slice(), e)?;
    }
    Ok(tickets)
}
