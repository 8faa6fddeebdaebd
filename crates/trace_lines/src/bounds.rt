// The bounds of events.

ghost use Rattle.std.specs.List.{AllByRecursion};
ghost use Rattle.trace_lines.specs.Bounds.{IsHeldEvent};

use session_journal::Event;

/// The bounds of events that are at hand: those of their tickets, operations, replies and symbols.
/// Nothing is done for them.
pub fn event_bounds(events: &[Event])
    ensures { AllByRecursion IsHeldEvent events.now }
{
    for e in events {
        bounds_of(e);
    }
}

// The bounds of an event that is at hand.
#[inline(always)]
fn bounds_of(e: &Event)
    ensures { IsHeldEvent e.now }
{
    match e {
        Event::Begin { ticket, caller } => {
            let _bounds = (*ticket, *caller);
        }
        Event::Done { ticket, op, reply } => {
            let _bound = *ticket;
            op.bounds();
            reply.bounds();
        }
        Event::Delay {
            ticket,
            op,
            older,
            symbol,
        } => {
            let _bounds = (*ticket, *older);
            op.bounds();
            symbol.bounds();
        }
        Event::End { ticket, reply } => {
            let _bound = *ticket;
            reply.bounds();
        }
    }
}
