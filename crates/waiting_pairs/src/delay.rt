// The delays of a trace.

ghost use Rattle.std.specs.Prelude.{◌≡◌, IfOk};
ghost use Rattle.std.specs.List.{filter_map};
ghost use Rattle.waiting_pairs.specs.TraceDelays as spec;

use session_journal::Event;
use session_values::{NoMemory, Op};
use std::alloc::Global;
use symbolic_ops::Symbol;

/// That an operation of a ticket was delayed.
#[derive(Clone, Copy, Debug)]
pub struct Delay {
    /// The ticket that waited.
    pub ticket: u32,
    /// Its operation.
    pub operation: Op,
    /// The ticket for which it waited.
    pub older: u32,
    /// What that one might still call, against which the operation was.
    pub symbol: Symbol,
}

/// The delay that an event is, if it is one.
fn delay_of(event: &Event) -> Option<Delay>
    ensures { result ≡ spec.delay_of event.now }
{
    match event {
        Event::Delay {
            ticket,
            op,
            older,
            symbol,
        } => Some(Delay {
            ticket: *ticket,
            operation: *op,
            older: *older,
            symbol: *symbol,
        }),
        Event::Begin { .. } | Event::Done { .. } | Event::End { .. } => None,
    }
}

/// The delays of a trace's events, the earliest first.
pub(crate) fn delays_of(alloc: Global, events: &[Event]) -> Result<Vec<Delay>, NoMemory>
    ensures { IfOk result (λ delays. delays.items ≡ spec.delays events.now) }
{
    let mut delays = Vec::new(alloc);
    for event in events {
        if let Some(delay) = delay_of(event) {
            delays.push(delay)?;
        }
    }
    Ok(delays)
}
