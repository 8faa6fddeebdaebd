// What is counted of a trace.

ghost use Rattle.std.specs.Prelude.{◌≡◌, ◌≤◌, IfOk, length, map, slice_get};
ghost use Rattle.session_journal.specs.Traces.{max_events};
ghost use Rattle.waiting_pairs.specs.Causes as causes;
ghost use Rattle.waiting_pairs.specs.Chains.{AreLongest};
ghost use Rattle.waiting_pairs.specs.TraceDelays.{delays};
ghost use Rattle.waiting_pairs.specs.Rows.{AreRows};
ghost use Rattle.waiting_pairs.specs.TraceTold.{handlers_of};

use crate::cause::Cause;
use crate::chains::chains_of;
use crate::counting::{Row, rows_of};
use crate::delay::{Delay, delays_of};
use request_files::Requests;
use session_journal::Event;
use session_values::NoMemory;
use std::alloc::Global;

/// What is counted of a trace.
#[derive(Drop)]
pub struct Counts {
    /// How many delays there are.
    pub delays: u32,
    /// Who waited for whom, and how often; the largest count first, and of equal counts that which
    /// came first.
    pub rows: Vec<Row>,
    /// The longest chains of tickets of which each waited for the next.
    pub chains: Vec<Vec<u32>>,
}

/// The handler of a ticket, if it is a request's.
fn handler_of(requests: &Requests, ticket: u32) -> Option<u32>
    ensures { result ≡ slice_get (handlers_of requests.now) ticket }
{
    if ticket < requests.len() {
        Some(requests.handler(ticket))
    } else {
        None
    }
}

/// The cause of a delay.
fn cause_of(requests: &Requests, delay: &Delay) -> Cause
    ensures { result ≡ causes.cause_of (handlers_of requests.now) delay.now }
{
    Cause {
        waits: handler_of(requests, delay.ticket),
        operation: delay.operation,
        holder: handler_of(requests, delay.older),
        symbol: delay.symbol,
    }
}

/// The causes of delays, in the same order.
fn causes_of(alloc: Global, requests: &Requests, delays: &[Delay]) -> Result<Vec<Cause>, NoMemory>
    ensures { IfOk result (λ found. found.items
        ≡ map (causes.cause_of (handlers_of requests.now)) delays.now) }
{
    let mut found = Vec::new(alloc);
    for delay in delays {
        found.push(cause_of(requests, delay))?;
    }
    Ok(found)
}

/// What is counted of the delays among these events of requests.
pub fn counts_of(alloc: Global, requests: &Requests, events: &[Event]) -> Result<Counts, NoMemory>
    requires { length events.now ≤ max_events }
    ensures delays { IfOk result (λ counts. counts.delays ≡ length (delays events.now)) }
    ensures rows { IfOk result (λ counts. AreRows
        (map (causes.cause_of (handlers_of requests.now)) (delays events.now)) counts.rows.items) }
    ensures chains { IfOk result (λ counts. AreLongest (length requests.now) (delays events.now)
        (map (λ c. c.items) counts.chains.items)) }
{
    let delays = delays_of(alloc, events)?;
    let found = delays.as_slice();
    let causes = causes_of(alloc, requests, found)?;
    let all = causes.as_slice();
    let rows = rows_of(alloc, all)?;
    let tickets = requests.len();
    let chains = chains_of(alloc, tickets, found)?;
    let count = found.len() as u32;
    Ok(Counts {
        delays: count,
        rows,
        chains,
    })
}
