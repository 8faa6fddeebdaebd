// The hall of a round.

ghost use Rattle.std.specs.Prelude.{◌≡◌, ◌≤◌, Some, IfOk, IfSome, length};
ghost use Rattle.session_values.specs.Limits.{max_tables};
ghost use Rattle.handler_check.specs.Resolved.{shape_of};
ghost use Rattle.request_files.specs.Clients.{AreShared};
ghost use Rattle.request_files.specs.Picked.{picked};
ghost use Rattle.request_files.specs.Servable.{IsServable};
ghost use Rattle.client_feed.specs.Numbers.{numbers_of};
ghost use Rattle.session_hall.specs.Closings.{IsDone};
ghost use Rattle.session_hall.specs.Reopenings.{OpensOver};
ghost use Rattle.client_feed.specs.Picking.{AreArrivals};
ghost use Rattle.client_feed.specs.Behind.{IsServedBehind, IsServedOver};
ghost use Rattle.client_feed.specs.Reopening.{CanReopen};

use crate::Arrival;
use crate::continued::Continued;
use crate::picking::requests_of;
use crate::plan::Plan;
use crate::reopening::look_at_tables;
use crate::resources::Resources;
use hall_serving::{Serves, Tickets, open_session, reopen_session, serve_session};
use handler_machine::Scripts;
use request_files::Requests;
use session_hall::Closed;
use session_values::NoMemory;
use std::sync::Wait;
use std::thread::Threads;
use worker_gate::Gate;

/// Serves the requests of arrivals through a hall over the tables that the hall of the round before
/// left, or in the first round over the entries of the plan. `later` has the most keys that may
/// still be added to each table, and is less these requests' afterwards.
pub(crate) fn serve_behind<R: Threads + Wait + Sync, G: Gate + Sync>(
    by: &Resources<'_, R, G>,
    plan: &Plan<'_>,
    last: Option<Closed>,
    later: &mut [u32],
    arrivals: &[Arrival],
) -> Result<Closed, NoMemory>
    requires shared { AreShared plan.now.work.now.clients.now }
    requires last { IfSome last (CanReopen (shape_of plan.now.work.now.program.now.file)) }
    requires shards { IfSome last (λ d. d.shards ≡ plan.now.sizes.shards) }
    requires later { length later.old ≡ length plan.now.shape.now }
    requires arrivals { AreArrivals plan.now.work.now.clients.now.counts arrivals.now }
    ensures served { IfOk result (IsServedBehind plan.now.work.now.program.now
        plan.now.work.now.opening.now last (picked plan.now.work.now.clients.now.requests
        (numbers_of plan.now.work.now.clients.now.counts arrivals.now)) plan.now.sizes.callers
        plan.now.sizes.shards) }
    ensures later { length later.new ≡ length later.old }
{
    let requests = requests_of(by.alloc, plan.work.clients, arrivals)?;
    match last {
        None => serve_first(by, plan, &requests, later),
        Some(closed) => serve_next(by, plan, closed, &requests, later),
    }
}

// Serves requests through a hall whose tables open with the entries of the plan.
fn serve_first<R: Threads + Wait + Sync, G: Gate + Sync>(
    by: &Resources<'_, R, G>,
    plan: &Plan<'_>,
    requests: &Requests,
    later: &mut [u32],
) -> Result<Closed, NoMemory>
    requires servable { IsServable plan.now.work.now.program.now.file requests.now }
    requires later { length later.old ≡ length plan.now.shape.now }
    ensures served { IfOk result (IsServedOver plan.now.work.now.program.now
        plan.now.work.now.opening.now requests.now plan.now.sizes.callers plan.now.sizes.shards) }
    ensures later { length later.new ≡ length later.old }
{
    let script = Scripts::over(plan.work.program, plan.work.opening, requests);
    let again = Scripts::over(plan.work.program, plan.work.opening, requests);
    take_off(&again, later);
    let session = open_session(by.alloc, script, plan.shape, plan.sizes)?;
    Ok(serve_session(by.rt, session, &again, by.gate))
}

// Serves requests through a hall over the tables that a closed one left.
fn serve_next<R: Threads + Wait + Sync, G: Gate + Sync>(
    by: &Resources<'_, R, G>,
    plan: &Plan<'_>,
    closed: Closed,
    requests: &Requests,
    later: &mut [u32],
) -> Result<Closed, NoMemory>
    requires servable { IsServable plan.now.work.now.program.now.file requests.now }
    requires can { CanReopen (shape_of plan.now.work.now.program.now.file) closed }
    requires shards { closed.shards ≡ plan.now.sizes.shards }
    requires later { length later.old ≡ length plan.now.shape.now }
    ensures served { IfOk result (IsServedBehind plan.now.work.now.program.now
        plan.now.work.now.opening.now (Some closed) requests.now plan.now.sizes.callers
        plan.now.sizes.shards) }
    ensures later { length later.new ≡ length later.old }
{
    look_at_tables(&closed, plan.shape);
    let tickets = Continued::over(plan.work.program, plan.work.opening, requests, &closed);
    let again = Continued::over(plan.work.program, plan.work.opening, requests, &closed);
    serve_over(by, plan, tickets, &again, closed, later)
}

// Serves tickets through a hall over the shards that a closed one left. `again` is the same
// tickets. It is generic, since the borrow checker covers no open session of a type at which two
// impls of `Tickets` may be meant.
fn serve_over<R: Threads + Wait + Sync, S: Serves + Drop + Send + Sync, G: Gate + Sync>(
    by: &Resources<'_, R, G>,
    plan: &Plan<'_>,
    tickets: S,
    again: &S,
    closed: Closed,
    later: &mut [u32],
) -> Result<Closed, NoMemory>
    requires again { again.now ≡ tickets }
    requires opens { OpensOver (S.meaning tickets) closed }
    requires shape { plan.now.shape.now ≡ (S.meaning tickets).shape }
    requires shards { closed.shards ≡ plan.now.sizes.shards }
    requires later { length later.old ≡ length plan.now.shape.now }
    ensures done { IfOk result (IsDone (S.meaning tickets)) }
    ensures callers { IfOk result (λ d. d.callers ≡ plan.now.sizes.callers) }
    ensures shards { IfOk result (λ d. d.shards ≡ plan.now.sizes.shards) }
    ensures later { length later.new ≡ length later.old }
{
    let session = reopen_session(
        by.alloc,
        tickets,
        plan.shape,
        closed,
        later,
        plan.sizes.callers,
    )?;
    take_off(again, later);
    Ok(serve_session(by.rt, session, again, by.gate))
}

// Takes off the keys that these tickets may add to each table.
fn take_off<S: Tickets>(tickets: &S, later: &mut [u32])
    requires { length later.old ≤ max_tables }
    ensures { length later.new ≡ length later.old }
{
    for table in 0..later.len() as u32 {
        let left = later[table as usize];
        later[table as usize] = left.saturating_sub(tickets.room(table));
    }
}
