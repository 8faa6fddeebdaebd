// Judging the events of a trace, one after another.

ghost use Rattle.std.specs.Prelude.{IfOk, List, MatchOption};
ghost use Rattle.session_journal.specs.declared.event.Event.TheVariants.{Begin, Delay, Done, End};
ghost use Rattle.trace_audit.specs.Desk.{ReplayView};
ghost use Rattle.trace_audit.specs.Judging.{IsFirst, IsNext, JudgesEvents, Takes, front_of};

use crate::front::Front;
use crate::ticket_replay::{TicketReplay, same_value};
use commute_tables::commute_symbol;
use session_journal::Event;
use session_values::{NoMemory, Op, Reply, Value};
use symbolic_ops::Symbol;

/// Takes a Begin where it is allowed.
fn take_begin(front: &mut Front, t: u32, caller: u32) -> bool
    requires { (rs : List ReplayView) × IsNext rs (Begin t caller) (front_of front.old) }
    ensures { (rs : List ReplayView) → Takes rs (Begin t caller) (front_of front.old) result
        (front_of front.new) }
{
    if !front.may_begin(t, caller) {
        return false;
    }
    front.begin(t, caller);
    true
}

/// Takes a Done where it is allowed, with the reply that the tables give.
fn take_done(
    front: &mut Front,
    replays: &[TicketReplay],
    t: u32,
    op: Op,
    reply: Value,
) -> Result<bool, NoMemory>
    requires { IsNext replays.now (Done t op reply) (front_of front.old) }
    ensures { IfOk result (λ took. Takes replays.now (Done t op reply) (front_of front.old) took
        (front_of front.new)) }
{
    if !front.calls(replays, t, op) {
        return Ok(false);
    }
    let given = front.apply(t, op)?;
    Ok(same_value(given, reply))
}

/// Takes a Delay where it is allowed.
fn take_delay(
    front: &mut Front,
    replays: &[TicketReplay],
    t: u32,
    op: Op,
    older: u32,
    symbol: Symbol,
) -> bool
    requires { IsNext replays.now (Delay t op older symbol) (front_of front.old) }
    ensures { Takes replays.now (Delay t op older symbol) (front_of front.old) result
        (front_of front.new) }
{
    if older >= t {
        return false;
    }
    if front.is_delayed(t) {
        return false;
    }
    if !front.calls(replays, t, op) {
        return false;
    }
    if commute_symbol(&op, &symbol) {
        return false;
    }
    front.delay(t);
    true
}

/// Takes an End where it is allowed.
fn take_end(front: &mut Front, replays: &[TicketReplay], t: u32, reply: Reply) -> bool
    requires { IsNext replays.now (End t reply) (front_of front.old) }
    ensures { Takes replays.now (End t reply) (front_of front.old) result (front_of front.new) }
{
    if !front.answers(replays, t, reply) {
        return false;
    }
    front.end(t);
    true
}

/// Takes the next event where it is allowed after those before it.
fn take(front: &mut Front, replays: &[TicketReplay], e: Event) -> Result<bool, NoMemory>
    requires { IsNext replays.now e (front_of front.old) }
    ensures { IfOk result (λ took. Takes replays.now e (front_of front.old) took
        (front_of front.new)) }
{
    match e {
        Event::Begin { ticket, caller } => Ok(take_begin(front, ticket, caller)),
        Event::Done { ticket, op, reply } => take_done(front, replays, ticket, op, reply),
        Event::Delay {
            ticket,
            op,
            older,
            symbol,
        } => Ok(take_delay(front, replays, ticket, op, older, symbol)),
        Event::End { ticket, reply } => Ok(take_end(front, replays, ticket, reply)),
    }
}

/// The place of the first event that isn't allowed after those before it, if there is one.
pub(crate) fn first_against(
    front: &mut Front,
    replays: &[TicketReplay],
    events: &[Event],
) -> Result<Option<usize>, NoMemory>
    requires { IsFirst replays.now events.now (front_of front.old) }
    ensures { IfOk result (λ at. JudgesEvents replays.now events.now (front_of front.old) at
        (front_of front.new)) }
{
    for (at, e) in events.iter().enumerate() {
        if !take(front, replays, *e)? {
            return Ok(Some(at));
        }
    }
    Ok(None)
}
