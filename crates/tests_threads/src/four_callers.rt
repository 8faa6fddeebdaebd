// Four and 32 callers in threads serve tickets whose keys meet, and what they did is compared with plain
// tables and with a serial run. One caller serves the same tickets, and the largest hall opens and
// closes.

ghost use Rattle.std.specs.Prelude.{◌≡◌, ◌≤◌, ◌∷◌, [], IfOk, length, map, true};
ghost use Rattle.session_values.specs.Limits.{max_callers, max_shards, max_tables};
ghost use Rattle.session_values.specs.declared.kind.TableKind.TheVariants.{Map};
ghost use Rattle.session_values.specs.Tables.{Fits, kind_of};

use hall_serving::{Sizes, open_session, serve_session};
use plain_desk::{DoneCall, PlainDesk};
use plain_tables::PlainTables;
use repeated_calls::{RepeatedCalls, RepeatedScript};
use session_hall::Closed;
use session_journal::{Event, Journal, Scratch, Serves};
use session_values::{Kind, NoMemory, Op, TableKind, Value};
use std::alloc::Global;
use std::process::Abort;
use std::sync::Wait;
use std::thread::Threads;
use worker_gate::OpenGate;

pub(crate) const TICKETS: u32 = 4000;

/// How often each ticket calls its operation.
const TIMES: u32 = 4;

/// What a ticket calls: every four tickets in a row work on one of sixteen keys.
fn op_of(ticket: u32) -> Op
    ensures { Fits (Map ∷ []) result }
{
    let key = Value::Num(i64::from(ticket / 4 % 16));
    let (kind, value) = match ticket % 4 {
        0 => (Kind::Swap, Value::Num(i64::from(ticket))),
        1 => (Kind::Get, Value::Nil),
        2 => (Kind::Put, Value::Num(i64::from(ticket))),
        _ => (Kind::Del, Value::Nil),
    };
    Op::new(kind, 0, key, value)
}

/// All tickets.
pub(crate) fn tickets(alloc: Global) -> Result<RepeatedCalls, NoMemory>
    ensures { IfOk result (λ l. l.list.shape ≡ Map ∷ []) }
{
    let mut list = RepeatedCalls::with_room(alloc, &[TableKind::Map], TICKETS, TIMES)?;
    for ticket in 0..TICKETS {
        list.add(op_of(ticket));
    }
    Ok(list)
}

/// What a hall of so many callers leaves, with so many shards of each table.
pub(crate) fn served_by<R: Threads + Wait + Abort + Sync>(
    rt: &R,
    alloc: Global,
    list: &RepeatedCalls,
    shape: &[TableKind],
    shards: u32,
    callers: u32,
) -> Closed
    requires shape { list.now.list.shape ≡ shape.now }
    requires tables { length shape.now ≤ max_tables }
    requires shards { (1 ≤ shards) × (shards ≤ max_shards) }
    requires callers { (1 ≤ callers) × (callers ≤ max_callers) }
{
    let sizes = Sizes { callers, shards };
    let script = RepeatedScript { list };
    let plan = RepeatedScript { list };
    let session = open_session(alloc, script, shape, sizes).expect(rt, "memory");
    serve_session(rt, session, &plan, &OpenGate)
}

/// Appends a finished call.
fn add_call<R: Abort>(rt: &R, calls: &mut Vec<DoneCall>, op: Op, reply: Value) {
    calls.push(DoneCall { op, reply }).expect(rt, "memory");
}

/// Appends the finished calls of a ticket.
fn add_finished<R: Abort>(rt: &R, events: &[Event], ticket: u32, calls: &mut Vec<DoneCall>) {
    for event in events {
        match *event {
            Event::Done {
                ticket: owner,
                op,
                reply,
            } => {
                if owner == ticket {
                    add_call(rt, calls, op, reply);
                }
            }
            _ => {}
        }
    }
}

/// The finished calls of a journal, regrouped by ticket.
fn regrouped<R: Abort>(rt: &R, alloc: Global, journal: &Journal) -> Vec<DoneCall> {
    let mut calls = Vec::new(alloc);
    for ticket in 0..TICKETS {
        add_finished(rt, journal.events(), ticket, &mut calls);
    }
    calls
}

/// The reply of an operation on one map.
#[tactic(auto, using(crate::proofs::OneMap::fits_one_map))]
fn reply_on<R: Abort>(rt: &R, tables: &mut PlainTables, op: Op) -> Value
    requires { map kind_of tables.old ≡ Map ∷ [] }
    ensures { map kind_of tables.new ≡ Map ∷ [] }
{
    if op.table != 0 {
        rt.panic("another table")
    }
    if !op.kind.on_map() {
        rt.panic("an operation on sets")
    }
    tables.apply(op).expect(rt, "memory")
}

/// The calls, done in order on one map as it is, have their replies.
fn replay_on<R: Abort>(rt: &R, tables: &mut PlainTables, calls: &[DoneCall])
    requires { map kind_of tables.old ≡ Map ∷ [] }
{
    for call in calls {
        let reply = reply_on(rt, tables, call.op);
        assert!(rt; reply == call.reply);
    }
}

/// The calls, done in order on one map, have their replies.
fn replay<R: Abort>(rt: &R, alloc: Global, calls: &[DoneCall]) {
    let mut tables = PlainTables::new(alloc, &[TableKind::Map]).expect(rt, "memory");
    replay_on(rt, &mut tables, calls);
}

/// Serves the next ticket at a plain desk.
fn serve_next<'a, R: Threads + Wait + Abort + Sync>(
    rt: &R,
    plan: &RepeatedScript<'a>,
    scratch: &mut Scratch,
    desk: &mut PlainDesk<RepeatedScript<'a>>,
)
    requires plan { desk.old.script ≡ plan.now }
    requires ended { desk.old.desk.ended ≡ true }
    ensures plan { desk.new.script ≡ plan.now }
    ensures ended { desk.new.desk.ended ≡ true }
{
    let Some(ticket) = desk.start() else {
        rt.panic("no ticket")
    };
    plan.serve(rt, ticket, scratch, desk).expect(rt, "memory");
}

/// Appends the calls of a ticket that has ended.
fn add_entries<'a, R: Abort>(
    rt: &R,
    desk: &PlainDesk<RepeatedScript<'a>>,
    ticket: u32,
    calls: &mut Vec<DoneCall>,
) {
    let Some(entries) = desk.entries(ticket) else {
        rt.panic("a ticket has not ended")
    };
    calls.extend_from_slice(entries).expect(rt, "memory");
}

/// Serves all tickets at a plain desk, and appends their calls.
fn serve_all<'a, R: Threads + Wait + Abort + Sync>(
    rt: &R,
    plan: &RepeatedScript<'a>,
    scratch: &mut Scratch,
    desk: &mut PlainDesk<RepeatedScript<'a>>,
    calls: &mut Vec<DoneCall>,
)
    requires plan { desk.old.script ≡ plan.now }
    requires ended { desk.old.desk.ended ≡ true }
{
    for ticket in 0..TICKETS {
        serve_next(rt, plan, scratch, desk);
        add_entries(rt, desk, ticket, calls);
    }
}

/// The calls of all tickets, served one at a time.
fn serial_calls<R: Threads + Wait + Abort + Sync>(
    rt: &R,
    alloc: Global,
    list: &RepeatedCalls,
) -> Vec<DoneCall>
    requires { list.now.list.shape ≡ Map ∷ [] }
{
    let plan = RepeatedScript { list };
    let mut scratch = Scratch::new(alloc).expect(rt, "memory");
    let script = RepeatedScript { list };
    let mut desk = PlainDesk::new(alloc, script, &[TableKind::Map]).expect(rt, "memory");
    let mut calls = Vec::new(alloc);
    serve_all(rt, &plan, &mut scratch, &mut desk, &mut calls);
    calls
}

/// What callers did replays by ticket on plain tables, and is what a serial run does.
pub(crate) fn has_serial_calls<R: Threads + Wait + Abort + Sync>(
    rt: &R,
    alloc: Global,
    list: &RepeatedCalls,
    closed: &Closed,
)
    requires { list.now.list.shape ≡ Map ∷ [] }
{
    let calls = regrouped(rt, alloc, closed.journal());
    let serial = serial_calls(rt, alloc, list);
    assert!(rt; calls.len() == 16000 && calls == serial);
    replay(rt, alloc, &calls);
}

/// So many callers reply as a serial run does.
fn reply_as_a_serial_run_does<R: Threads + Wait + Abort + Sync>(rt: &R, alloc: Global, callers: u32)
    requires { (1 ≤ callers) × (callers ≤ max_callers) }
{
    let list = tickets(alloc).expect(rt, "memory");
    let closed = served_by(rt, alloc, &list, &[TableKind::Map], 8, callers);
    has_serial_calls(rt, alloc, &list, &closed);
}

#[test]
fn four_callers_reply_as_a_serial_run_does(rt: HostRuntime) {
    reply_as_a_serial_run_does(&rt, rt.alloc(), 4);
}

#[test]
fn thirty_two_callers_reply_as_a_serial_run_does(rt: HostRuntime) {
    reply_as_a_serial_run_does(&rt, rt.alloc(), 32);
}

/// A closed hall has so many events, replies, shards, and shards of each table.
fn has_left<R: Abort>(
    rt: &R,
    closed: &Closed,
    events: usize,
    replies: u32,
    parts: u32,
    shards: u32,
) {
    assert!(rt; closed.journal().events().len() == events && closed.replies().len() == replies);
    assert!(rt; closed.parts().len() == parts && closed.shards() == shards);
}

#[test]
fn one_caller_serves_all_tickets(rt: HostRuntime) {
    let list = tickets(rt.alloc()).expect(&rt, "memory");
    let closed = served_by(&rt, rt.alloc(), &list, &[TableKind::Map], 2, 1);
    has_left(&rt, &closed, 24000, 4000, 2, 2);
}

#[test]
fn the_largest_hall_opens_and_closes(rt: HostRuntime) {
    let (map, set) = (TableKind::Map, TableKind::Set);
    let shape = [map, set, map, set, map, set, map];
    let list = RepeatedCalls::with_room(rt.alloc(), &shape, 0, 0).expect(&rt, "memory");
    let closed = served_by(&rt, rt.alloc(), &list, &shape, 8, 32);
    has_left(&rt, &closed, 0, 0, 56, 8);
}
