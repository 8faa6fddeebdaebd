// Traces of two tickets, each of which swaps one value into the same key of one map, judged by a
// desk on which both tickets were run.

ghost use Rattle.std.specs.Prelude.{◌≡◌, ◌<◌, [], ◌∷◌, IfOk};
ghost use Rattle.std.specs.List.{AllByRecursion};
ghost use Rattle.session_journal.specs.Journal.{entries};
ghost use Rattle.session_journal.specs.Lists.{ticket_at};
ghost use Rattle.session_journal.specs.Script.{IsScript};
ghost use Rattle.trace_audit.specs.Desk.{fresh, replay_at};
ghost use Rattle.trace_lines.specs.Traces.{HasKnownSymbol};
ghost use Rattle.tests_traces.specs.Swaps.{HasRun, meaning_of, nil_reply, swap_of, two_swaps};

use handler_machine::Answerer;
use session_journal::{Event, ListScript, Script};
use session_values::{Kind, NoMemory, Op, Reply, TableKind, Value};
use std::alloc::Global;
use std::process::Abort;
use symbolic_ops::Symbol;
use trace_audit::{AuditDesk, MAX_EVENTS, Trace, Verdict};

fn nil() -> Reply
    ensures { result ≡ nil_reply }
{
    Reply::new(1, Value::Nil, Value::Nil, Value::Nil, Value::Nil)
}

fn swap_7() -> Op
    ensures { result ≡ swap_of 7 }
{
    Op::new(Kind::Swap, 0, Value::Num(1), Value::Num(7))
}

fn swap_8() -> Op
    ensures { result ≡ swap_of 8 }
{
    Op::new(Kind::Swap, 0, Value::Num(1), Value::Num(8))
}

/// The script of both tickets.
fn two_tickets(alloc: Global) -> Result<ListScript, NoMemory>
    ensures { IfOk result (λ s. s ≡ two_swaps) }
{
    let mut script = ListScript::with_room(alloc, &[TableKind::Map], 2, 2, 2)?;
    script.ticket(nil());
    script.call(swap_7());
    script.ticket(nil());
    script.call(swap_8());
    Ok(script)
}

/// Runs a ticket on the desk that calls one operation.
fn run_ticket<'a, R: Abort>(rt: &R, desk: &mut AuditDesk<'a, ListScript>, t: u32, op: Op)
    requires script { desk.old.script ≡ two_swaps }
    requires lawful { IsScript (meaning_of two_swaps) }
    requires exists { t < 2 }
    requires calls { (ticket_at two_swaps.tickets t).ops ≡ op ∷ [] }
    requires answers { (ticket_at two_swaps.tickets t).reply ≡ nil_reply }
    requires untouched { replay_at desk.old.tickets t ≡ fresh (entries desk.old.events t) }
    ensures { HasRun t desk.old desk.new }
{
    desk.turn(t);
    desk.answer(op).expect(rt, "memory");
    desk.answered(nil());
}

/// The trace of these events, each on a line of its own.
fn trace_of<R: Abort>(rt: &R, alloc: Global, events: &[Event]) -> Trace
    requires { AllByRecursion HasKnownSymbol events.now }
{
    let mut trace = Trace::new(alloc);
    for e in events {
        if trace.events().len() >= MAX_EVENTS {
            rt.panic("too many events")
        }
        trace.push(*e, 1).expect(rt, "memory");
    }
    trace
}

/// What is judged of these events once both tickets were run.
fn verdict_on<R: Abort>(rt: &R, alloc: Global, script: &ListScript, events: &[Event]) -> Verdict
    requires script { script.now ≡ two_swaps }
    requires known { AllByRecursion HasKnownSymbol events.now }
{
    let tickets = script.requests();
    assert!(rt; tickets == 2);
    let trace = trace_of(rt, alloc, events);
    let mut desk = AuditDesk::over(alloc, script, &trace).expect(rt, "memory");
    run_ticket(rt, &mut desk, 0, swap_7());
    run_ticket(rt, &mut desk, 1, swap_8());
    desk.judge(alloc, &[TableKind::Map]).expect(rt, "memory")
}

fn begin(ticket: u32, caller: u32) -> Event
    ensures { HasKnownSymbol result }
{
    Event::Begin { ticket, caller }
}

fn done(ticket: u32, op: Op, reply: Value) -> Event
    ensures { HasKnownSymbol result }
{
    Event::Done { ticket, op, reply }
}

fn end(ticket: u32) -> Event
    ensures { HasKnownSymbol result }
{
    Event::End {
        ticket,
        reply: nil(),
    }
}

/// The second ticket's swap waits for the first ticket.
fn delay() -> Event
    ensures { HasKnownSymbol result }
{
    Event::Delay {
        ticket: 1,
        op: swap_8(),
        older: 0,
        symbol: Symbol::exact(&swap_7()),
    }
}

/// The trace of the serial run, in which the second ticket waits once, is accepted.
#[test]
fn the_trace_of_the_serial_run(rt: HostRuntime) {
    let alloc = rt.alloc();
    let script = two_tickets(alloc).expect(&rt, "memory");
    let events = [
        begin(0, 0),
        begin(1, 1),
        delay(),
        done(0, swap_7(), Value::Nil),
        end(0),
        done(1, swap_8(), Value::Num(7)),
        end(1),
    ];
    let verdict = verdict_on(&rt, alloc, &script, &events);
    assert!(rt; verdict == Verdict::Accepted);
}

/// The second ticket's reply isn't what the first one left.
#[test]
fn a_trace_with_another_reply(rt: HostRuntime) {
    let alloc = rt.alloc();
    let script = two_tickets(alloc).expect(&rt, "memory");
    let events = [
        begin(0, 0),
        begin(1, 1),
        done(0, swap_7(), Value::Nil),
        end(0),
        done(1, swap_8(), Value::Nil),
        end(1),
    ];
    let verdict = verdict_on(&rt, alloc, &script, &events);
    assert!(rt; verdict == Verdict::Event { rule: 2, at: 4 });
}

/// The second ticket does the first one's operation.
#[test]
fn a_trace_with_another_operation(rt: HostRuntime) {
    let alloc = rt.alloc();
    let script = two_tickets(alloc).expect(&rt, "memory");
    let events = [
        begin(0, 0),
        begin(1, 1),
        done(0, swap_7(), Value::Nil),
        end(0),
        done(1, swap_7(), Value::Num(7)),
        end(1),
    ];
    let verdict = verdict_on(&rt, alloc, &script, &events);
    assert!(rt; verdict == Verdict::Event { rule: 2, at: 4 });
}

/// The second ticket never ends.
#[test]
fn a_trace_that_breaks_off(rt: HostRuntime) {
    let alloc = rt.alloc();
    let script = two_tickets(alloc).expect(&rt, "memory");
    let events = [
        begin(0, 0),
        begin(1, 1),
        done(0, swap_7(), Value::Nil),
        end(0),
        done(1, swap_8(), Value::Num(7)),
    ];
    let verdict = verdict_on(&rt, alloc, &script, &events);
    assert!(rt; verdict == Verdict::Ticket { rule: 5, ticket: 1 });
}

/// The second ticket swaps first. Each event is allowed after those before it, but regrouped by
/// ticket the first swap's reply would be nil.
#[test]
fn a_trace_out_of_order(rt: HostRuntime) {
    let alloc = rt.alloc();
    let script = two_tickets(alloc).expect(&rt, "memory");
    let events = [
        begin(0, 0),
        begin(1, 1),
        done(1, swap_8(), Value::Nil),
        end(1),
        done(0, swap_7(), Value::Num(8)),
        end(0),
    ];
    let verdict = verdict_on(&rt, alloc, &script, &events);
    assert!(rt; verdict == Verdict::Ticket { rule: 6, ticket: 0 });
}
