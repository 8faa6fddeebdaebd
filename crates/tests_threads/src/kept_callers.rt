// One caller that keeps the book serves the first of two tickets at a desk of its own, takes itself
// back from the desk and serves the second one, and then all are begun.

ghost use Rattle.std.specs.Prelude.{◌≡◌, ◌∷◌, [], None};
ghost use Rattle.session_values.specs.declared.kind.TableKind.TheVariants.{Map};
ghost use Rattle.session_hall.specs.declared.stage.Stage.TheVariants.{Out};
ghost use Rattle.session_hall.specs.Holdings.{IsHoldingOf, StaysHolding};
ghost use Rattle.session_hall.specs.Names.{script_of};
ghost use Rattle.session_hall.specs.Stages.{IsBetween};
ghost use Rattle.tests_threads.specs.NextTickets.{HasCallers};

use crate::bumps::first_entry;
use crate::desk_callers::{ONE, open_callers, two_tickets};
use hall_serving::{Crew, HoldingDesk, Pause, serve_next_kept};
use repeated_calls::{RepeatedCalls, RepeatedScript};
use session_hall::{Caller, Closed, Hall, Holding, Waits};
use session_journal::{Scratch, Serves};
use session_values::{Listed, Reply, TableKind, Value};
use std::alloc::Global;
use std::process::Abort;
use std::sync::Wait;
use std::thread::Threads;
use worker_gate::OpenGate;

/// Takes the book, and serves the next ticket at a desk.
fn serve_at_desk<R: Threads + Wait + Abort + Sync, S: Serves + Drop>(
    rt: &R,
    plan: &S,
    hall: &Hall<S>,
    holding: &mut Holding<S>,
    scratch: &mut Scratch,
) -> Reply
    requires holding { IsHoldingOf S.meaning hall.now holding.old }
    requires none { holding.old.book ≡ None }
    requires stage { IsBetween holding.old.caller.stage }
    requires plan { script_of hall.now ≡ plan.now }
    ensures holding { StaysHolding S.meaning hall.now holding.old holding.new }
    ensures stage { IsBetween holding.new.caller.stage }
{
    holding.hold_with(rt, hall, &mut Waits::none());
    let Some(ticket) = holding.begin(hall) else {
        rt.panic("no ticket")
    };
    let gate = OpenGate;
    let mut desk = HoldingDesk::over(hall, holding, &gate, false);
    plan.serve(rt, ticket, scratch, &mut desk)
        .expect(rt, "memory");
    let Some(reply) = desk.reply() else {
        rt.panic("no reply")
    };
    let _back = desk.into_holding();
    reply
}

/// The replies of both tickets. Then all are begun, and the book isn't in hand.
fn serve_both<R: Threads + Wait + Abort + Sync, S: Serves + Drop>(
    rt: &R,
    plan: &S,
    hall: &Hall<S>,
    holding: &mut Holding<S>,
    scratch: &mut Scratch,
) -> (Reply, Reply)
    requires holding { IsHoldingOf S.meaning hall.now holding.old }
    requires none { holding.old.book ≡ None }
    requires stage { IsBetween holding.old.caller.stage }
    requires plan { script_of hall.now ≡ plan.now }
    ensures holding { StaysHolding S.meaning hall.now holding.old holding.new }
    ensures none { holding.new.book ≡ None }
    ensures out { holding.new.caller.stage ≡ Out }
{
    let gate = OpenGate;
    let mut pause = Pause::none();
    let first = serve_at_desk(rt, plan, hall, holding, scratch);
    let crew = Crew {
        rt,
        plan,
        hall,
        gate: &gate,
    };
    let Some((1, second)) = serve_next_kept(crew, holding, scratch, &mut pause) else {
        rt.panic("no second ticket")
    };
    let None = serve_next_kept(crew, holding, scratch, &mut pause) else {
        rt.panic("a third ticket")
    };
    (first, second)
}

/// What a hall of one caller leaves when it kept the book, and the replies that it had.
fn served_in_hand<R: Threads + Wait + Abort + Sync, S: Serves + Drop>(
    rt: &R,
    alloc: Global,
    plan: &S,
    hall: Hall<S>,
    mut left: Vec<Caller<S>>,
) -> (Closed, Reply, Reply)
    requires one { HasCallers S.meaning 1 plan.now hall left.items }
{
    let mut scratch = Scratch::new(alloc).expect(rt, "memory");
    let mut holding = Holding::over(left.remove(0));
    let (first, second) = serve_both(rt, plan, &hall, &mut holding, &mut scratch);
    left.push_reserved(holding.into_caller());
    (hall.close(Listed::from_vec(left)), first, second)
}

/// The same, of a list of tickets on one map.
fn list_in_hand<R: Threads + Wait + Abort + Sync>(
    rt: &R,
    alloc: Global,
    list: &RepeatedCalls,
) -> (Closed, Reply, Reply)
    requires { list.now.list.shape ≡ Map ∷ [] }
{
    let script = RepeatedScript { list };
    let plan = RepeatedScript { list };
    let (hall, left) = open_callers(alloc, script, &[TableKind::Map], ONE).expect(rt, "memory");
    served_in_hand(rt, alloc, &plan, hall, left)
}

#[test]
fn a_caller_keeps_the_book_from_ticket_to_ticket(rt: HostRuntime) {
    let list = two_tickets(rt.alloc()).expect(&rt, "memory");
    let (closed, first, second) = list_in_hand(&rt, rt.alloc(), &list);
    let replies = [first, second];
    assert!(rt;
        closed.journal().events().len() == 6 && closed.replies().as_slice() == replies.as_slice()
    );
    assert!(rt; first_entry(&rt, &closed) == (Value::Num(0), Value::Num(1)));
}
