// One caller serves each of two tickets at a desk of its own, takes itself back from the desk, and
// goes on: it begins the next ticket, or is told that all are begun.

ghost use Rattle.std.specs.Prelude.{◌≡◌, ◌≤◌, ◌∷◌, [], IfOk, length};
ghost use Rattle.session_values.specs.Limits.{max_tables};
ghost use Rattle.session_values.specs.declared.kind.TableKind.TheVariants.{Map};
ghost use Rattle.session_hall.specs.declared.stage.Stage.TheVariants.{Out};
ghost use Rattle.session_hall.specs.Callers.{IsCallerOf};
ghost use Rattle.session_hall.specs.Names.{script_of};
ghost use Rattle.session_hall.specs.Stages.{IsBetween};
ghost use Rattle.tests_threads.specs.NextTickets.{GoesOn, HasCallers, IsFresh};

use crate::bumps::{first_entry, op_of};
use hall_serving::{HallDesk, Sizes};
use repeated_calls::{RepeatedCalls, RepeatedScript};
use session_hall::{Caller, Closed, Hall};
use session_journal::{Scratch, Script, Serves};
use session_values::{Listed, NoMemory, TableKind, Value};
use std::alloc::Global;
use std::process::Abort;
use std::sync::Wait;
use std::thread::Threads;
use worker_gate::OpenGate;

/// Serves the ticket that the caller has begun, at a desk. The caller that the desk gives back
/// begins the next ticket.
fn serve_and_go_on<R: Threads + Wait + Abort + Sync, S: Serves + Drop>(
    rt: &R,
    plan: &S,
    hall: &Hall<S>,
    ticket: u32,
    caller: &mut Caller<S>,
    scratch: &mut Scratch,
) -> Option<u32>
    requires caller { IsCallerOf S.meaning hall.now caller.old }
    requires plan { script_of hall.now ≡ plan.now }
    requires begun { IsFresh (S.meaning plan.now) caller.old ticket }
    ensures caller { IsCallerOf S.meaning hall.now caller.new }
    ensures same { caller.new.number ≡ caller.old.number }
    ensures next { GoesOn (S.meaning plan.now) caller.new result }
{
    let gate = OpenGate;
    let mut desk = HallDesk::over(hall, caller, &gate);
    plan.serve(rt, ticket, scratch, &mut desk)
        .expect(rt, "memory");
    let back = desk.into_caller();
    back.begin(rt, hall)
}

/// Serves both tickets, and then all are begun.
fn serve_both<R: Threads + Wait + Abort + Sync, S: Serves + Drop>(
    rt: &R,
    plan: &S,
    hall: &Hall<S>,
    caller: &mut Caller<S>,
    scratch: &mut Scratch,
)
    requires caller { IsCallerOf S.meaning hall.now caller.old }
    requires stage { IsBetween caller.old.stage }
    requires plan { script_of hall.now ≡ plan.now }
    ensures caller { IsCallerOf S.meaning hall.now caller.new }
    ensures same { caller.new.number ≡ caller.old.number }
    ensures out { caller.new.stage ≡ Out }
{
    let Some(first) = caller.begin(rt, hall) else {
        rt.panic("no ticket")
    };
    let Some(second) = serve_and_go_on(rt, plan, hall, first, caller, scratch) else {
        rt.panic("no second ticket")
    };
    let None = serve_and_go_on(rt, plan, hall, second, caller, scratch) else {
        rt.panic("a third ticket")
    };
}

/// A hall over a script, of these sizes, and its callers.
pub(crate) fn open_callers<S: Script + Drop>(
    alloc: Global,
    script: S,
    shape: &[TableKind],
    sizes: Sizes,
) -> Result<(Hall<S>, Vec<Caller<S>>), NoMemory>
    requires shape { shape.now ≡ (S.meaning script).shape }
    requires tables { length shape.now ≤ max_tables }
    ensures { IfOk result (λ r. HasCallers S.meaning sizes.callers script r.0 r.1.items) }
{
    let Sizes { callers, shards } = sizes;
    let (hall, list) = Hall::open(alloc, script, shape, shards, callers)?;
    Ok((hall, list.into_vec()))
}

/// One caller, and one shard of each table.
pub(crate) const ONE: Sizes = Sizes {
    callers: 1,
    shards: 1,
};

/// What a hall of one caller leaves, when it has served both tickets at desks.
fn served_at_desks<R: Threads + Wait + Abort + Sync, S: Serves + Drop>(
    rt: &R,
    alloc: Global,
    plan: &S,
    hall: Hall<S>,
    mut left: Vec<Caller<S>>,
) -> Closed
    requires one { HasCallers S.meaning 1 plan.now hall left.items }
{
    let mut scratch = Scratch::new(alloc).expect(rt, "memory");
    let mut caller = left.remove(0);
    serve_both(rt, plan, &hall, &mut caller, &mut scratch);
    left.push_reserved(caller);
    hall.close(Listed::from_vec(left))
}

/// The same, of a list of tickets on one map.
fn list_at_desks<R: Threads + Wait + Abort + Sync>(
    rt: &R,
    alloc: Global,
    list: &RepeatedCalls,
) -> Closed
    requires { list.now.list.shape ≡ Map ∷ [] }
{
    let script = RepeatedScript { list };
    let plan = RepeatedScript { list };
    let (hall, left) = open_callers(alloc, script, &[TableKind::Map], ONE).expect(rt, "memory");
    served_at_desks(rt, alloc, &plan, hall, left)
}

/// The two tickets add 0 and 1 to one key.
pub(crate) fn two_tickets(alloc: Global) -> Result<RepeatedCalls, NoMemory>
    ensures { IfOk result (λ l. l.list.shape ≡ Map ∷ []) }
{
    let mut list = RepeatedCalls::with_room(alloc, &[TableKind::Map], 2, 1)?;
    list.add(op_of(0));
    list.add(op_of(1));
    Ok(list)
}

#[test]
fn a_caller_goes_on_from_its_desk(rt: HostRuntime) {
    let list = two_tickets(rt.alloc()).expect(&rt, "memory");
    let closed = list_at_desks(&rt, rt.alloc(), &list);
    assert!(rt; closed.journal().events().len() == 6 && closed.replies().len() == 2);
    assert!(rt; first_entry(&rt, &closed) == (Value::Num(0), Value::Num(1)));
}
