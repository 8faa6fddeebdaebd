// One caller serves all tickets, with one call for each. What it did is compared with plain tables
// and with a serial run, and the reply of each ticket with that of the closed hall.

ghost use Rattle.std.specs.Prelude.{◌≡◌, ◌∷◌, []};
ghost use Rattle.session_values.specs.declared.kind.TableKind.TheVariants.{Map};
ghost use Rattle.session_hall.specs.Callers.{IsCallerOf};
ghost use Rattle.session_hall.specs.Closings.{Leaves};
ghost use Rattle.session_hall.specs.Names.{script_of};
ghost use Rattle.session_hall.specs.Stages.{IsBetween};
ghost use Rattle.tests_threads.specs.NextTickets.{HasCallers};

use crate::desk_callers::open_callers;
use crate::four_callers::{TICKETS, has_serial_calls, tickets};
use hall_serving::{Crew, Pause, Sizes, serve_next};
use repeated_calls::{RepeatedCalls, RepeatedScript};
use session_hall::{Caller, Closed, Hall};
use session_journal::{Scratch, Serves};
use session_values::{Listed, Reply, TableKind};
use std::alloc::Global;
use std::process::Abort;
use std::sync::Wait;
use std::thread::Threads;
use worker_gate::OpenGate;

/// The tickets that a caller served, each with its reply.
type Served = Vec<(u32, Reply)>;

/// Serves one ticket after another until all are begun.
fn serve_rest<R: Threads + Wait + Abort + Sync, S: Serves + Drop>(
    rt: &R,
    alloc: Global,
    plan: &S,
    hall: &Hall<S>,
    mut caller: Caller<S>,
) -> (Caller<S>, Served)
    requires caller { IsCallerOf S.meaning hall.now caller }
    requires between { IsBetween caller.stage }
    requires plan { script_of hall.now ≡ plan.now }
    ensures { Leaves S.meaning hall.now caller.number result.0 }
{
    let gate = OpenGate;
    let crew = Crew {
        rt,
        plan,
        hall,
        gate: &gate,
    };
    let mut scratch = Scratch::new(alloc).expect(rt, "memory");
    let mut pause = Pause::none();
    let mut served = Vec::new(alloc);
    for begun in 0..=TICKETS {
        let Some(one) = serve_next(crew, &mut caller, &mut scratch, &mut pause) else {
            return (caller, served);
        };
        served.push(one).expect(rt, "memory");
    }
    rt.panic("more tickets than there are")
}

/// What a hall of one caller leaves, and what it served.
fn served_by_one<R: Threads + Wait + Abort + Sync, S: Serves + Drop>(
    rt: &R,
    alloc: Global,
    plan: &S,
    hall: Hall<S>,
    mut left: Vec<Caller<S>>,
) -> (Closed, Served)
    requires one { HasCallers S.meaning 1 plan.now hall left.items }
{
    let caller = left.remove(0);
    let (back, served) = serve_rest(rt, alloc, plan, &hall, caller);
    left.push_reserved(back);
    (hall.close(Listed::from_vec(left)), served)
}

/// The same, of a list of tickets on one map.
fn list_by_one<R: Threads + Wait + Abort + Sync>(
    rt: &R,
    alloc: Global,
    list: &RepeatedCalls,
) -> (Closed, Served)
    requires { list.now.list.shape ≡ Map ∷ [] }
{
    let sizes = Sizes {
        callers: 1,
        shards: 8,
    };
    let script = RepeatedScript { list };
    let plan = RepeatedScript { list };
    let (hall, left) = open_callers(alloc, script, &[TableKind::Map], sizes).expect(rt, "memory");
    served_by_one(rt, alloc, &plan, hall, left)
}

/// Each ticket was served once, with its reply.
fn has_each_reply<R: Abort>(rt: &R, mut served: Served, replies: &[Reply]) {
    assert!(rt; served.len() == TICKETS as usize && replies.len() == TICKETS as usize);
    served.sort_by_key(|one| one.0).expect(rt, "memory");
    let mut next = 0u32;
    for ((ticket, reply), wanted) in served.iter().zip(replies) {
        assert!(rt; *ticket == next && *reply == *wanted);
        next = next.wrapping_add(1);
    }
}

#[test]
fn a_caller_serves_one_ticket_at_a_time(rt: HostRuntime) {
    let list = tickets(rt.alloc()).expect(&rt, "memory");
    let (closed, served) = list_by_one(&rt, rt.alloc(), &list);
    has_each_reply(&rt, served, closed.replies().as_slice());
    has_serial_calls(&rt, rt.alloc(), &list, &closed);
}
