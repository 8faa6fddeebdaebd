// A lane that is full and then empty again, and one that four callers fill in threads.

ghost use Rattle.std.specs.Prelude.{◌≡◌, ◌<◌, ◌≤◌, ◌∷◌, [], IfOk, length};
ghost use Rattle.std.specs.List.{AllByRecursion};
ghost use Rattle.session_values.specs.Limits.{max_callers};
ghost use Rattle.hall_writing.specs.Ends.{IsEndOf};
ghost use Rattle.hall_writing.specs.Lanes.{IsSpoken};
ghost use Rattle.tests_threads.specs.OneReply.{nil_reply, one_reply, one_ticket};

use hall_writing::{End, Lane, Spoken};
use session_journal::ListScript;
use session_values::{NoMemory, Reply, TableKind, Value};
use std::alloc::Global;
use std::process::Abort;
use std::sync::Wait;
use std::thread;
use std::thread::Threads;

fn nil() -> Reply
    ensures { result ≡ nil_reply }
{
    Reply::new(1, Value::Nil, Value::Nil, Value::Nil, Value::Nil)
}

fn message() -> Spoken
    ensures { IsSpoken one_reply result }
{
    Spoken {
        ticket: 0,
        reply: nil(),
    }
}

/// A script of one ticket.
fn plan(alloc: Global) -> Result<ListScript, NoMemory>
    ensures { IfOk result (λ s. s.tickets ≡ one_ticket) }
{
    let mut script = ListScript::with_room(alloc, &[TableKind::Map], 1, 0, 0)?;
    script.ticket(nil());
    Ok(script)
}

/// A lane with its ends.
fn opened(alloc: Global, callers: u32) -> Result<(Lane, Vec<End>), NoMemory>
    requires { (1 ≤ callers) × (callers ≤ max_callers) }
    ensures count { IfOk result (λ r. length r.1.items ≡ callers) }
    ensures ends { IfOk result (λ r. AllByRecursion (IsEndOf r.0 one_reply) r.1.items) }
{
    let plan = plan(alloc)?;
    let (lane, ends) = Lane::open(alloc, &plan, callers)?;
    Ok((lane, ends.into_vec()))
}

/// How many of so many offers put their message in.
fn fill<R: Wait>(rt: &R, lane: &Lane, end: &mut End, times: u32) -> u32
    requires { IsEndOf lane.now one_reply end.old }
    ensures end { IsEndOf lane.now one_reply end.new }
    ensures most { result ≤ times }
{
    let mut put = 0;
    for tried in 0..times {
        if lane.offer(rt, end, message()) {
            put += 1;
        }
    }
    put
}

/// How many messages come out, at most so many.
fn drain<R: Wait>(rt: &R, lane: &Lane, end: &mut End, most: u32) -> u32
    requires { IsEndOf lane.now one_reply end.old }
    ensures end { IsEndOf lane.now one_reply end.new }
    ensures most { result ≤ most }
{
    let mut taken = 0;
    for tried in 0..most {
        if lane.next(rt, end).is_some() {
            taken += 1;
        }
    }
    taken
}

/// Each end puts in 256 messages, in a thread of its own where one can be made.
fn fill_all<R: Threads + Wait + Sync>(rt: &R, lane: &Lane, ends: &mut Vec<End>)
    requires some { 0 < length ends.old.items }
    requires ends { AllByRecursion (IsEndOf lane.now one_reply) ends.old.items }
    ensures count { length ends.new.items ≡ length ends.old.items }
{
    let threads = ends.len();
    thread::for_each_mut(
        rt,
        ends.as_mut_slice(),
        threads,
        &|_: usize, end: &mut End|
            requires { IsEndOf lane.now one_reply end.old }
        {
            let _put = fill(rt, lane, end, 256);
        },
    );
}

#[test]
fn a_full_lane_takes_no_more(rt: HostRuntime) {
    let (lane, mut ends) = opened(rt.alloc(), 1).expect(&rt, "memory");
    let mut end = ends.remove(0);
    assert!(rt; fill(&rt, &lane, &mut end, 1024) == 1024);
    assert!(rt; fill(&rt, &lane, &mut end, 1) == 0);
    assert!(rt; drain(&rt, &lane, &mut end, 1) == 1);
    assert!(rt; fill(&rt, &lane, &mut end, 2) == 1);
    assert!(rt; drain(&rt, &lane, &mut end, 2000) == 1024);
}

#[test]
fn four_callers_fill_a_lane(rt: HostRuntime) {
    let (lane, mut ends) = opened(rt.alloc(), 4).expect(&rt, "memory");
    let mut first = ends.remove(0);
    fill_all(&rt, &lane, &mut ends);
    assert!(rt; drain(&rt, &lane, &mut first, 2000) == 768);
}
