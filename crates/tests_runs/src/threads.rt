// Each command that serves by several callers serves by as many threads.

use crate::runs::{ran, ran_long};
use crate::yielding::until;
use std::alloc::Global;
use std::sync::Wait;
use std::sync::atomic::{AtomicBool, AtomicU32, Ordering};
use std::test::Fail;
use std::thread::Threads;
use worker_gate::{Gate, Place};

/// For how many turns a ticket waits for others at most.
const LIMIT: u32 = 2_000_000;

/// A handler that puts, and eight requests.
const EIGHT: &str = "map a; handler w(k, v) { put(a, k, v); reply v; }\n%%\n\
                     w 0 5\nw 1 5\nw 2 5\nw 3 5\nw 4 5\nw 5 5\nw 6 5\nw 7 5\n";

/// The same of a handler that may compute for long.
const COMPUTES: &str =
    "map a; handler w(k, v) { let s = v; if k == 9 { repeat 1000 as i { s = s + i; } } \
                        put(a, k, s); reply s; }\n%%\n\
                        w 0 5\nw 1 5\nw 2 5\nw 3 5\nw 4 5\nw 5 5\nw 6 5\nw 7 5\n";

/// A gate at which each ticket waits at its beginning until so many have begun, but no longer than a
/// number of turns. Once one was let go before, nobody waits any more.
#[derive(Drop)]
struct CrowdGate {
    /// Whether it says that it may hold a caller there.
    says: bool,
    wanted: u32,
    limit: u32,
    /// How many have begun.
    begun: AtomicU32,
    /// Whether one was let go at its limit.
    broken: AtomicBool,
}

impl Gate for CrowdGate {
    fn may_hold(&self, place: Place) -> bool {
        self.says && matches!(place, Place::Begun(_))
    }

    fn pass<R: Threads + Wait>(&self, _rt: &R, place: Place) {
        if let Place::Begun(_) = place {
            self.begun.fetch_add(1, Ordering::SeqCst);
            if !self.broken.load(Ordering::SeqCst) && !until(&self.begun, self.wanted, self.limit) {
                self.broken.store(true, Ordering::SeqCst);
            }
        }
    }
}

/// How many tickets are to be open at once, whether the gate says so, and for how many turns it waits.
type Crowd = (u32, bool, u32);

/// How a command ends, and whether so many tickets were open at once.
fn crowded<R: Threads + Wait + Sync>(
    rt: &R,
    alloc: Global,
    (command, text): (&str, &str),
    (wanted, says, limit): Crowd,
) -> Result<(u8, bool), Fail> {
    let gate = CrowdGate {
        says,
        wanted,
        limit,
        begun: AtomicU32::new(0),
        broken: AtomicBool::new(false),
    };
    let ((status, _), _ends) = ran_long(rt, alloc, (command, text.as_bytes()), &gate)?;
    Ok((status, !gate.broken.load(Ordering::SeqCst)))
}

/// Eight callers have eight tickets open at once, and seven have not; `work` serves by four.
#[test]
fn each_caller_has_a_thread(rt: HostRuntime) -> Result<(), Fail> {
    let eight = (8, true, LIMIT);
    let trace = crowded(&rt, rt.alloc(), ("trace --callers 8", EIGHT), eight)?;
    let dump = crowded(&rt, rt.alloc(), ("dump --callers 8", EIGHT), eight)?;
    let clients = crowded(&rt, rt.alloc(), ("clients --callers 8", EIGHT), eight)?;
    let work = crowded(&rt, rt.alloc(), ("work 8 1", ""), (4, true, LIMIT))?;
    let seven = crowded(
        &rt,
        rt.alloc(),
        ("trace --callers 7", EIGHT),
        (8, true, 1000),
    )?;
    assert_eq!(rt; [trace, dump, clients, work], [(0, true); 4]);
    assert_eq!(rt; seven, (0, false));
    Ok(())
}

/// Also where the gate doesn't say that it holds: callers compute beside each other.
#[test]
fn as_many_compute_as_there_are_callers(rt: HostRuntime) -> Result<(), Fail> {
    let eight = (8, false, LIMIT);
    let trace = crowded(&rt, rt.alloc(), ("trace --callers 8", COMPUTES), eight)?;
    let dump = crowded(&rt, rt.alloc(), ("dump --callers 8", COMPUTES), eight)?;
    let clients = crowded(&rt, rt.alloc(), ("clients --callers 8", COMPUTES), eight)?;
    assert_eq!(rt; [trace, dump, clients], [(0, true); 3]);
    Ok(())
}
