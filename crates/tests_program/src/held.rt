// Sessions in which a ticket is held at a place, and places that callers pass.

use crate::runs::{Input, ends_of, run_past, wrote};
use std::alloc::Global;
use std::sync::Wait;
use std::sync::atomic::{AtomicBool, AtomicUsize, Ordering};
use std::test::Fail;
use std::thread;
use std::thread::Threads;
use worker_gate::{Gate, HoldGate, Place};

/// One handler that puts.
const WRITE: &str = "map a; handler w(k, v) { put(a, k, v); reply v; }\n%%\n";

/// A handler that gets a key and then has nothing to do with it, and one that puts it.
const READ: &str =
    "map m; handler g() { let v = get(m, 1); reply v; } handler p() { put(m, 1, 7); }\n%%\n";

/// A handler whose branches put different keys, and one that puts the key of the second branch.
const BRANCH: &str =
    "map m; handler b(k) { if k == 1 { put(m, 2, 5); } else { put(m, 1, 5); } reply k; } handler p() { put(m, 1, 7); }\n%%\n";

/// Whether requests are served with these replies while a gate holds who comes to a place until
/// ticket 1 has ended; and whether the gate was broken.
fn serve_held<R: Threads + Wait + Sync>(
    rt: &R,
    alloc: Global,
    command: &str,
    (hold, limit): (Place, u64),
    (first, requests, replies): (&str, &str, &str),
) -> Result<(bool, bool), Fail> {
    let input = Input {
        first,
        again: requests,
        times: 1,
    };
    let mut ends = ends_of(alloc, command, input, (&[], &[]))?;
    let gate = HoldGate::new(hold, Place::Ended(1), limit);
    let is_served = run_past(rt, alloc, &mut ends, &gate) == (0, true);
    Ok((
        is_served && wrote(&ends, replies.as_bytes(), ""),
        gate.broken(),
    ))
}

/// Two tickets and three ones that are held: at the beginning with two callers and with one, and
/// where a ticket holds a shard.
fn held_sessions<R: Threads + Wait + Sync>(
    rt: &R,
    alloc: Global,
) -> Result<[(bool, bool); 3], Fail> {
    let two = (WRITE, "w 0 5\nw 1 6\n", "0 5\n1 6\n");
    let three = (WRITE, "w 0 5\nw 1 6\nw 0 7\n", "0 5\n1 6\n2 7\n");
    let begun = (Place::Begun(0), 10_000_000);
    let briefly = (Place::Begun(0), 1000);
    let applied = (Place::Applied(0), 10_000_000);
    Ok([
        serve_held(rt, alloc, "serve --callers 2 --shards 4", begun, two)?,
        serve_held(rt, alloc, "serve --callers 1 --shards 4", briefly, two)?,
        serve_held(rt, alloc, "serve --callers 3 --shards 4", applied, three)?,
    ])
}

/// A ticket is held at its beginning until a younger one has ended: that takes two callers. A
/// ticket that holds a shard lets a younger one end that needs another shard.
#[test]
fn a_younger_ticket_ends_first(rt: HostRuntime) -> Result<(), Fail> {
    let found = held_sessions(&rt, rt.alloc())?;
    assert_eq!(rt; found, [(true, false), (true, true), (true, false)]);
    Ok(())
}

/// Two tickets that have nothing to do with each other, of which the first is held at each place
/// until the second has ended.
fn held_places<R: Threads + Wait + Sync>(rt: &R, alloc: Global) -> Result<[(bool, bool); 5], Fail> {
    let command = "serve --callers 2 --shards 4";
    let two = (WRITE, "w 0 5\nw 1 6\n", "0 5\n1 6\n");
    let limit = 10_000_000;
    Ok([
        serve_held(rt, alloc, command, (Place::Begun(0), limit), two)?,
        serve_held(rt, alloc, command, (Place::Admitted(0), limit), two)?,
        serve_held(rt, alloc, command, (Place::Applied(0), limit), two)?,
        serve_held(rt, alloc, command, (Place::Done(0, 1), limit), two)?,
        serve_held(rt, alloc, command, (Place::Ending(0), limit), two)?,
    ])
}

/// Whatever place a ticket is held at, a younger one ends that it has nothing to do with.
#[test]
fn a_held_ticket_holds_nobody_else(rt: HostRuntime) -> Result<(), Fail> {
    assert_eq!(rt; held_places(&rt, rt.alloc())?, [(true, false); 5]);
    Ok(())
}

/// Sessions in which the older ticket has narrowed what it may still call before it is held, by an
/// operation and by a branch; and one in which it is held before it does what the younger one
/// would change.
fn narrowed_sessions<R: Threads + Wait + Sync>(
    rt: &R,
    alloc: Global,
) -> Result<[(bool, bool); 3], Fail> {
    let command = "serve --callers 2 --shards 4";
    let done = (Place::Done(0, 1), 10_000_000);
    let admitted = (Place::Admitted(0), 10_000_000);
    let briefly = (Place::Begun(0), 1000);
    let read = (READ, "g\np\n", "0 nil\n1 nil\n");
    let branch = (BRANCH, "b 1\np\n", "0 1\n1 nil\n");
    let conflict = (WRITE, "w 0 5\nw 0 6\n", "0 5\n1 6\n");
    Ok([
        serve_held(rt, alloc, command, done, read)?,
        serve_held(rt, alloc, command, admitted, branch)?,
        serve_held(rt, alloc, command, briefly, conflict)?,
    ])
}

/// A ticket delays a younger one by what it has declared last, and not by what it declared before.
#[test]
fn what_is_narrowed_delays_no_more(rt: HostRuntime) -> Result<(), Fail> {
    let found = narrowed_sessions(&rt, rt.alloc())?;
    assert_eq!(rt; found, [(true, false), (true, false), (true, true)]);
    Ok(())
}

/// A gate that holds nobody, and tells whether one caller passes these places in order.
#[derive(Drop)]
struct ListGate<'a> {
    places: &'a [Place],
    /// How many of them were passed.
    passed: AtomicUsize,
    /// Whether another place than the next one was passed.
    strayed: AtomicBool,
}

impl<'a> Gate for ListGate<'a> {
    fn pass<R: Threads + Wait>(&self, _rt: &R, place: Place) {
        let at = self.passed.load(Ordering::SeqCst);
        if self.places.get(at) == Some(&place) {
            self.passed.store(at.wrapping_add(1), Ordering::SeqCst);
        } else {
            self.strayed.store(true, Ordering::SeqCst);
        }
    }
}

/// How many places one caller passes in order, and whether it passes another one.
fn places_passed<R: Threads + Wait + Sync>(
    rt: &R,
    alloc: Global,
    places: &[Place],
) -> Result<(usize, bool), Fail> {
    let input = Input {
        first: "map m; handler f(k) { put(m, k, 1); let v = get(m, k); reply v; }\n%%\n",
        again: "f 5\n",
        times: 1,
    };
    let mut ends = ends_of(alloc, "serve --callers 1", input, (&[], &[]))?;
    let gate = ListGate {
        places,
        passed: AtomicUsize::new(0),
        strayed: AtomicBool::new(false),
    };
    let is_served = run_past(rt, alloc, &mut ends, &gate) == (0, true);
    let strayed = gate.strayed.load(Ordering::SeqCst);
    Ok((
        gate.passed.load(Ordering::SeqCst),
        strayed || !is_served || !wrote(&ends, b"0 1\n", ""),
    ))
}

#[test]
fn one_caller_passes_all_places_in_order(rt: HostRuntime) -> Result<(), Fail> {
    let places = [
        Place::Begun(0),
        Place::Admitted(0),
        Place::Applied(0),
        Place::Done(0, 1),
        Place::Admitted(0),
        Place::Applied(0),
        Place::Done(0, 2),
        Place::Ending(0),
        Place::Ended(0),
    ];
    assert_eq!(rt; places_passed(&rt, rt.alloc(), &places)?, (9, false));
    Ok(())
}

/// A gate at which each ticket waits at its beginning until so many have begun, but no longer than
/// a number of turns.
#[derive(Drop)]
struct BarrierGate {
    wanted: usize,
    limit: u64,
    /// How many have begun.
    begun: AtomicUsize,
    /// Whether one was let go at its limit.
    broken: AtomicBool,
}

impl BarrierGate {
    // Holds a caller.
    fn wait(&self) {
        self.begun.fetch_add(1, Ordering::SeqCst);
        for _ in 0..self.limit {
            if self.begun.load(Ordering::SeqCst) >= self.wanted {
                return;
            }
            thread::yield_now();
        }
        self.broken.store(true, Ordering::SeqCst);
    }
}

impl Gate for BarrierGate {
    fn pass<R: Threads + Wait>(&self, _rt: &R, place: Place) {
        if let Place::Begun(_) = place {
            self.wait();
        }
    }
}

/// Whether eight requests are served by so many callers, each of whose tickets waits until all
/// eight are begun; and whether one was let go before.
fn serve_together<R: Threads + Wait + Sync>(
    rt: &R,
    alloc: Global,
    (command, limit): (&str, u64),
) -> Result<(bool, bool), Fail> {
    let input = Input {
        first: WRITE,
        again: "w 0 5\n",
        times: 8,
    };
    let mut ends = ends_of(alloc, command, input, (&[], &[]))?;
    let gate = BarrierGate {
        wanted: 8,
        limit,
        begun: AtomicUsize::new(0),
        broken: AtomicBool::new(false),
    };
    let is_served = run_past(rt, alloc, &mut ends, &gate) == (0, true);
    Ok((is_served, gate.broken.load(Ordering::SeqCst)))
}

/// As many tickets are open at once as there are callers, and no more.
#[test]
fn as_many_tickets_are_open_as_callers(rt: HostRuntime) -> Result<(), Fail> {
    let eight = serve_together(&rt, rt.alloc(), ("serve --callers 8", 10_000_000))?;
    let seven = serve_together(&rt, rt.alloc(), ("serve --callers 7", 1000))?;
    assert_eq!(rt; [eight, seven], [(true, false), (true, true)]);
    Ok(())
}
