// Callers beside each other, past gates that say that they hold nobody, as the one of the program
// does. They yield threads at places so that the other caller comes to wait. Where a run doesn't show
// what is to be seen, since a thread had no processor, it is made again, a number of times.

use crate::runs::{Ends, ran, ran_long};
use crate::yielding::until;
use std::alloc::{AllocError, Global};
use std::sync::Wait;
use std::sync::atomic::{AtomicBool, AtomicU32, Ordering};
use std::test::Fail;
use std::thread;
use std::thread::Threads;
use worker_gate::{Gate, Place};

/// How often a run is made at most.
const RUNS: u32 = 20;

/// A handler that may compute for long before it puts, and two requests that have nothing to do with
/// each other.
const COMPUTES: &str = "map a; handler c(k) { let s = 0; repeat 1000 as i { s = s + i; } \
                        put(a, k, s); reply s; }\n%%\nc 0\nc 1\n";

/// Handlers of one operation and of three.
const LIGHT: &str = "map a; handler one(k) { put(a, k, 5); reply 5; }\n\
                     handler three(k) { put(a, k, 5); let v = get(a, k); put(a, k, v); reply v; }\n\
                     %%\n";

/// How many operations the requests of a session have.
const MANY: u32 = 3_000;

/// A handler of 4,000 operations, and two of one, of which one has nothing to do with the first.
const LONG: &str = "map a; map b; handler long(k) { repeat 1000 as i { put(a, i, k); put(a, k, i); \
                    put(a, i, i); put(a, k, k); } reply k; }\n\
                    handler apart(k) { put(b, k, 7); reply 7; }\n\
                    handler alike(k) { put(a, k, 7); reply 7; }\n%%\nlong 1\n";

/// A gate at which ticket 0 waits at its beginning until ticket 1 is begun, but no longer than a
/// number of turns.
#[derive(Drop)]
struct MeetGate {
    /// How many tickets are begun.
    begun: AtomicU32,
    /// Whether ticket 1 was begun in time.
    met: AtomicBool,
}

impl Gate for MeetGate {
    fn may_hold(&self, _place: Place) -> bool {
        false
    }

    fn pass<R: Threads + Wait>(&self, _rt: &R, place: Place) {
        if let Place::Begun(ticket) = place {
            self.begun.fetch_add(1, Ordering::SeqCst);
            if ticket == 0 && until(&self.begun, 2, 3_000_000) {
                self.met.store(true, Ordering::SeqCst);
            }
        }
    }
}

/// How two callers serve two tickets that compute, and whether both were open at once.
fn computed<R: Threads + Wait + Sync>(
    rt: &R,
    alloc: Global,
    command: &str,
) -> Result<(u8, bool), Fail> {
    let gate = MeetGate {
        begun: AtomicU32::new(0),
        met: AtomicBool::new(false),
    };
    let ((status, _), _ends) = ran(rt, alloc, (command, COMPUTES.as_bytes()), &gate)?;
    Ok((status, gate.met.load(Ordering::SeqCst)))
}

/// While a handler computes, another caller begins the next ticket.
#[test]
fn callers_compute_beside_each_other(rt: HostRuntime) -> Result<(), Fail> {
    let serve = computed(&rt, rt.alloc(), "serve --callers 2")?;
    let trace = computed(&rt, rt.alloc(), "trace --callers 2")?;
    let dump = computed(&rt, rt.alloc(), "dump --callers 2")?;
    assert_eq!(rt; [serve, trace, dump], [(0, true); 3]);
    Ok(())
}

/// A gate that yields the thread of ticket 0 at its beginning, so that the other caller comes to wait
/// for the book. It notes whether ticket 1 was begun before ticket 0 had ended.
#[derive(Drop)]
struct RelayGate {
    /// How often it yields.
    patience: u32,
    /// How many tickets have ended.
    ended: AtomicU32,
    /// Whether ticket 1 was begun before.
    met: AtomicBool,
}

impl Gate for RelayGate {
    fn may_hold(&self, _place: Place) -> bool {
        false
    }

    fn pass<R: Threads + Wait>(&self, _rt: &R, place: Place) {
        match place {
            Place::Begun(0) => {
                for _ in 0..self.patience {
                    thread::yield_now();
                }
            }
            Place::Begun(1) => {
                let is_first = self.ended.load(Ordering::SeqCst) == 0;
                self.met.store(is_first, Ordering::SeqCst);
            }
            Place::Ended(_) => {
                self.ended.fetch_add(1, Ordering::SeqCst);
            }
            _ => {}
        }
    }
}

impl RelayGate {
    // A gate for one run, which waits longer each time.
    fn new(run: u32) -> RelayGate {
        RelayGate {
            patience: run.saturating_mul(50).saturating_add(100),
            ended: AtomicU32::new(0),
            met: AtomicBool::new(false),
        }
    }
}

/// A text, and another so many times behind it.
fn repeated(alloc: Global, first: &str, again: &str, times: u32) -> Result<String, AllocError> {
    let mut text = String::from_str(alloc, first)?;
    for _ in 0..times {
        text.push_str(again)?;
    }
    Ok(text)
}

/// What a run wrote.
fn text_of(ends: &Ends) -> &str {
    match std::str::from_utf8(ends.out.bytes()) {
        Ok(text) => text,
        Err(_) => "",
    }
}

/// Whether a line says that this caller began a ticket.
fn is_begin(line: &str, caller: &str) -> bool {
    match line.split_once("begin ") {
        Some((_, rest)) => match rest.split_once(' ') {
            Some((_, number)) => number == caller,
            None => false,
        },
        None => false,
    }
}

/// Whether a trace tells that this caller began a ticket.
fn has_begun(trace: &str, caller: &str) -> bool {
    for line in trace.split('\n') {
        if is_begin(line, caller) {
            return true;
        }
    }
    false
}

/// Whether two callers serve so many such requests so that both begin some, in one of a number of
/// runs.
fn is_shared<R: Threads + Wait + Sync>(
    rt: &R,
    alloc: Global,
    (request, times): (&str, u32),
) -> Result<bool, Fail> {
    let text = repeated(alloc, LIGHT, request, times)?;
    for run in 0..RUNS {
        let gate = RelayGate::new(run);
        let (_, ends) = ran_long(rt, alloc, ("trace --callers 2", text.as_bytes()), &gate)?;
        let trace = text_of(&ends);
        if has_begun(trace, "0") && has_begun(trace, "1") {
            return Ok(true);
        }
    }
    Ok(false)
}

/// Of many requests of a few operations both callers serve some: who has the book gives it to the
/// other one that waits.
#[test]
fn light_requests_are_shared(rt: HostRuntime) -> Result<(), Fail> {
    let one = is_shared(&rt, rt.alloc(), ("one 5\n", MANY))?;
    let three = is_shared(&rt, rt.alloc(), ("three 5\n", MANY / 3))?;
    assert_eq!(rt; (one, three), (true, true));
    Ok(())
}

/// Whether a trace of two tickets tells, before the end of ticket 0, the beginning of ticket 1 by
/// another caller, and whether it tells there a delay of ticket 1.
fn overlap_of(trace: &str) -> (bool, bool) {
    let before = match trace.split_once("\nend 0 ") {
        Some((before, _)) => before,
        None => "",
    };
    let two = before.split_once("begin 0 0\n").is_some()
        && before.split_once("\nbegin 1 1\n").is_some();
    let others = before.split_once("begin 0 1\n").is_some()
        && before.split_once("\nbegin 1 0\n").is_some();
    let delay = before.split_once("\ndelay 1 put a 1 7 0 ").is_some();
    (two || others, delay)
}

/// What the trace of a long ticket and a short one shows, in the first of a number of runs in which
/// both are open at once.
fn handed_over<R: Threads + Wait + Sync>(
    rt: &R,
    alloc: Global,
    request: &str,
) -> Result<(bool, bool), Fail> {
    let text = repeated(alloc, LONG, request, 1)?;
    for run in 0..RUNS {
        let gate = RelayGate::new(run);
        let (_, ends) = ran_long(rt, alloc, ("trace --callers 2", text.as_bytes()), &gate)?;
        if gate.met.load(Ordering::SeqCst) {
            return Ok(overlap_of(text_of(&ends)));
        }
    }
    Ok((false, false))
}

/// Who has the book gives it to another caller that waits also within a ticket, which then begins the
/// next one. Where that one is in the way of the first, its trace tells that it was delayed.
#[test]
fn the_book_is_handed_over_within_a_ticket(rt: HostRuntime) -> Result<(), Fail> {
    let apart = handed_over(&rt, rt.alloc(), "apart 1\n")?;
    let alike = handed_over(&rt, rt.alloc(), "alike 1\n")?;
    assert_eq!(rt; (apart, alike), ((true, false), (true, true)));
    Ok(())
}
