// Runs that may want memory.

use crate::runs::{Input, ends_of, run_past, wrote};
use std::alloc::Global;
use std::sync::Wait;
use std::sync::atomic::{AtomicU32, Ordering};
use std::test::Fail;
use std::thread::Threads;
use worker_gate::{Gate, Place};

/// A gate that holds nobody, and counts who comes.
#[derive(Drop)]
struct CountGate {
    passed: AtomicU32,
}

impl Gate for CountGate {
    fn pass<R: Threads + Wait>(&self, _rt: &R, _place: Place) {
        self.passed.fetch_add(1, Ordering::SeqCst);
    }
}

/// How a run of two requests by two callers ends: its status, whether a closed hall is left,
/// whether it wrote what it should then, and how many places were passed.
fn counted_end<R: Threads + Wait + Sync>(
    rt: &R,
    alloc: Global,
) -> Result<((u8, bool), bool, u32), Fail> {
    let input = Input {
        first: "map m; handler f(k) { put(m, k, 1); let v = get(m, k); reply v; }\n%%\n",
        again: "f 5\n",
        times: 2,
    };
    let mut ends = ends_of(alloc, "serve --callers 2", input, (&[], &[]))?;
    let gate = CountGate {
        passed: AtomicU32::new(0),
    };
    let end = run_past(rt, alloc, &mut ends, &gate);
    let is_told = match end.0 {
        0 => wrote(&ends, b"0 1\n1 1\n", ""),
        _ => wrote(&ends, b"", "no memory\n"),
    };
    Ok((end, is_told, gate.passed.load(Ordering::SeqCst)))
}

/// A run passes all places of its tickets, or it wants memory and passes none. `rt try --test` with
/// `--fail-alloc N` makes the Nth allocation fail.
#[test]
fn memory_is_wanted_before_any_place(rt: HostRuntime) -> Result<(), Fail> {
    let found = counted_end(&rt, rt.alloc())?;
    let is_served = found == ((0, true), true, 18);
    let is_stopped = found == ((3, false), true, 0);
    assert!(rt; is_served || is_stopped, "{found:?}");
    Ok(())
}
