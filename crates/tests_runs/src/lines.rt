// Lines come while others are served, in order, and none is lost.

use crate::serving::serve_past;
use serve_core::{MemorySink, Put, Sink};
use std::alloc::Global;
use std::sync::Wait;
use std::sync::atomic::{AtomicBool, AtomicUsize, Ordering};
use std::test::Fail;
use std::thread;
use std::thread::Threads;
use worker_gate::{Gate, HoldGate, OpenGate, Place};

/// A sink that sets a flag when it is written to.
#[derive(Drop)]
struct FlagSink<'a> {
    sink: MemorySink,
    written: &'a AtomicBool,
}

impl<'a> Sink for FlagSink<'a> {
    ghost use Rattle.std.specs.Prelude.{None};

    ghost held = { λ _. None };

    ghost faults = { λ s. s.sink.faults };

    fn write(&mut self, bytes: &[u8]) -> Put {
        self.written.store(true, Ordering::SeqCst);
        self.sink.write(bytes)
    }
}

/// A gate that notes whether the flag is set when ticket 1 begins.
#[derive(Drop)]
struct NoteGate<'a> {
    /// Whether it says that it may hold a caller.
    says: bool,
    written: &'a AtomicBool,
    noted: AtomicBool,
}

impl<'a> Gate for NoteGate<'a> {
    fn may_hold(&self, _place: Place) -> bool {
        self.says
    }

    fn pass<R: Threads + Wait>(&self, _rt: &R, place: Place) {
        if place == Place::Begun(1) {
            self.noted
                .store(self.written.load(Ordering::SeqCst), Ordering::SeqCst);
        }
    }
}

/// How one caller serves two tickets past a gate that says so, whether a line was written when the
/// second one began, and whether both lines were written.
fn noted_session<R: Threads + Wait + Sync>(
    rt: &R,
    alloc: Global,
    says: bool,
) -> Result<((u8, bool), bool, bool), Fail> {
    let written = AtomicBool::new(false);
    let sink = MemorySink::with_room(alloc, 100, 100, Vec::new(alloc))?;
    let mut out = FlagSink {
        sink,
        written: &written,
    };
    let gate = NoteGate {
        says,
        written: &written,
        noted: AtomicBool::new(false),
    };
    let end = serve_past(
        rt,
        alloc,
        ("serve --callers 1", "w 0 5\nw 1 6\n", 1),
        &mut out,
        &gate,
    )?;
    let is_all = out.sink.bytes() == b"0 5\n1 6\n".as_slice();
    Ok((end, gate.noted.load(Ordering::SeqCst), is_all))
}

/// Also where the book is kept from the first ticket to the second one.
#[test]
fn a_line_is_written_before_the_next_ticket(rt: HostRuntime) -> Result<(), Fail> {
    let given_back = noted_session(&rt, rt.alloc(), true)?;
    let kept = noted_session(&rt, rt.alloc(), false)?;
    assert_eq!(rt; [given_back, kept], [((0, true), true, true); 2]);
    Ok(())
}

/// Whether the bytes are the lines of so many tickets that all reply 5.
fn are_lines(alloc: Global, bytes: &[u8], tickets: u32) -> Result<bool, Fail> {
    let mut want = Vec::new(alloc);
    for ticket in 0..tickets {
        want.extend_from_slice(format!(in alloc; "{ticket} 5\n")?.as_bytes())?;
    }
    Ok(bytes == want.as_slice())
}

/// How a command serves 1,200 tickets past a gate, and whether all lines come, in order, where
/// the sink takes so many bytes at a time.
fn long_session<R: Threads + Wait + Sync, G: Gate + Sync>(
    rt: &R,
    alloc: Global,
    command: &str,
    piece: u32,
    gate: &G,
) -> Result<((u8, bool), bool), Fail> {
    let mut out = MemorySink::with_room(alloc, 20_000, piece.max(1), Vec::new(alloc))?;
    let end = serve_past(rt, alloc, (command, "w 0 5\n", 1200), &mut out, gate)?;
    Ok((end, are_lines(alloc, out.bytes(), 1200)?))
}

/// A ticket is held until more of the younger ones have ended than a lane has room for: where the
/// first caller holds it, the lane is full then.
#[test]
fn a_full_lane_loses_nothing(rt: HostRuntime) -> Result<(), Fail> {
    let gate = HoldGate::new(Place::Begun(0), Place::Ended(1150), 10_000_000);
    let found = long_session(&rt, rt.alloc(), "serve --callers 2", 1000, &gate)?;
    assert_eq!(rt; (found, gate.broken()), (((0, true), true), false));
    Ok(())
}

/// A sink that takes one byte a call gets all lines, in order.
#[test]
fn a_byte_at_a_time(rt: HostRuntime) -> Result<(), Fail> {
    let found = long_session(&rt, rt.alloc(), "serve --callers 4", 1, &OpenGate)?;
    assert_eq!(rt; found, ((0, true), true));
    Ok(())
}

/// A sink that counts the lines that it took.
#[derive(Drop)]
struct CountSink<'a> {
    sink: MemorySink,
    lines: &'a AtomicUsize,
}

impl<'a> Sink for CountSink<'a> {
    ghost use Rattle.std.specs.Prelude.{None};

    ghost held = { λ _. None };

    ghost faults = { λ s. s.sink.faults };

    fn write(&mut self, bytes: &[u8]) -> Put {
        let put = self.sink.write(bytes);
        if let Put::Took(n) = put {
            let taken = bytes.get(..n as usize).unwrap_or(bytes);
            for byte in taken {
                if *byte == b'\n' {
                    self.lines.fetch_add(1, Ordering::SeqCst);
                }
            }
        }
        put
    }
}

/// A gate at which each two tickets, 0 and 1, 2 and 3 and so on, wait until both are begun, but no
/// longer than a number of turns. It notes how many lines were written when tickets 4 and 5 were.
#[derive(Drop)]
struct PairGate<'a> {
    lines: &'a AtomicUsize,
    /// How many of each two tickets are begun.
    first: AtomicUsize,
    second: AtomicUsize,
    third: AtomicUsize,
    noted: AtomicUsize,
    broken: AtomicBool,
}

// Holds one of two tickets until both are begun; says whether they were in time.
fn both_begin(begun: &AtomicUsize) -> bool {
    begun.fetch_add(1, Ordering::SeqCst);
    for _ in 0..10_000_000u64 {
        if begun.load(Ordering::SeqCst) >= 2 {
            return true;
        }
        thread::yield_now();
    }
    false
}

impl<'a> Gate for PairGate<'a> {
    fn pass<R: Threads + Wait>(&self, _rt: &R, place: Place) {
        let in_time = match place {
            Place::Begun(0 | 1) => both_begin(&self.first),
            Place::Begun(2 | 3) => both_begin(&self.second),
            Place::Begun(4 | 5) => both_begin(&self.third),
            _ => true,
        };
        if !in_time {
            self.broken.store(true, Ordering::SeqCst);
        }
        if matches!(place, Place::Begun(4 | 5)) {
            self.noted
                .fetch_max(self.lines.load(Ordering::SeqCst), Ordering::SeqCst);
        }
    }
}

/// How two callers serve six tickets, each pair of which is open at once; how many lines were written
/// when the last two were begun; and whether the gate was broken.
fn paired_session<R: Threads + Wait + Sync>(
    rt: &R,
    alloc: Global,
) -> Result<((u8, bool), bool, bool, bool), Fail> {
    let lines = AtomicUsize::new(0);
    let sink = MemorySink::with_room(alloc, 100, 100, Vec::new(alloc))?;
    let mut out = CountSink {
        sink,
        lines: &lines,
    };
    let gate = PairGate {
        lines: &lines,
        first: AtomicUsize::new(0),
        second: AtomicUsize::new(0),
        third: AtomicUsize::new(0),
        noted: AtomicUsize::new(0),
        broken: AtomicBool::new(false),
    };
    let requests = "w 0 5\nw 1 5\nw 2 5\nw 3 5\nw 4 5\nw 5 5\n";
    let end = serve_past(
        rt,
        alloc,
        ("serve --callers 2", requests, 1),
        &mut out,
        &gate,
    )?;
    let is_all = are_lines(alloc, out.sink.bytes(), 6)?;
    let noted = gate.noted.load(Ordering::SeqCst);
    Ok((end, noted >= 2, is_all, gate.broken.load(Ordering::SeqCst)))
}

/// What another caller served is written while tickets are left: both callers have ended two tickets
/// when the last two are begun, so the lines of the first two stand there.
#[test]
fn lines_of_another_caller_are_written_too(rt: HostRuntime) -> Result<(), Fail> {
    assert_eq!(rt;
        paired_session(&rt, rt.alloc())?,
        ((0, true), true, true, false)
    );
    Ok(())
}
