// Lines that come while later tickets run, past gates that say that they hold nobody, as the one of
// the program does. One of two callers writes, so while it writes, the other one alone passes the
// gate. Where a run doesn't show what is to be seen, it is made again, a number of times.

use crate::runs::words_of;
use crate::yielding::until;
use serve_core::{MemorySink, MemorySource, Put, Sink, SureSink, run};
use std::alloc::Global;
use std::sync::Wait;
use std::sync::atomic::{AtomicBool, AtomicU32, Ordering};
use std::test::Fail;
use std::thread;
use std::thread::Threads;
use worker_gate::{Gate, Place};

/// How often a run is made at most.
const RUNS: u32 = 20;

/// A handler that puts, and six requests.
const LIGHT: &str =
    "map a; handler w(k) { put(a, k, 5); reply 5; }\n%%\nw 0\nw 1\nw 2\nw 3\nw 4\nw 5\n";

/// The same that may compute for long after it has put, and three requests.
const COMPUTES: &str = "map a; handler w(k) { put(a, k, 5); let s = 5; \
                        if k == 9 { repeat 1000 as i { s = s + i; } } reply s; }\n%%\nw 0\nw 1\nw 2\n";

/// What the sink waits for in a call, and the gate at a place.
#[derive(Clone, Copy)]
enum Play {
    /// The first call of the sink ends when tickets 0 to 3 have ended, of which 1 to 3 go on after it
    /// has begun. Ticket 4 waits at its beginning until their lines are out. Meanwhile who writes
    /// doesn't get the book: it can write them only while it waits for it.
    Kept,
    /// Each of three tickets that compute waits at its beginning until the older ones have ended, and
    /// the first also until the second is begun. A call of the sink ends when another ticket has
    /// ended: who writes has ended one itself, and the book isn't in its hand.
    Blocked,
}

/// What the gate and the sink of a run count.
#[derive(Drop)]
struct Counts {
    play: Play,
    /// For how many turns who waits for the other caller does at most.
    limit: u32,
    /// How often the gate yields where one of two tickets has ended, so that the other caller comes to wait.
    patience: u32,
    /// How many tickets are begun, and how many have ended.
    begun: AtomicU32,
    ended: AtomicU32,
    /// How many calls of the sink are begun, and how many lines it took.
    writes: AtomicU32,
    lines: AtomicU32,
    /// Whether what is to be seen was seen.
    shown: AtomicBool,
    /// Whether somebody waited for so long as it may.
    broken: AtomicBool,
}

impl Counts {
    // Those of one run, in which more time is given each time.
    fn new(play: Play, run: u32) -> Counts {
        Counts {
            play,
            limit: run.saturating_add(1).saturating_mul(2_000),
            patience: run.saturating_mul(50).saturating_add(100),
            begun: AtomicU32::new(0),
            ended: AtomicU32::new(0),
            writes: AtomicU32::new(0),
            lines: AtomicU32::new(0),
            shown: AtomicBool::new(false),
            broken: AtomicBool::new(false),
        }
    }

    // Waits until so much is counted, unless somebody waited in vain before; says whether it was.
    fn wait(&self, count: &AtomicU32, least: u32) -> bool {
        let is_there = !self.broken.load(Ordering::SeqCst) && until(count, least, self.limit);
        if !is_there {
            self.broken.store(true, Ordering::SeqCst);
        }
        is_there
    }

    // Where a ticket has ended. The other caller is given time to come to wait for the book.
    fn end(&self, ticket: u32) {
        self.ended.fetch_add(1, Ordering::SeqCst);
        if ticket < 2 {
            for _ in 0..self.patience {
                thread::yield_now();
            }
        }
    }

    // Notes that it was seen, if nobody has waited in vain.
    fn show(&self) {
        if !self.broken.load(Ordering::SeqCst) {
            self.shown.store(true, Ordering::SeqCst);
        }
    }

    // Counts the lines of bytes that were taken.
    fn count(&self, bytes: &[u8]) {
        for byte in bytes {
            if *byte == b'\n' {
                self.lines.fetch_add(1, Ordering::SeqCst);
            }
        }
    }

    // At a call of the sink.
    fn write(&self) {
        let is_first = self.writes.fetch_add(1, Ordering::SeqCst) == 0;
        match self.play {
            Play::Kept => {
                if is_first {
                    self.wait(&self.ended, 4);
                }
            }
            Play::Blocked => {
                let ended = self.ended.load(Ordering::SeqCst);
                if ended < 3 && self.wait(&self.ended, ended.saturating_add(1)) {
                    self.show();
                }
            }
        }
    }

    // At the beginning of a ticket.
    fn begin(&self, ticket: u32) {
        self.begun.fetch_add(1, Ordering::SeqCst);
        match self.play {
            Play::Kept => {
                if ticket == 1 {
                    self.wait(&self.writes, 1);
                }
                if ticket == 4 && self.wait(&self.lines, 4) {
                    self.show();
                }
            }
            Play::Blocked => {
                self.wait(&self.ended, ticket);
                self.wait(&self.begun, 2);
            }
        }
    }

    // Whether it was seen to the end.
    fn is_shown(&self) -> bool {
        self.shown.load(Ordering::SeqCst) && !self.broken.load(Ordering::SeqCst)
    }
}

/// A sink that counts, and waits.
#[derive(Drop)]
struct PlaySink<'a> {
    sink: MemorySink,
    counts: &'a Counts,
}

impl<'a> Sink for PlaySink<'a> {
    ghost use Rattle.std.specs.Prelude.{None};

    ghost held = { λ _. None };

    ghost faults = { λ s. s.sink.faults };

    fn write(&mut self, bytes: &[u8]) -> Put {
        self.counts.write();
        let put = self.sink.write(bytes);
        if let Put::Took(n) = put {
            self.counts.count(bytes.get(..n as usize).unwrap_or(bytes));
        }
        put
    }
}

/// A gate that counts, and waits.
#[derive(Drop)]
struct PlayGate<'a> {
    counts: &'a Counts,
}

impl<'a> Gate for PlayGate<'a> {
    fn may_hold(&self, _place: Place) -> bool {
        false
    }

    fn pass<R: Threads + Wait>(&self, _rt: &R, place: Place) {
        match place {
            Place::Begun(ticket) => self.counts.begin(ticket),
            Place::Ended(ticket) => self.counts.end(ticket),
            _ => {}
        }
    }
}

/// Whether two callers write these lines, and it was seen.
fn played<R: Threads + Wait + Sync>(
    rt: &R,
    alloc: Global,
    (text, lines): (&str, &str),
    counts: &Counts,
) -> Result<(bool, bool), Fail> {
    let words = words_of(alloc, "serve --callers 2")?;
    let bytes = text.as_bytes().to_vec(alloc)?;
    let mut source = MemorySource::new(bytes, 1000, Vec::new(alloc));
    let sink = MemorySink::with_room(alloc, 1000, 1000, Vec::new(alloc))?;
    let mut out = PlaySink { sink, counts };
    let gate = PlayGate { counts };
    let mut err = SureSink;
    let outcome = run(rt, alloc, &words, &mut source, &mut out, &mut err, &gate);
    let is_right = outcome.status.number() == 0 && out.sink.bytes() == lines.as_bytes();
    Ok((is_right, counts.is_shown()))
}

/// Whether all lines were right, and it was seen in one of a number of runs.
fn shown<R: Threads + Wait + Sync>(
    rt: &R,
    alloc: Global,
    session: (&str, &str),
    play: Play,
) -> Result<(bool, bool), Fail> {
    for number in 0..RUNS {
        let counts = Counts::new(play, number);
        let (is_right, is_shown) = played(rt, alloc, session, &counts)?;
        if is_shown || !is_right {
            return Ok((is_right, is_shown));
        }
    }
    Ok((true, false))
}

/// Lines of tickets of another caller come while that one keeps the book.
#[test]
fn lines_come_while_another_caller_keeps_the_book(rt: HostRuntime) -> Result<(), Fail> {
    let session = (LIGHT, "0 5\n1 5\n2 5\n3 5\n4 5\n5 5\n");
    let found = shown(&rt, rt.alloc(), session, Play::Kept)?;
    assert_eq!(rt; found, (true, true));
    Ok(())
}

/// While a line is written that nobody reads, another caller serves.
#[test]
fn a_blocked_output_stops_nobody(rt: HostRuntime) -> Result<(), Fail> {
    let session = (COMPUTES, "0 5\n1 5\n2 5\n");
    let found = shown(&rt, rt.alloc(), session, Play::Blocked)?;
    assert_eq!(rt; found, (true, true));
    Ok(())
}
