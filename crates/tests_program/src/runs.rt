// Whole runs over memory.

ghost use Rattle.std.specs.Prelude.{◌<◌};

use serve_core::{MemorySink, MemorySource, run};
use std::alloc::{AllocError, Global};
use std::sync::Wait;
use std::test::Fail;
use std::thread::Threads;
use worker_gate::{Gate, OpenGate};

/// A text, and another so many times behind it.
#[derive(Clone, Copy)]
pub(crate) struct Input<'a> {
    pub(crate) first: &'a str,
    pub(crate) again: &'a str,
    pub(crate) times: u32,
}

impl Input<'_> {
    pub(crate) fn bytes(self, alloc: Global) -> Result<Vec<u8>, AllocError> {
        let mut text = String::from_str(alloc, self.first)?;
        for _ in 0..self.times {
            text.push_str(self.again)?;
        }
        Ok(text.into_bytes())
    }
}

/// The words of a command line, which stand one space apart.
fn words_of(alloc: Global, command: &str) -> Result<Vec<String>, AllocError> {
    let mut words = Vec::new(alloc);
    for word in command.split(' ') {
        words.push(String::from_str(alloc, word)?)?;
    }
    Ok(words)
}

/// The words of a run, its source and its sinks.
#[derive(Drop)]
pub(crate) struct Ends {
    pub(crate) words: Vec<String>,
    pub(crate) source: MemorySource,
    pub(crate) out: MemorySink,
    pub(crate) err: MemorySink,
}

/// A sink that takes so many bytes at a time, of whose calls these fail.
fn sink_of(alloc: Global, piece: u32, fails: &[u32]) -> Result<MemorySink, Fail>
    requires { 0 < piece }
{
    let fails = fails.to_vec(alloc)?;
    Ok(MemorySink::with_room(alloc, 1_000_000, piece, fails)?)
}

/// A source that gives so many bytes of an input at a time, of whose calls these fail.
fn source_of(alloc: Global, input: Input, piece: u32, fails: &[u32]) -> Result<MemorySource, Fail>
    requires { 0 < piece }
{
    let bytes = input.bytes(alloc)?;
    Ok(MemorySource::new(bytes, piece, fails.to_vec(alloc)?))
}

/// The ends of a run with the reads and the writes that fail. Where some fail, few bytes are moved
/// at a time.
pub(crate) fn ends_of(
    alloc: Global,
    command: &str,
    input: Input,
    (reads, writes): (&[u32], &[u32]),
) -> Result<Ends, Fail> {
    let words = words_of(alloc, command)?;
    let given = if reads.is_empty() { 65_536 } else { 64 };
    let taken = if writes.is_empty() { 1000 } else { 4 };
    let source = source_of(alloc, input, given, reads)?;
    let out = sink_of(alloc, taken, writes)?;
    let err = sink_of(alloc, 100, &[])?;
    Ok(Ends {
        words,
        source,
        out,
        err,
    })
}

/// Runs past a gate, and tells the status and whether a closed hall is left.
pub(crate) fn run_past<R: Threads + Wait + Sync, G: Gate + Sync>(
    rt: &R,
    alloc: Global,
    ends: &mut Ends,
    gate: &G,
) -> (u8, bool) {
    let outcome = run(
        rt,
        alloc,
        &ends.words,
        &mut ends.source,
        &mut ends.out,
        &mut ends.err,
        gate,
    );
    (outcome.status.number(), outcome.closed.is_some())
}

/// Whether this was written, and this on the error output.
pub(crate) fn wrote(ends: &Ends, out: &[u8], err: &str) -> bool {
    ends.out.bytes() == out && ends.err.bytes() == err.as_bytes()
}

/// The status of a run, whether it left a closed hall, and whether it wrote what it should.
pub(crate) type End = (u8, bool, bool);

/// The end of a run with calls that fail, and whether it wrote this.
pub(crate) fn end_of<R: Threads + Wait + Sync>(
    rt: &R,
    alloc: Global,
    (command, input): (&str, Input),
    fails: (&[u32], &[u32]),
    (out, err): (&[u8], &str),
) -> Result<End, Fail> {
    let mut ends = ends_of(alloc, command, input, fails)?;
    let (status, is_closed) = run_past(rt, alloc, &mut ends, &OpenGate);
    Ok((status, is_closed, wrote(&ends, out, err)))
}
