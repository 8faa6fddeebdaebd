// Whole runs over memory, whose ends move few bytes at a time or fail.

use serve_core::{MemorySink, MemorySource, run};
use std::alloc::{AllocError, Global};
use std::sync::Wait;
use std::test::Fail;
use std::thread::Threads;
use worker_gate::Gate;

/// How many bytes an end moves at a time, and which of its calls fails, if one does.
pub(crate) type Moves = (u32, Option<u32>);

/// An end that moves many bytes at a time and never fails.
pub(crate) const WHOLE: Moves = (1000, None);

/// The words of a command line, which stand one space apart.
pub(crate) fn words_of(alloc: Global, command: &str) -> Result<Vec<String>, AllocError> {
    let mut words = Vec::new(alloc);
    for word in command.split(' ') {
        words.push(String::from_str(alloc, word)?)?;
    }
    Ok(words)
}

/// The words of a run, its source and its sinks.
#[derive(Drop)]
pub(crate) struct Ends {
    words: Vec<String>,
    source: MemorySource,
    pub(crate) out: MemorySink,
    pub(crate) err: MemorySink,
}

/// The calls that fail.
fn failing(alloc: Global, call: Option<u32>) -> Result<Vec<u32>, Fail> {
    let mut calls = Vec::new(alloc);
    if let Some(call) = call {
        calls.push(call)?;
    }
    Ok(calls)
}

/// A sink that takes bytes so, one at a time at least.
fn sink_of(alloc: Global, (piece, fails): Moves) -> Result<MemorySink, Fail> {
    let calls = failing(alloc, fails)?;
    Ok(MemorySink::with_room(alloc, 20_000, piece.max(1), calls)?)
}

/// The ends of a run over these bytes: the source gives them so, the output takes them so, and the
/// error output so.
pub(crate) fn ends_over(
    alloc: Global,
    command: &str,
    bytes: &[u8],
    (reads, writes, tells): (Moves, Moves, Moves),
) -> Result<Ends, Fail> {
    let (piece, fails) = reads;
    let calls = failing(alloc, fails)?;
    let source = MemorySource::new(bytes.to_vec(alloc)?, piece.max(1), calls);
    Ok(Ends {
        words: words_of(alloc, command)?,
        source,
        out: sink_of(alloc, writes)?,
        err: sink_of(alloc, tells)?,
    })
}

/// The status of a run, and how many requests the hall has served that it leaves closed, if it
/// leaves one.
pub(crate) type End = (u8, Option<usize>);

/// Runs past a gate.
pub(crate) fn run_past<R: Threads + Wait + Sync, G: Gate + Sync>(
    rt: &R,
    alloc: Global,
    ends: &mut Ends,
    gate: &G,
) -> End {
    let outcome = run(
        rt,
        alloc,
        &ends.words,
        &mut ends.source,
        &mut ends.out,
        &mut ends.err,
        gate,
    );
    let served = match &outcome.closed {
        Some(closed) => Some(closed.replies().as_slice().len()),
        None => None,
    };
    (outcome.status.number(), served)
}

/// How a run over these bytes ends past a gate, with what it wrote to ends that never fail.
pub(crate) fn ran<R: Threads + Wait + Sync, G: Gate + Sync>(
    rt: &R,
    alloc: Global,
    (command, bytes): (&str, &[u8]),
    gate: &G,
) -> Result<(End, Ends), Fail> {
    let mut ends = ends_over(alloc, command, bytes, (WHOLE, WHOLE, WHOLE))?;
    let end = run_past(rt, alloc, &mut ends, gate);
    Ok((end, ends))
}

/// The same, where what is written is long.
pub(crate) fn ran_long<R: Threads + Wait + Sync, G: Gate + Sync>(
    rt: &R,
    alloc: Global,
    (command, bytes): (&str, &[u8]),
    gate: &G,
) -> Result<(End, Ends), Fail> {
    let mut ends = ends_over(alloc, command, bytes, (WHOLE, WHOLE, WHOLE))?;
    ends.out = MemorySink::with_room(alloc, 400_000, 1000, Vec::new(alloc))?;
    let end = run_past(rt, alloc, &mut ends, gate);
    Ok((end, ends))
}

/// Whether this was written, and this on the error output.
pub(crate) fn wrote(ends: &Ends, out: &[u8], err: &str) -> bool {
    ends.out.bytes() == out && ends.err.bytes() == err.as_bytes()
}
