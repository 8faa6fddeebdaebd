// Sessions of one handler that puts, served past a gate.

use crate::runs::words_of;
use serve_core::{MemorySource, Sink, SureSink, run};
use std::alloc::{AllocError, Global};
use std::sync::Wait;
use std::thread::Threads;
use worker_gate::Gate;

/// Its table and its handler, and requests behind them.
const WRITE: &str = "map a; map b; handler w(k, v) { put(a, k, v); reply v; }\n%%\n";

/// The words of a run, and how often these requests stand behind the handler.
pub(crate) type Session<'a> = (&'a str, &'a str, u32);

/// The bytes of a session.
fn bytes_of(alloc: Global, requests: &str, times: u32) -> Result<Vec<u8>, AllocError> {
    let mut text = String::from_str(alloc, WRITE)?;
    for _ in 0..times {
        text.push_str(requests)?;
    }
    Ok(text.into_bytes())
}

/// Serves a session, and tells the status and whether a closed hall is left.
pub(crate) fn serve_past<R: Threads + Wait + Sync, O: Sink, G: Gate + Sync>(
    rt: &R,
    alloc: Global,
    (command, requests, times): Session,
    out: &mut O,
    gate: &G,
) -> Result<(u8, bool), AllocError> {
    let words = words_of(alloc, command)?;
    let bytes = bytes_of(alloc, requests, times)?;
    let mut source = MemorySource::new(bytes, 65_536, Vec::new(alloc));
    let mut err = SureSink;
    let outcome = run(rt, alloc, &words, &mut source, out, &mut err, gate);
    Ok((outcome.status.number(), outcome.closed.is_some()))
}
