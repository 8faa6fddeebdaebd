// Working: a made session, and its summary.

ghost use Rattle.std.specs.Prelude.{◌≤◌, ℕ, List};
ghost use Rattle.session_values.specs.Limits.{max_requests};
ghost use Rattle.serve_words.specs.declared.command.Command.TheVariants.{Work};
ghost use Rattle.byte_ends.specs.Changes.{change};
ghost use Rattle.serve_core.specs.Runs.{AnswersTo};

use crate::outcome::{Outcome, unserved};
use crate::sessions::serve_bytes;
use crate::writing::{Later, Writing};
use byte_ends::Sink;
use client_feed::Resources;
use hall_serving::Sizes;
use serve_faults::Status;
use serve_words::session_text;
use std::sync::Wait;
use std::thread::Threads;
use worker_gate::Gate;

/// Serves a made session, and writes its summary.
pub(crate) fn work<R: Threads + Wait + Sync, O: Sink, G: Gate + Sync>(
    by: &Resources<'_, R, G>,
    requests: u32,
    start: u32,
    out: &mut O,
) -> Outcome
    requires { requests ≤ max_requests }
    ensures { (bytes : List ℕ) → AnswersTo (Work requests start) bytes
        (change O.held O.faults out.old out.new) result.status result.closed }
{
    match session_text(by.alloc, requests, start) {
        Ok(text) => {
            let sizes = Sizes {
                callers: 4,
                shards: 4,
            };
            let writing = Writing::AtEnd(Later::Summary { requests });
            serve_bytes(by, sizes, text.as_bytes(), writing, out)
        }
        Err(_) => unserved(Status::NoMemory),
    }
}
