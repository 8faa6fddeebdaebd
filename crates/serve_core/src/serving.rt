// Serving: from a source to what a command writes of the session file that it has.

ghost use Rattle.std.specs.Prelude.{Some};
ghost use Rattle.byte_ends.specs.Changes.{change};
ghost use Rattle.serve_core.specs.Commands.{command_for};
ghost use Rattle.serve_core.specs.Runs.{Runs};

use crate::asked::Writes;
use crate::gathering::gather_bytes;
use crate::outcome::{Outcome, unserved};
use crate::sessions::serve_bytes;
use crate::writing::{Later, Writing};
use byte_ends::{Sink, Source};
use client_feed::Resources;
use hall_serving::Sizes;
use serve_reading::read_at_most;
use session_values::MAX_INPUT;
use std::sync::Wait;
use std::thread::Threads;
use worker_gate::Gate;

/// Reads a session file, serves its requests, and writes what is asked of it.
pub(crate) fn serve_source<R: Threads + Wait + Sync, I: Source, O: Sink, G: Gate + Sync>(
    by: &Resources<'_, R, G>,
    writes: Writes,
    sizes: Sizes,
    source: &mut I,
    out: &mut O,
) -> Outcome
    ensures { Runs (Some (command_for writes sizes.callers sizes.shards))
        (change I.left I.faults source.old source.new)
        (change O.held O.faults out.old out.new) result.status result.closed }
{
    let input = match read_at_most(by.alloc, source, MAX_INPUT) {
        Ok(input) => input,
        Err(status) => return unserved(status),
    };
    let bytes = input.as_slice();
    match writes {
        Writes::Replies => serve_bytes(by, sizes, bytes, Writing::Replies, out),
        Writes::Tables => serve_bytes(by, sizes, bytes, Writing::AtEnd(Later::Tables), out),
        Writes::Events => serve_bytes(by, sizes, bytes, Writing::AtEnd(Later::Events), out),
        Writes::ClientReplies => gather_bytes(by, sizes, bytes, out),
    }
}
