// Range sessions: from a source to what its lines write.

ghost use Rattle.std.specs.Prelude.{◌≤◌, length, Some};
ghost use Rattle.session_values.specs.Limits.{max_input};
ghost use Rattle.serve_faults.specs.Command.TheVariants.{Ranges};
ghost use Rattle.byte_ends.specs.Changes.{change};
ghost use Rattle.serve_single.specs.Runs.{AnswersSingle, RunsSingle};

use crate::ending::ended;
use byte_ends::{Sink, Source, write_all};
use serve_faults::Status;
use serve_reading::{range_text, read_at_most};
use session_values::MAX_INPUT;
use std::alloc::Global;

/// Reads lines, and writes what they answer.
pub(crate) fn range_source<I: Source, O: Sink>(alloc: Global, source: &mut I, out: &mut O) -> Status
    ensures { RunsSingle (Some Ranges)
        (change I.left I.faults source.old source.new)
        (change O.held O.faults out.old out.new) result }
{
    match read_at_most(alloc, source, MAX_INPUT) {
        Ok(bytes) => range_input(alloc, bytes.as_slice(), out),
        Err(status) => status,
    }
}

// Writes what the lines of an input answer.
fn range_input<O: Sink>(alloc: Global, bytes: &[u8], out: &mut O) -> Status
    requires { length bytes.now ≤ max_input }
    ensures { AnswersSingle Ranges bytes.now
        (change O.held O.faults out.old out.new) result }
{
    match range_text(alloc, bytes) {
        Ok(text) => {
            if write_all(out, text.as_slice()) {
                Status::Fine
            } else {
                Status::WriteFault
            }
        }
        Err(e) => ended(e),
    }
}
