// Checking and showing: from a source to the text of its handlers.

ghost use Rattle.std.specs.Prelude.{◌≤◌, length, Some};
ghost use Rattle.session_values.specs.Limits.{max_input};
ghost use Rattle.byte_ends.specs.Changes.{change};
ghost use Rattle.serve_single.specs.Runs.{AnswersSingle, RunsSingle};
ghost use Rattle.serve_single.specs.Serving.{EndsBy, EndsOrWants};
ghost use Rattle.serve_faults.specs.Ways.{describing};
ghost use Rattle.serve_reading.specs.Described.{IsPrintable, text_of};

use crate::ending::ended;
use byte_ends::{Sink, Source, WriteBuffer, write_text};
use serve_faults::Status;
use serve_reading::{Description, read_at_most, read_description};
use session_values::MAX_INPUT;
use std::alloc::Global;

/// Reads a file of handlers, and writes its text.
pub(crate) fn describe_source<I: Source, O: Sink>(
    alloc: Global,
    shown: bool,
    source: &mut I,
    out: &mut O,
) -> Status
    ensures { RunsSingle (Some (describing shown))
        (change I.left I.faults source.old source.new)
        (change O.held O.faults out.old out.new) result }
{
    match read_at_most(alloc, source, MAX_INPUT) {
        Ok(bytes) => describe_input(alloc, shown, bytes, out),
        Err(status) => status,
    }
}

// Writes the text of a file of handlers.
fn describe_input<O: Sink>(alloc: Global, shown: bool, bytes: Vec<u8>, out: &mut O) -> Status
    requires { length bytes.items ≤ max_input }
    ensures { AnswersSingle (describing shown) bytes.items
        (change O.held O.faults out.old out.new) result }
{
    match read_description(alloc, shown, bytes) {
        Ok(description) => write_description(alloc, &description, out),
        Err(e) => ended(e),
    }
}

// Writes the text of what was read, where there is memory for a page. From then on none is wanted.
fn write_description<O: Sink>(alloc: Global, description: &Description, out: &mut O) -> Status
    requires { IsPrintable description.now }
    ensures { EndsOrWants (text_of description.now)
        (change O.held O.faults out.old out.new) result }
{
    match WriteBuffer::new(alloc) {
        Ok(page) => write_paged(out, description, page),
        Err(_) => Status::NoMemory,
    }
}

// Writes the text of what was read, page by page.
fn write_paged<O: Sink>(out: &mut O, description: &Description, page: WriteBuffer) -> Status
    requires { IsPrintable description.now }
    ensures { EndsBy (text_of description.now) (change O.held O.faults out.old out.new) result }
{
    if write_text(out, description, page) {
        Status::Fine
    } else {
        Status::WriteFault
    }
}
