// The same runs over bytes that the caller keeps: they are read where they are.

ghost use Rattle.std.specs.Prelude.{ℕ, IfErr, IfOk, Some};
ghost use Rattle.serve_faults.specs.Answer.{CommandAnswers, Text};
ghost use Rattle.byte_ends.specs.Changes.{change};
ghost use Rattle.serve_faults.specs.Command.TheVariants.{Audit, Ranges};
ghost use Rattle.serve_faults.specs.Ways.{describing};
ghost use Rattle.serve_reading.specs.Described.{IsPrintable, text_of};
ghost use Rattle.serve_single.specs.Runs.{EndsUnanswered, RunsOver};
ghost use Rattle.serve_single.specs.Serving.{serving};

use crate::auditing::audit_input;
use crate::ending::ended;
use crate::serving::serve_input;
use byte_ends::Sink;
use serve_faults::{Fault, MAX_AUDIT_INPUT, Status};
use serve_reading::{Description, description_of, range_text};
use session_values::MAX_INPUT;
use std::alloc::Global;

/// What is printed of a file of handlers: its canonical text; with `shown`, the text with its
/// declarations. To put it takes no memory.
pub fn describe_bytes(alloc: Global, shown: bool, bytes: &[u8]) -> Result<Description, Status>
    ensures text { IfOk result (λ found. CommandAnswers (Some (describing shown)) bytes.now
        (Text (text_of found))) }
    ensures printable { IfOk result IsPrintable }
    ensures ended { IfErr result (EndsUnanswered (describing shown) bytes.now) }
{
    if bytes.len() > MAX_INPUT {
        return Err(Status::Refused(Fault::TooLarge));
    }
    match description_of(alloc, shown, bytes) {
        Ok(description) => Ok(description),
        Err(e) => Err(ended(e)),
    }
}

/// What the lines of a range session answer.
pub fn ranges_bytes(alloc: Global, bytes: &[u8]) -> Result<Vec<u8>, Status>
    ensures text { IfOk result (λ text. CommandAnswers (Some Ranges) bytes.now (Text text.items)) }
    ensures ended { IfErr result (EndsUnanswered Ranges bytes.now) }
{
    if bytes.len() > MAX_INPUT {
        return Err(Status::Refused(Fault::TooLarge));
    }
    match range_text(alloc, bytes) {
        Ok(text) => Ok(text),
        Err(e) => Err(ended(e)),
    }
}

/// Writes what is judged of the trace with which a session file ends to `out`.
pub fn audit_bytes<O: Sink>(alloc: Global, bytes: &[u8], out: &mut O) -> Status
    ensures { RunsOver Audit bytes.now (change O.held O.faults out.old out.new) result }
{
    if bytes.len() > MAX_AUDIT_INPUT {
        return Status::Refused(Fault::TooLarge);
    }
    audit_input(alloc, bytes, out)
}

/// Runs the handlers of a session file's requests one after another, and writes their replies to
/// `out`, as `serve_alone` does; with `tables` the tables that they leave, as `dump_alone` does.
pub fn serve_bytes<O: Sink>(alloc: Global, tables: bool, bytes: &[u8], out: &mut O) -> Status
    ensures { (callers shards : ℕ) → RunsOver (serving tables callers shards) bytes.now
        (change O.held O.faults out.old out.new) result }
{
    if bytes.len() > MAX_INPUT {
        return Status::Refused(Fault::TooLarge);
    }
    serve_input(alloc, tables, bytes, out)
}
