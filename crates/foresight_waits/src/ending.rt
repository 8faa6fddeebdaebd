// The line that tells how a run ended.

ghost use Rattle.std.specs.Prelude.{◌≡◌};
ghost use Rattle.byte_ends.specs.Changes.{change};
ghost use Rattle.foresight_waits.specs.Endings as spec;

use byte_ends::{ShortText, Sink, short_text, write_all};
use serve_faults::{Status, message_of};

/// The line that tells how a run ended; none if all is written.
#[tactic(auto, using(crate::proofs::EndLemmas::other_line))]
fn line_of(status: &Status) -> ShortText
    ensures { result.bytes ≡ spec.line_of status.now }
{
    match status {
        Status::Usage => {
            short_text("usage: foresight_waits [--trace] [--json] [FILE] | --version\n")
        }
        _ => message_of(status),
    }
}

/// Writes that line, as far as `err` takes it.
pub(crate) fn tell<E: Sink>(status: &Status, err: &mut E)
    ensures { spec.EndsWithLine (change E.held E.faults err.old err.new) status.now }
{
    let _told = write_all(err, line_of(status).as_str().as_bytes());
}

/// Writes all bytes, and tells how that ended.
pub(crate) fn written<O: Sink>(out: &mut O, bytes: &[u8]) -> Status
    ensures { spec.Writes bytes.now (change O.held O.faults out.old out.new) result }
{
    if write_all(out, bytes) {
        Status::Fine
    } else {
        Status::WriteFault
    }
}
