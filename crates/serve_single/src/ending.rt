// How a run ends, and the line that tells it.

ghost use Rattle.std.specs.Prelude.{◌≡◌};
ghost use Rattle.byte_ends.specs.Changes.{change};
ghost use Rattle.serve_single.specs.Runs.{Tells};
ghost use Rattle.serve_single.specs.Serving.{status_of};

use byte_ends::{Sink, write_all};
use serve_faults::{Status, message_of};
use serve_reading::LoadError;

/// How a run ends for which there is nothing to write.
pub fn ended(e: LoadError) -> Status
    ensures { result ≡ status_of e }
{
    match e {
        LoadError::Refused(fault) => Status::Refused(fault),
        LoadError::NoMemory => Status::NoMemory,
    }
}

/// Writes the line that tells how a run ended, as far as `err` takes it.
pub fn tell<E: Sink>(status: &Status, err: &mut E)
    ensures { Tells (change E.held E.faults err.old err.new) status.now }
{
    let _told = write_all(err, message_of(status).as_str().as_bytes());
}
