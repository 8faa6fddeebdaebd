// All of a source.

ghost use Rattle.std.specs.Prelude.{◌<◌, IfOk, IfErr};
ghost use Rattle.byte_ends.specs.Changes.{change};
ghost use Rattle.serve_faults.specs.Ways.{HasRead, StoppedAs};

use byte_ends::{Source, Unread, read_up_to};
use serve_faults::{Fault, Status};
use std::alloc::Global;

/// All that the source has, up to so many bytes, or how a run ends that can't read it.
pub fn read_at_most<I: Source>(
    alloc: Global,
    source: &mut I,
    most: usize,
) -> Result<Vec<u8>, Status>
    requires { most < 4294967296 }
    ensures read { IfOk result
        (λ bytes. HasRead most (change I.left I.faults source.old source.new) bytes.items) }
    ensures stopped { IfErr result
        (StoppedAs most (change I.left I.faults source.old source.new)) }
{
    match read_up_to(alloc, source, most) {
        Ok(bytes) => Ok(bytes),
        Err(Unread::TooLarge) => Err(Status::Refused(Fault::TooLarge)),
        Err(Unread::Failed) => Err(Status::ReadFault),
        Err(Unread::NoMemory) => Err(Status::NoMemory),
    }
}
