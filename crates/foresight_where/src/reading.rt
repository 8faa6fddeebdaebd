// Reading the input and the file.

ghost use Rattle.std.specs.Prelude.{IfOk, IfErr};
ghost use Rattle.foresight_where.specs.Reading.{HasRead, StoppedAs, StopsAs};

use crate::ending::Ending;
use byte_ends::{Source, Unread, read_up_to};
use standard_streams::{Opened, OpensFiles};
use std::alloc::Global;

/// The most bytes of an input or a file.
const MOST: usize = 67108864;

/// All that the source has, or how a run ends that can't read it.
pub(crate) fn read_bytes<I: Source>(alloc: Global, source: &mut I) -> Result<Vec<u8>, Ending>
    ensures read { IfOk result (λ bytes. HasRead (I.left source.old) (I.left source.new)
        (I.faults source.old) (I.faults source.new) bytes.items) }
    ensures stopped { IfErr result (StoppedAs (I.left source.old) (I.left source.new)
        (I.faults source.old) (I.faults source.new)) }
{
    match read_up_to(alloc, source, MOST) {
        Ok(bytes) => Ok(bytes),
        Err(Unread::TooLarge) => Err(Ending::TooLarge),
        Err(Unread::Failed) => Err(Ending::ReadFault),
        Err(Unread::NoMemory) => Err(Ending::NoMemory),
    }
}

/// All bytes of the file with this name, or how a run ends that can't read it.
pub(crate) fn read_file<F: OpensFiles>(
    alloc: Global,
    name: &str,
    files: &mut F,
) -> Result<Vec<u8>, Ending>
    ensures read { IfOk result (λ bytes. HasRead (F.bytes_of files.old name.now)
        (F.left files.new) (F.faults files.old) (F.faults files.new) bytes.items) }
    ensures stopped { IfErr result (StopsAs (F.bytes_of files.old name.now)
        (F.faults files.old) (F.faults files.new)) }
{
    match files.open(name) {
        Opened::Open => read_bytes(alloc, files),
        Opened::Failed => Err(Ending::ReadFault),
        Opened::NoMemory => Err(Ending::NoMemory),
    }
}
