// All bytes of a source.

ghost use Rattle.std.specs.Prelude.{◌≡◌, ◌+◌, ◌<◌, ◌≤◌, length, vec_len, IfOk, IfErr, OnOk, IfSome, IsErrOf};
ghost use Rattle.session_values.specs.Limits.{max_input};
ghost use Rattle.byte_ends.specs.Ends.{UnreadCounts, IsAtEnd, Consumed, ConsumedAtMost};

use crate::source::{Got, Source};
use session_values::MAX_INPUT;
use std::alloc::Global;
use thiserror::Error;

/// Why a source wasn't read to its end.
#[derive(Clone, Copy, Debug, PartialEq, Eq, Error)]
pub enum Unread {
    /// It has more bytes than may be read.
    #[error("too many bytes")]
    TooLarge,
    /// A read failed.
    #[error("a read failed")]
    Failed,
    #[error("no memory")]
    NoMemory,
}

/// All that the source has, up to its end, which is at most so many bytes. It asks for no byte
/// behind the first one that is too many.
pub fn read_up_to<I: Source>(alloc: Global, source: &mut I, most: usize) -> Result<Vec<u8>, Unread>
    requires { most < 4294967296 }
    // These are all the bytes that were left, and the source is at its end.
    ensures read { IfOk result (λ bytes. IfSome (I.left source.old) (λ all. bytes.items ≡ all)) }
    ensures bound { IfOk result (λ bytes. vec_len bytes ≤ most) }
    ensures end { OnOk result (IsAtEnd (I.left source.old) (I.left source.new)) }
    // There are more than the bound. The first ones up to the bound and one more are gone.
    ensures large { IsErrOf result Unread.TooLarge
        → IfSome (I.left source.old) (λ all. most < length all) }
    ensures gone { IsErrOf result Unread.TooLarge
        → Consumed (I.left source.old) (I.left source.new) (most + 1) }
    // No read failed, or one did: where the answer says so.
    ensures well { OnOk result (I.faults source.new ≡ I.faults source.old) }
    ensures failed { IfErr result (UnreadCounts (I.faults source.old) (I.faults source.new)) }
    // What was read is gone, and no more: at a fault no more than the bound, and never more than
    // one byte above it.
    ensures broken { IsErrOf result Unread.Failed
        → ConsumedAtMost (I.left source.old) (I.left source.new) most }
    ensures lost { ConsumedAtMost (I.left source.old) (I.left source.new) (most + 1) }
{
    let mut bytes = Vec::new(alloc);
    let mut buf = [0u8; 16384];
    'pieces: while bytes.len() <= most {
        let left = (most + 1 - bytes.len()).min(buf.len());
        match source.read(&mut buf[..left]) {
            Got::Failed => return Err(Unread::Failed),
            Got::End => return Ok(bytes),
            Got::Bytes(n) => {
                if bytes.extend_from_slice(&buf[..n as usize]).is_err() {
                    return Err(Unread::NoMemory);
                }
            }
        }
    }
    Err(Unread::TooLarge)
}

/// All that the source has, up to its end, which is at most `MAX_INPUT` bytes. It asks for no byte
/// behind the first one that is too many.
pub fn read_all<I: Source>(alloc: Global, source: &mut I) -> Result<Vec<u8>, Unread>
    // These are all the bytes that were left, and the source is at its end.
    ensures read { IfOk result (λ bytes. IfSome (I.left source.old) (λ all. bytes.items ≡ all)) }
    ensures bound { IfOk result (λ bytes. vec_len bytes ≤ max_input) }
    ensures end { OnOk result (IsAtEnd (I.left source.old) (I.left source.new)) }
    // There are more than the bound. The first ones up to the bound and one more are gone.
    ensures large { IsErrOf result Unread.TooLarge
        → IfSome (I.left source.old) (λ all. max_input < length all) }
    ensures gone { IsErrOf result Unread.TooLarge
        → Consumed (I.left source.old) (I.left source.new) (max_input + 1) }
    // No read failed, or one did: where the answer says so.
    ensures well { OnOk result (I.faults source.new ≡ I.faults source.old) }
    ensures failed { IfErr result (UnreadCounts (I.faults source.old) (I.faults source.new)) }
    // What was read is gone, and no more: at a fault no more than the bound, and never more than
    // one byte above it.
    ensures broken { IsErrOf result Unread.Failed
        → ConsumedAtMost (I.left source.old) (I.left source.new) max_input }
    ensures lost { ConsumedAtMost (I.left source.old) (I.left source.new) (max_input + 1) }
{
    read_up_to(alloc, source, MAX_INPUT)
}
