// What waits to be written.

use byte_ends::WriteBuffer;
use reply_sheet::Pending;

/// The replies that wait for their turn, and room for lines.
#[derive(Drop)]
pub(crate) struct Sheet {
    pub(crate) pending: Pending,
    pub(crate) buffer: WriteBuffer,
    /// Whether writing has failed.
    pub(crate) failed: bool,
    /// Whether there is one caller, to whom nobody hands a reply.
    pub(crate) alone: bool,
}
