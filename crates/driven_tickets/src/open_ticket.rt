// Open tickets.

use symbolic_ops::Foresight;

/// A ticket that has begun and not ended.
#[derive(Drop)]
pub(crate) struct OpenTicket {
    /// Its number.
    pub(crate) ticket: u64,
    /// What it may still call.
    pub(crate) declared: Foresight,
}
