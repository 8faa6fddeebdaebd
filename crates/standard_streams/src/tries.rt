// How often a call is tried.

/// The most tries of a read or a write that signals interrupt, before it counts as a fault.
pub(crate) const TRIES: u32 = 1000;
