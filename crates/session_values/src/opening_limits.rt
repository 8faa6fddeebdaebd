// The limits.

/// The lines of a table part.
pub const MAX_TABLE_LINES: u32 = 100_000;

/// The entries of all opening tables of a session.
pub const MAX_OPENING: u32 = 1_000_000;
