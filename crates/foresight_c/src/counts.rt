// What a caller is told that a session holds.

/// What a session holds.
#[repr(C)]
#[derive(Drop)]
pub struct Counts {
    /// How many names it holds: of handlers, tables, variables and symbols together.
    pub names: u32,
    /// How many names it may hold.
    pub most_names: u32,
    /// How many tables it has.
    pub tables: usize,
    /// How many tickets have begun: each request that was served is one.
    pub begun: u64,
    /// How many tickets are open.
    pub open: usize,
    /// The lowest number of an open ticket, and 0 where none is open.
    pub oldest: u64,
    /// How often its names were renewed, each time with other numbers.
    pub generation: u64,
}
