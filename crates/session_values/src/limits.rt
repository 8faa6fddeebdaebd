// The limits.

/// The bytes of a session file.
pub const MAX_INPUT: usize = 4_194_304;

/// The bytes of a name, and of a symbol without its quote.
pub const MAX_NAME: usize = 64;

/// The blocks inside one another, a handler's own being the first.
pub const MAX_DEPTH: u32 = 16;

/// The parentheses that are open at once in one expression.
pub const MAX_OPEN: u32 = 16;

/// The operator signs of one expression.
pub const MAX_SIGNS: u32 = 64;

/// The tables of a file.
pub const MAX_TABLES: usize = 7;

/// The handlers of a file.
pub const MAX_HANDLERS: usize = 64;

/// The variables of a handler, its parameters among them.
pub const MAX_VARIABLES: usize = 32;

/// The turns of a `repeat`.
pub const MAX_TURNS: u64 = 1_000;

/// The calls that a handler may make, by its text.
pub const MAX_CALLS: u32 = 10_000;

/// The work that a handler may do, by its text.
pub const MAX_WORK: u32 = 100_000;

/// The symbols that may still be called at a point.
pub const MAX_SYMBOLS: u32 = 256;

/// The requests of a session.
pub const MAX_REQUESTS: u32 = 20_000;

/// The calls of all requests of a session, by their handlers' texts.
pub const MAX_SESSION_CALLS: u64 = 200_000;

/// The work of all requests of a session, by their handlers' texts.
pub const MAX_SESSION_WORK: u64 = 10_000_000;

/// The callers that serve a session.
pub const MAX_CALLERS: u32 = 32;

/// The shards of each table.
pub const MAX_SHARDS: u32 = 8;
