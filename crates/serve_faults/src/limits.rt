// The limit of an input that ends in a trace.

/// The most bytes of a session file that ends in a trace.
pub const MAX_AUDIT_INPUT: usize = 67_108_864;
