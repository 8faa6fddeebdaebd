// A range of number keys, and a span of operations over one.

use session_values::Kind;
use symbolic_ops::Arg;

/// The number keys from `low` to `high`, both counted.
#[derive(Clone, Copy)]
pub(crate) struct KeyRange {
    pub(crate) low: i64,
    pub(crate) high: i64,
}

/// What a span stands for: the operations of one kind on one table with such a key and value.
#[derive(Clone, Copy)]
pub(crate) struct KeySpan {
    pub(crate) kind: Kind,
    pub(crate) table: u32,
    pub(crate) keys: KeyRange,
    pub(crate) value: Arg,
}
