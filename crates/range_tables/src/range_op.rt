// Operations with counts of key ranges.

ghost use Rattle.range_tables.specs.Ranges.{IsHeldRange};

use session_values::{Op, Value};

/// An operation on tables, or a count of the number keys in a range.
#[derive(Clone, Copy, Debug, PartialEq, Eq)]
pub enum RangeOp {
    /// An operation on one table.
    Plain(Op),
    /// The number of bound keys that are numbers from `low` to `high`, both counted. It changes
    /// nothing. Where `low` is above `high` it is 0.
    Between { table: u32, low: i64, high: i64 },
}

impl RangeOp {
    /// The bounds of an operation that is at hand.
    #[inline(always)]
    pub fn bounds(&self)
        ensures { IsHeldRange self.now }
    {
        match self {
            RangeOp::Plain(op) => op.bounds(),
            RangeOp::Between {
                table: _,
                low,
                high,
            } => {
                Value::Num(*low).bounds();
                Value::Num(*high).bounds();
            }
        }
    }
}
