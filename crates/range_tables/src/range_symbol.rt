// Symbols that hold key ranges.

ghost use Rattle.symbolic_ops.specs.Symbol.{IsHeldArg};
ghost use Rattle.range_tables.specs.Symbols.{IsHeldRangeSymbol};

use session_values::{Kind, Value};
use symbolic_ops::{Arg, Symbol};

/// Operations that may come: those that a symbol stands for, or those in a range.
#[derive(Clone, Copy, Debug, PartialEq, Eq)]
pub enum RangeSymbol {
    /// Those that a symbol stands for.
    Plain(Symbol),
    /// Those of one kind on one table whose key is a number from `low` to `high` and whose value
    /// agrees with `value`. A kind without a value has nil in its place.
    Span {
        kind: Kind,
        table: u32,
        low: i64,
        high: i64,
        value: Arg,
    },
    /// The counts of one table whose range lies within `low` to `high`.
    Within {
        table: u32,
        low: i64,
        high: i64,
    },
}

/// The bounds of an argument that is at hand.
#[inline(always)]
fn arg_bounds(arg: Arg)
    ensures { IsHeldArg arg }
{
    match arg {
        Arg::Known(v) => v.bounds(),
        Arg::Var(_) => {}
        Arg::Any => {}
    }
}

impl RangeSymbol {
    /// The bounds of a symbol that is at hand.
    #[inline(always)]
    pub fn bounds(&self)
        ensures { IsHeldRangeSymbol self.now }
    {
        match self {
            RangeSymbol::Plain(s) => s.bounds(),
            RangeSymbol::Span {
                kind: _,
                table: _,
                low,
                high,
                value,
            } => {
                Value::Num(*low).bounds();
                Value::Num(*high).bounds();
                arg_bounds(*value);
            }
            RangeSymbol::Within {
                table: _,
                low,
                high,
            } => {
                Value::Num(*low).bounds();
                Value::Num(*high).bounds();
            }
        }
    }
}
