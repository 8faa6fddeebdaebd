// Arguments of symbols.

ghost use Rattle.std.specs.Bool.{Decides};
ghost use Rattle.symbolic_ops.specs.Symbol.{IsHeldArg};
ghost use Rattle.symbolic_ops.specs.Matching.{Agrees, ArgBelow, IsNoVar};

use session_values::Value;

/// What is known of an argument of an operation.
#[derive(Clone, Copy, Debug, PartialEq, Eq, PartialOrd, Ord)]
pub enum Arg {
    /// It is this value.
    Known(Value),
    /// It is what this variable of a handler holds.
    Var(u32),
    /// It may be any value.
    Any,
}

impl Arg {
    /// The bounds of the value that it knows.
    #[inline(always)]
    pub(crate) fn bounds(self)
        ensures { IsHeldArg self }
    {
        match self {
            Arg::Known(v) => v.bounds(),
            Arg::Var(_) => {}
            Arg::Any => {}
        }
    }

    /// Whether it is no variable.
    #[inline(always)]
    pub(crate) fn is_no_var(self) -> bool
        ensures { Decides result (IsNoVar self) }
    {
        match self {
            Arg::Known(_) | Arg::Any => true,
            Arg::Var(_) => false,
        }
    }

    /// Whether it stands for this value. A variable stands for none.
    #[inline(always)]
    pub(crate) fn agrees(self, value: Value) -> bool
        ensures { Decides result (Agrees self value) }
    {
        match self {
            Arg::Known(known) => known == value,
            Arg::Var(_) => false,
            Arg::Any => true,
        }
    }

    /// Whether the other one stands for each value that this one stands for.
    #[inline(always)]
    pub(crate) fn is_below(self, other: Arg) -> bool
        ensures { Decides result (ArgBelow self other) }
    {
        match (self, other) {
            (_, Arg::Any) => true,
            (Arg::Known(v), Arg::Known(w)) => v == w,
            (Arg::Var(_) | Arg::Any, Arg::Known(_)) => false,
            (_, Arg::Var(_)) => false,
        }
    }
}
