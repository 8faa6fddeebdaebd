// Arguments in pieces.

ghost use Rattle.std.specs.Prelude.{◌≡◌};
ghost use Rattle.symbolic_ops.specs.ArgSorts.{IsArgPayload, arg_of, arg_payload_of, arg_sort_of};

use crate::arg::Arg;
use session_values::Value;

/// What sort of argument it is. Beside a number of 64 bits, the payload, it makes an argument.
#[derive(Clone, Copy, Debug)]
pub(crate) enum ArgSort {
    /// Known to be nil, with the payload 0.
    Nil,
    /// Known to be a number, which is the payload.
    Num,
    /// Known to be a symbol, whose place is the payload.
    Sym,
    /// A variable, whose number is the payload.
    Var,
    /// Any, with the payload 0.
    Any,
}

impl Arg {
    /// Its sort.
    #[inline(always)]
    pub(crate) fn sort(self) -> ArgSort
        ensures { result ≡ arg_sort_of self }
    {
        match self {
            Arg::Known(Value::Nil) => ArgSort::Nil,
            Arg::Known(Value::Num(_)) => ArgSort::Num,
            Arg::Known(Value::Sym(_)) => ArgSort::Sym,
            Arg::Var(_) => ArgSort::Var,
            Arg::Any => ArgSort::Any,
        }
    }

    /// Its payload.
    #[inline(always)]
    pub(crate) fn payload(self) -> i64
        ensures payload { result ≡ arg_payload_of self }
        ensures canonical { IsArgPayload (arg_sort_of self) result }
    {
        match self {
            Arg::Known(Value::Nil) => 0,
            Arg::Known(Value::Num(number)) => number,
            Arg::Known(Value::Sym(place)) => i64::from(place),
            Arg::Var(variable) => i64::from(variable),
            Arg::Any => 0,
        }
    }
}

impl ArgSort {
    /// The argument of this sort with this payload.
    #[inline(always)]
    pub(crate) fn arg(self, payload: i64) -> Arg
        requires { IsArgPayload self payload }
        ensures { result ≡ arg_of self payload }
    {
        match self {
            ArgSort::Nil => Arg::Known(Value::Nil),
            ArgSort::Num => Arg::Known(Value::Num(payload)),
            ArgSort::Sym => Arg::Known(Value::Sym(payload as u32)),
            ArgSort::Var => Arg::Var(payload as u32),
            ArgSort::Any => Arg::Any,
        }
    }
}
