// Values in pieces.

ghost use Rattle.std.specs.Prelude.{◌≡◌};
ghost use Rattle.session_values.specs.Sorts.{IsPayload, payload_of, sort_of, value_of};

use crate::value::Value;

/// What sort of value it is. Beside a number of 64 bits, the payload, it makes a value.
#[derive(Clone, Copy, Debug)]
pub(crate) enum Sort {
    /// Nil, with the payload 0.
    Nil,
    /// A number, which is the payload.
    Num,
    /// A symbol, whose place is the payload.
    Sym,
}

impl Value {
    /// Its sort.
    #[inline(always)]
    pub(crate) fn sort(self) -> Sort
        ensures { result ≡ sort_of self }
    {
        match self {
            Value::Nil => Sort::Nil,
            Value::Num(_) => Sort::Num,
            Value::Sym(_) => Sort::Sym,
        }
    }

    /// Its payload.
    #[inline(always)]
    pub(crate) fn payload(self) -> i64
        ensures payload { result ≡ payload_of self }
        ensures canonical { IsPayload (sort_of self) result }
    {
        match self {
            Value::Nil => 0,
            Value::Num(number) => number,
            Value::Sym(place) => i64::from(place),
        }
    }
}

impl Sort {
    /// The value of this sort with this payload.
    #[inline(always)]
    pub(crate) fn value(self, payload: i64) -> Value
        requires { IsPayload self payload }
        ensures { result ≡ value_of self payload }
    {
        match self {
            Sort::Nil => Value::Nil,
            Sort::Num => Value::Num(payload),
            Sort::Sym => Value::Sym(payload as u32),
        }
    }
}
