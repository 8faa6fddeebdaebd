// What a bump leaves a key bound to.

ghost use Rattle.std.specs.Prelude.{◌≡◌};
ghost use Rattle.session_values.specs.Tables.{bumped};

use crate::value::Value;

/// What a key is bound to after a bump by this value, if it was bound to `old` before: a number is
/// added to a number, in the range of i64, and is bound where the key was unbound.
#[inline(always)]
#[tactic(auto, using(std::proofs::lemmas::Int::wraps))]
pub fn bumped(by: Value, old: Option<Value>) -> Option<Value>
    ensures { result ≡ bumped by old }
{
    match by {
        Value::Num(d) => match old {
            None => Some(Value::Num(d)),
            Some(Value::Num(n)) => Some(Value::Num(n.wrapping_add(d))),
            Some(Value::Nil) => Some(Value::Nil),
            Some(Value::Sym(place)) => Some(Value::Sym(place)),
        },
        Value::Nil | Value::Sym(_) => old,
    }
}
