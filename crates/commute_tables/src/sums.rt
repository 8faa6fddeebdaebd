// Bumps, which add up whatever their order.

ghost use Rattle.std.specs.Prelude.{◌≡◌};
ghost use Rattle.commute_tables.specs.Relation.{add_up, is_bump, is_number, is_put, is_zero};

use session_values::{Kind, Value};

/// It is a number.
#[inline(always)]
pub(crate) fn is_number(v: Value) -> bool
    ensures { result ≡ is_number v }
{
    match v {
        Value::Num(_) => true,
        Value::Nil | Value::Sym(_) => false,
    }
}

/// It is 0.
#[inline(always)]
pub(crate) fn is_zero(v: Value) -> bool
    ensures { result ≡ is_zero v }
{
    Value::Num(0) == v
}

#[inline(always)]
fn is_bump(kind: Kind) -> bool
    ensures { result ≡ is_bump kind }
{
    kind == Kind::Bump
}

#[inline(always)]
fn is_put(kind: Kind) -> bool
    ensures { result ≡ is_put kind }
{
    kind == Kind::Put
}

/// Two kinds, each with whether its value is a number and whether it is 0, give the same in both
/// orders because one of them is a bump.
#[inline(always)]
pub(crate) fn add_up(
    x: Kind,
    number_x: bool,
    zero_x: bool,
    y: Kind,
    number_y: bool,
    zero_y: bool,
) -> bool
    ensures { result ≡ add_up x number_x zero_x y number_y zero_y }
{
    is_bump(x) && is_bump(y)
        || is_bump(x) && !number_x
        || is_bump(y) && !number_y
        || is_bump(x) && is_put(y) && (zero_x || !number_y)
        || is_put(x) && is_bump(y) && (!number_x || zero_y)
}
