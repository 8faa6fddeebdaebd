// Reading what C gives.

ghost use Rattle.std.specs.Prelude.{◌≡◌, ◌≢◌, ◌<◌, ◌≤◌, ◌⊎◌, MatchOption};
ghost use Rattle.std.specs.Bool.{Decides};
ghost use Rattle.session_values.specs.declared.value.Value.TheVariants.{Nil};
ghost use Rattle.session_values.specs.Kinds.{arguments, kind_place};
ghost use Rattle.symbolic_ops.specs.declared.arg.Arg.TheVariants.{Known};
ghost use Rattle.foresight_c.specs.Reading.{IsArgOf, IsOperationOf, IsSymbolOf, IsUnread, IsValueOf};

use crate::values::{COperation, CValue};
use session_values::{Kind, Op, Value};
use symbolic_ops::{Arg, Symbol};

// The kind of this number.
fn kind_at(number: u8) -> Option<Kind>
    ensures { MatchOption result (11 ≤ number) (λ k. kind_place k ≡ number) }
{
    match number {
        0 => Some(Kind::Get),
        1 => Some(Kind::Put),
        2 => Some(Kind::Swap),
        3 => Some(Kind::Del),
        4 => Some(Kind::Size),
        5 => Some(Kind::Bump),
        6 => Some(Kind::Has),
        7 => Some(Kind::Add),
        8 => Some(Kind::Mark),
        9 => Some(Kind::Drop),
        10 => Some(Kind::Count),
        _ => None,
    }
}

// The value that C gives.
fn value_of(given: &CValue) -> Option<Value>
    ensures { MatchOption result (3 ≤ given.now.sort) (IsValueOf given.now) }
{
    match given.sort {
        0 => Some(Value::Nil),
        1 => Some(Value::Num(given.number)),
        2 => Some(Value::Sym(given.name)),
        _ => None,
    }
}

// The argument that C gives.
fn arg_of(given: &CValue) -> Option<Arg>
    ensures { MatchOption result (4 ≤ given.now.sort) (IsArgOf given.now) }
{
    match given.sort {
        0 => Some(Arg::Known(Value::Nil)),
        1 => Some(Arg::Known(Value::Num(given.number))),
        2 => Some(Arg::Known(Value::Sym(given.name))),
        3 => Some(Arg::Any),
        _ => None,
    }
}

// Whether a kind has no use for a field of these that isn't nil.
fn has_unused(kind: Kind, given: &COperation) -> bool
    ensures { Decides result (((arguments kind < 1) × (given.now.key.sort ≢ 0))
        ⊎ ((arguments kind < 2) × (given.now.value.sort ≢ 0))) }
{
    if kind.arguments() < 1 && given.key.sort != 0 {
        return true;
    }
    kind.arguments() < 2 && given.value.sort != 0
}

/// The operation that C gives.
pub(crate) fn op_of(given: &COperation) -> Option<Op>
    ensures { MatchOption result (IsUnread 3 given.now) (IsOperationOf given.now) }
{
    let Some(kind) = kind_at(given.kind) else {
        return None;
    };
    let Some(key) = value_of(&given.key) else {
        return None;
    };
    let Some(value) = value_of(&given.value) else {
        return None;
    };
    if has_unused(kind, given) {
        return None;
    }
    Some(Op::new(kind, given.table, key, value))
}

/// The symbol that C gives.
pub(crate) fn symbol_of(given: &COperation) -> Option<Symbol>
    ensures { MatchOption result (IsUnread 4 given.now) (IsSymbolOf given.now) }
{
    let Some(kind) = kind_at(given.kind) else {
        return None;
    };
    let Some(key) = arg_of(&given.key) else {
        return None;
    };
    let Some(value) = arg_of(&given.value) else {
        return None;
    };
    if has_unused(kind, given) {
        return None;
    }
    Some(Symbol::new(kind, given.table, key, value))
}
