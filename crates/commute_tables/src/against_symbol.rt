// An operation against a symbol.

ghost use Rattle.std.specs.Prelude.{◌≡◌, ◌==◌, ◌&&◌, ◌||◌, not};
ghost use Rattle.std.specs.Bool.{Decides, MatchBool};
ghost use Rattle.symbolic_ops.specs.Matching.{HasNoVar};
ghost use Rattle.session_values.specs.Kinds.{is_keyed, is_plain, kind_place};
ghost use Rattle.commute_tables.specs.Relation.{commutes_symbol, is_apart, is_same, may_be_number, sums_symbol};
ghost use Rattle.commute_tables.specs.Symbols.{DiffersFromSome};
ghost use Rattle.symbolic_ops.specs.Commuting.{CommutesWith};

use crate::kinds::{both_read, one_home};
use crate::sums::{add_up, is_number, is_zero};
use session_values::{Kind, Op, Value};
use symbolic_ops::{Arg, Symbol};

/// The argument is a known value other than this one.
#[inline(always)]
pub(crate) fn known_apart(v: Value, arg: Arg) -> bool
    ensures { result ≡ is_apart v arg }
{
    match arg {
        Arg::Known(w) => v != w,
        Arg::Var(_) | Arg::Any => false,
    }
}

/// The argument is known to be this value.
#[inline(always)]
pub(crate) fn known_same(v: Value, arg: Arg) -> bool
    ensures { result ≡ is_same v arg }
{
    match arg {
        Arg::Known(w) => v == w,
        Arg::Var(_) | Arg::Any => false,
    }
}

/// The keys are known to differ.
#[inline(always)]
fn keys_known_apart(a: &Op, s: &Symbol) -> bool
    ensures { result ≡ (is_keyed a.now.kind && is_keyed s.now.kind
        && is_apart a.now.key s.now.key) }
{
    a.kind.is_keyed() && s.kind.is_keyed() && known_apart(a.key(), s.key())
}

/// They are one plain change, whatever the key.
#[inline(always)]
fn known_change(a: &Op, s: &Symbol) -> bool
    ensures { result ≡ (is_plain a.now.kind && (kind_place a.now.kind == kind_place s.now.kind)
        && (not (kind_place a.now.kind == 1) || is_same a.now.value s.now.value)) }
{
    a.kind.is_plain()
        && a.kind == s.kind
        && (a.kind != Kind::Put || known_same(a.value(), s.value()))
}

/// The argument may be a number.
#[inline(always)]
pub(crate) fn may_be_number(arg: Arg) -> bool
    ensures { result ≡ may_be_number arg }
{
    match arg {
        Arg::Known(w) => is_number(w),
        Arg::Var(_) | Arg::Any => true,
    }
}

/// They add up, whatever the key.
#[inline(always)]
fn known_sums(a: &Op, s: &Symbol) -> bool
    ensures { result ≡ sums_symbol a.now s.now }
{
    add_up(
        a.kind,
        is_number(a.value()),
        is_zero(a.value()),
        s.kind,
        may_be_number(s.value()),
        known_same(Value::Num(0), s.value()),
    )
}

/// What the relation says.
#[inline(always)]
fn test(a: &Op, s: &Symbol) -> bool
    ensures { result ≡ commutes_symbol a.now s.now }
{
    if a.table != s.table {
        return true;
    }
    if !one_home(a.kind, s.kind) {
        return true;
    }
    if both_read(a.kind, s.kind) {
        return true;
    }
    if keys_known_apart(a, s) {
        return true;
    }
    if known_change(a, s) {
        return true;
    }
    known_sums(a, s)
}

/// Whether the operation commutes with each one that the symbol stands for.
#[inline(always)]
pub fn commute_symbol(a: &Op, s: &Symbol) -> bool
    requires { HasNoVar s.now }
    ensures exact { Decides result (CommutesWith a.now s.now) }
    // Where it doesn't, the symbol stands for an operation with which it doesn't commute.
    ensures told { MatchBool result (CommutesWith a.now s.now) (DiffersFromSome a.now s.now) }
{
    a.bounds();
    s.bounds();
    test(a, s)
}
