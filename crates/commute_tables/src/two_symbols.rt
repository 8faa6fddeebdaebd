// Two symbols.

ghost use Rattle.std.specs.Prelude.{◌≡◌, ◌==◌, ◌&&◌, ◌||◌, not};
ghost use Rattle.std.specs.Bool.{Decides, MatchBool};
ghost use Rattle.symbolic_ops.specs.Matching.{HasNoVar};
ghost use Rattle.session_values.specs.Kinds.{is_keyed, is_plain, kind_place};
ghost use Rattle.commute_tables.specs.Relation.{are_apart, are_same, commutes_symbols, sums_symbols};
ghost use Rattle.commute_tables.specs.Symbols.{SymbolsDiffer};
ghost use Rattle.symbolic_ops.specs.Commuting.{SymbolsCommute};

use crate::against_symbol::{known_apart, known_same, may_be_number};
use crate::kinds::{both_read, one_home};
use crate::sums::add_up;
use session_values::{Kind, Value};
use symbolic_ops::{Arg, Symbol};

/// Both arguments are known, and differ.
#[inline(always)]
fn both_known_apart(a: Arg, b: Arg) -> bool
    ensures { result ≡ are_apart a b }
{
    match a {
        Arg::Known(v) => known_apart(v, b),
        Arg::Var(_) | Arg::Any => false,
    }
}

/// Both arguments are known to be one value.
#[inline(always)]
fn both_known_same(a: Arg, b: Arg) -> bool
    ensures { result ≡ are_same a b }
{
    match a {
        Arg::Known(v) => known_same(v, b),
        Arg::Var(_) | Arg::Any => false,
    }
}

/// The keys are known to differ.
#[inline(always)]
fn keys_known_apart(a: &Symbol, b: &Symbol) -> bool
    ensures { result ≡ (is_keyed a.now.kind && is_keyed b.now.kind
        && are_apart a.now.key b.now.key) }
{
    a.kind.is_keyed() && b.kind.is_keyed() && both_known_apart(a.key(), b.key())
}

/// They are one plain change, whatever the keys.
#[inline(always)]
fn known_change(a: &Symbol, b: &Symbol) -> bool
    ensures { result ≡ (is_plain a.now.kind && (kind_place a.now.kind == kind_place b.now.kind)
        && (not (kind_place a.now.kind == 1) || are_same a.now.value b.now.value)) }
{
    a.kind.is_plain()
        && a.kind == b.kind
        && (a.kind != Kind::Put || both_known_same(a.value(), b.value()))
}

/// They add up, whatever the keys.
#[inline(always)]
fn known_sums(a: &Symbol, b: &Symbol) -> bool
    ensures { result ≡ sums_symbols a.now b.now }
{
    add_up(
        a.kind,
        may_be_number(a.value()),
        known_same(Value::Num(0), a.value()),
        b.kind,
        may_be_number(b.value()),
        known_same(Value::Num(0), b.value()),
    )
}

/// What the relation says.
#[inline(always)]
fn test(a: &Symbol, b: &Symbol) -> bool
    ensures { result ≡ commutes_symbols a.now b.now }
{
    if a.table != b.table {
        return true;
    }
    if !one_home(a.kind, b.kind) {
        return true;
    }
    if both_read(a.kind, b.kind) {
        return true;
    }
    if keys_known_apart(a, b) {
        return true;
    }
    if known_change(a, b) {
        return true;
    }
    known_sums(a, b)
}

/// Whether each operation that the one symbol stands for commutes with each one that the other
/// stands for.
#[inline(always)]
pub fn commute_symbols(a: &Symbol, b: &Symbol) -> bool
    requires first { HasNoVar a.now }
    requires second { HasNoVar b.now }
    ensures exact { Decides result (SymbolsCommute a.now b.now) }
    // Where it doesn't hold, they stand for two operations that don't commute.
    ensures told { MatchBool result (SymbolsCommute a.now b.now) (SymbolsDiffer a.now b.now) }
{
    a.bounds();
    b.bounds();
    test(a, b)
}
