// Symbols that a script declares at a site.

ghost use Rattle.std.specs.Prelude.{◌≡◌, MatchOption, length, map};
ghost use Rattle.std.specs.List.{AllByRecursion};
ghost use Rattle.symbolic_ops.specs.Instantiate.{ArgWithin, IsWithin, arg_in, symbol_in};
ghost use Rattle.symbolic_ops.specs.Matching.{HasNoVar};
ghost use Rattle.symbolic_ops.specs.Commuting.{CommutesWith};
ghost use Rattle.admission_book.specs.Book.{IsFirstAgainst};

use commute_tables::commute_symbol;
use session_values::{Op, Value};
use symbolic_ops::{Arg, Symbol};

/// The argument, where its variable has one of these values.
#[inline(always)]
fn known(arg: Arg, values: &[Value]) -> Arg
    requires { ArgWithin (length values.now) arg }
    ensures { result ≡ arg_in values.now arg }
{
    match arg {
        Arg::Var(x) => Arg::Known(values[x as usize]),
        Arg::Known(v) => Arg::Known(v),
        Arg::Any => Arg::Any,
    }
}

/// The symbol, where its variables have these values.
#[inline(always)]
fn known_symbol(s: &Symbol, values: &[Value]) -> Symbol
    requires { IsWithin (length values.now) s.now }
    ensures value { result ≡ symbol_in values.now s.now }
    ensures known { HasNoVar result }
{
    s.bounds();
    Symbol::new(
        s.kind,
        s.table,
        known(s.key(), values),
        known(s.value(), values),
    )
}

/// The symbol, where its variables have these values, unless the operation commutes with it. One of
/// another table isn't made.
#[inline(always)]
fn against(op: &Op, s: &Symbol, values: &[Value]) -> Option<Symbol>
    requires { IsWithin (length values.now) s.now }
    ensures { MatchOption result (CommutesWith op.now (symbol_in values.now s.now))
        (λ y. (y ≡ symbol_in values.now s.now) × (CommutesWith op.now y → ⊥)) }
{
    op.bounds();
    if s.table != op.table {
        return None;
    }
    let told = known_symbol(s, values);
    if commute_symbol(op, &told) {
        None
    } else {
        Some(told)
    }
}

/// The first of the symbols, where their variables have these values, with which the operation
/// doesn't commute. They are made one at a time.
pub(crate) fn first_at_site(op: &Op, symbols: &[Symbol], values: &[Value]) -> Option<Symbol>
    requires { AllByRecursion (λ s. IsWithin (length values.now) s) symbols.now }
    ensures { MatchOption result
        (AllByRecursion (λ y. CommutesWith op.now y) (map (symbol_in values.now) symbols.now))
        (λ y. IsFirstAgainst op.now (map (symbol_in values.now) symbols.now) y) }
{
    for s in symbols {
        if let Some(told) = against(op, s, values) {
            return Some(told);
        }
    }
    None
}
