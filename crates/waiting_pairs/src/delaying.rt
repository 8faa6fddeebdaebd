// A symbol of what may still come against an operation.

ghost use Rattle.std.specs.Prelude.{◌≡◌, ◌||◌, true};
ghost use Rattle.std.specs.Bool.{Decides};
ghost use Rattle.session_values.specs.Values.{IsValue};
ghost use Rattle.symbolic_ops.specs.Matching.{HasNoVar};
ghost use Rattle.waiting_pairs.specs.Delays.{Delays};
ghost use Rattle.waiting_pairs.specs.Opened as spec;

use crate::sought::known_or_zero;
use commute_tables::commute_symbols;
use session_values::Value;
use symbolic_ops::{Arg, Symbol};

/// Whether both are one variable.
fn are_tied(a: Arg, b: Arg) -> bool
    ensures { result ≡ spec.are_tied a b }
{
    match (a, b) {
        (Arg::Var(x), Arg::Var(y)) => x == y,
        (Arg::Var(_), Arg::Known(_) | Arg::Any) => false,
        (Arg::Known(_) | Arg::Any, _) => false,
    }
}

/// Whether key and value are one variable.
fn is_tied(s: &Symbol) -> bool
    ensures { result ≡ spec.is_tied s.now }
{
    are_tied(s.key(), s.value())
}

/// The argument, where a variable may hold any value.
fn opened_arg(arg: Arg) -> Arg
    ensures { result ≡ spec.opened_arg arg }
{
    match arg {
        Arg::Known(v) => Arg::Known(v),
        Arg::Var(_) | Arg::Any => Arg::Any,
    }
}

/// The symbol, where each variable may hold any value; one that is both key and value holds this.
#[tactic(auto, using(crate::proofs::Opening::opened_known))]
fn opened(s: &Symbol, value: Value) -> Symbol
    ensures opened { result ≡ spec.opened s.now value }
    ensures known { HasNoVar result }
{
    s.bounds();
    if is_tied(s) {
        Symbol::new(s.kind, s.table, Arg::Known(value), Arg::Known(value))
    } else {
        Symbol::new(s.kind, s.table, opened_arg(s.key()), opened_arg(s.value()))
    }
}

/// Whether the symbols stand for operations that don't commute, where a variable that stands twice
/// in one of them holds this value.
#[tactic(auto, using(crate::proofs::Deciding::opened_tells))]
fn differ_with(s: &Symbol, o: &Symbol, value: Value) -> bool
    ensures { spec.Tells s.now o.now value result }
{
    !commute_symbols(&opened(s, value), &opened(o, value))
}

/// Whether one of them has one variable twice.
fn has_tied(s: &Symbol, o: &Symbol) -> bool
    ensures { result ≡ (spec.is_tied s.now || spec.is_tied o.now) }
{
    is_tied(s) || is_tied(o)
}

/// Whether one of these holds.
fn is_any(a: bool, b: bool, c: bool, d: bool) -> bool
    ensures { result ≡ (a || (b || (c || d))) }
{
    a || (b || (c || d))
}

/// Whether both are known, and not the same.
fn are_others(a: Arg, b: Arg) -> bool
    ensures { Decides result (spec.AreOthers a b) }
{
    match (a, b) {
        (Arg::Known(v), Arg::Known(w)) => v != w,
        (Arg::Known(_), Arg::Var(_) | Arg::Any) => false,
        (Arg::Var(_) | Arg::Any, _) => false,
    }
}

/// Whether both are of keys, and the keys are known and not the same.
fn have_other_keys(s: &Symbol, o: &Symbol) -> bool
    ensures { result ≡ true → spec.HaveOtherKeys s.now o.now }
{
    s.kind.is_keyed() && o.kind.is_keyed() && are_others(s.key(), o.key())
}

/// Whether for some values of the variables of both, which are two handlers', the symbol and the
/// operation stand for operations that don't commute.
#[tactic(auto, using(crate::proofs::Apart::of_two_tables, crate::proofs::Apart::of_two_keys))]
pub fn delays(s: &Symbol, o: &Symbol) -> bool
    ensures { Decides result (Delays s.now o.now) }
{
    if s.table != o.table || have_other_keys(s, o) {
        return false;
    }
    delays_on_one(s, o)
}

/// The same, of symbols that may well be of one table and one key.
fn delays_on_one(s: &Symbol, o: &Symbol) -> bool
    ensures { Decides result (Delays s.now o.now) }
{
    s.bounds();
    o.bounds();
    let zero = differ_with(s, o, Value::Num(0));
    if has_tied(s, o) {
        let one = differ_with(s, o, Value::Num(1));
        let own = differ_with(s, o, known_or_zero(s.key()));
        let other = differ_with(s, o, known_or_zero(o.key()));
        is_any(zero, one, own, other)
    } else {
        zero
    }
}
