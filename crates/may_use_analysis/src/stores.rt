// Stores, and symbols carried back over them.

ghost use Rattle.std.specs.Prelude.{◌≡◌, nat_lt};
ghost use Rattle.check_meaning.specs.Code.{expr_term};
ghost use Rattle.may_use_analysis.specs.Steps.{arg_back, argument, back, store_step, symbol_of};
ghost use Rattle.may_use_analysis.specs.Stores.{step_of};

use check_meaning::{CheckedAtom, CheckedCall, CheckedExpr};
use session_values::Value;
use symbolic_ops::{Arg, Symbol};

/// What becomes of a variable at a store: a copy of another one, a constant, or something else.
#[derive(Clone, Copy)]
pub(crate) enum Store {
    Copy { x: u32, y: u32 },
    Constant { x: u32, value: Value },
    Other { x: u32 },
}

/// What a store of this right side is.
pub(crate) fn store_of(x: u32, right: &CheckedExpr) -> Store
    ensures { step_of result ≡ store_step x (expr_term right.now) }
{
    match right {
        CheckedExpr::Leaf(CheckedAtom::Lit(v)) => Store::Constant { x, value: *v },
        CheckedExpr::Leaf(CheckedAtom::Var(y)) => Store::Copy { x, y: *y },
        CheckedExpr::Binary { .. } => Store::Other { x },
    }
}

fn arg_before(store: Store, a: Arg) -> Arg
    ensures { result ≡ arg_back (step_of store) a }
{
    match (store, a) {
        (Store::Copy { x, y }, Arg::Var(z)) if z == x => Arg::Var(y),
        (Store::Constant { x, value }, Arg::Var(z)) if z == x => Arg::Known(value),
        (Store::Other { x }, Arg::Var(z)) if z == x => Arg::Any,
        _ => a,
    }
}

/// The symbol before a store.
pub(crate) fn symbol_before(store: Store, s: &Symbol) -> Symbol
    ensures { result ≡ back (step_of store) s.now }
{
    s.bounds();
    Symbol::new(
        s.kind,
        s.table,
        arg_before(store, s.key()),
        arg_before(store, s.value()),
    )
}

fn argument(has: bool, atom: CheckedAtom) -> Arg
    ensures { result ≡ argument has atom }
{
    match atom {
        _ if !has => Arg::Known(Value::Nil),
        CheckedAtom::Lit(v) => Arg::Known(v),
        CheckedAtom::Var(x) => Arg::Var(x),
    }
}

/// The symbol of an operation.
pub(crate) fn symbol_of(call: &CheckedCall) -> Symbol
    ensures { result ≡ symbol_of call.now }
{
    let arguments = call.kind.arguments();
    Symbol::new(
        call.kind,
        call.table,
        argument(0 < arguments, call.key),
        argument(1 < arguments, call.value),
    )
}
