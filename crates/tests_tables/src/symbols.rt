// Symbols and foresights on the worked rows.

ghost use Rattle.std.specs.Prelude.{◌≡◌, IfOk, length};

use session_values::{Kind, NoMemory, Op, Value};
use std::alloc::Global;
use std::process::Abort;
use symbolic_ops::{Arg, Foresight, Symbol, covered, instantiate, matches};

const NIL: Arg = Arg::Known(Value::Nil);

const ONE: Arg = Arg::Known(Value::Num(1));

const FIVE: Arg = Arg::Known(Value::Num(5));

fn get(table: u32, key: Arg) -> Symbol {
    Symbol::new(Kind::Get, table, key, NIL)
}

fn put(table: u32, key: Arg, value: Arg) -> Symbol {
    Symbol::new(Kind::Put, table, key, value)
}

// A foresight of this symbol alone.
fn alone<R: Abort>(rt: &R, alloc: Global, symbol: Symbol) -> Foresight {
    let mut foresight = Foresight::with_room(alloc, 1).expect(rt, "memory");
    assert!(rt; symbol.has_no_var());
    foresight.push(symbol);
    foresight
}

// Whether one symbol covers another one.
fn covers<R: Abort>(rt: &R, alloc: Global, one: Symbol, other: Symbol) -> bool {
    let other = alone(rt, alloc, other);
    let one = alone(rt, alloc, one);
    covered(&other, &one)
}

#[test]
fn a_wide_symbol_covers_an_exact_one(rt: HostRuntime) {
    let wide = covers(&rt, rt.alloc(), get(0, Arg::Any), get(0, ONE));
    let exact = covers(&rt, rt.alloc(), get(0, ONE), get(0, Arg::Any));
    assert!(rt; wide && !exact);
}

#[test]
fn any_symbol_covers_none(rt: HostRuntime) {
    let exact = alone(&rt, rt.alloc(), get(0, ONE));
    let none = Foresight::with_room(rt.alloc(), 0).expect(&rt, "memory");
    let told = [covered(&none, &exact), covered(&exact, &none)];
    assert!(rt; told == [true, false]);
}

fn put_five() -> Op {
    Op::new(Kind::Put, 0, Value::Num(1), Value::Num(5))
}

// Whether a symbol stands for the operation `put` of 5 at 1 on the table 0.
fn stands(symbol: Symbol) -> bool {
    symbol.has_no_var() && matches(&symbol, &put_five())
}

#[test]
fn a_put_stands_for_what_agrees(rt: HostRuntime) {
    let known = [
        stands(put(0, ONE, FIVE)),
        stands(put(0, ONE, ONE)),
        stands(Symbol::exact(&put_five())),
        stands(get(0, ONE)),
    ];
    assert!(rt; known == [true, false, true, false]);
}

#[test]
fn a_wide_put_stands_for_what_agrees(rt: HostRuntime) {
    let wide = [
        stands(put(0, FIVE, Arg::Any)),
        stands(put(0, Arg::Any, FIVE)),
        stands(put(0, Arg::Any, Arg::Any)),
        stands(put(1, Arg::Any, Arg::Any)),
        stands(put(0, Arg::Var(0), Arg::Any)),
    ];
    assert!(rt; wide == [false, true, true, false, false]);
}

// Two declared symbols with the values of their variables.
fn two_symbols(alloc: Global) -> Result<Foresight, NoMemory>
    ensures { IfOk result (λ f. length f.symbols ≡ 2) }
{
    let declared = [
        Symbol::new(Kind::Put, 1, Arg::Var(1), Arg::Var(0)),
        Symbol::new(Kind::Get, 0, Arg::Any, Arg::Known(Value::Nil)),
    ];
    let env = [Value::Num(5), Value::Sym(3)];
    let mut out = Foresight::with_room(alloc, 2)?;
    instantiate(declared.as_slice(), env.as_slice(), &mut out);
    Ok(out)
}

#[test]
fn variables_become_their_values(rt: HostRuntime) {
    let first = put(1, Arg::Known(Value::Sym(3)), FIVE);
    let foresight = two_symbols(rt.alloc()).expect(&rt, "memory");
    assert!(rt; foresight.symbol(0) == first && foresight.symbol(1) == get(0, Arg::Any));
}
