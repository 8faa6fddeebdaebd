// The relation on the worked rows, and against plain tables.

ghost use Rattle.std.specs.Prelude.{◌≡◌, ◌∷◌, [], Some, map, slice_get};
ghost use Rattle.session_values.specs.declared.kind.TableKind.TheVariants.{Map, Set};
ghost use Rattle.session_values.specs.Kinds.{home};
ghost use Rattle.session_values.specs.Tables.{kind_of};
ghost use Rattle.symbolic_ops.specs.Symbol.{IsSymbol};

use commute_tables::{commute, commute_symbol, commute_symbols};
use plain_tables::PlainTables;
use session_values::{Kind, Op, TableKind, Value};
use std::alloc::Global;
use std::process::Abort;
use symbolic_ops::{Arg, Symbol};

// An operation on the map 0 or the set 1.
fn op(kind: Kind, key: i64, value: i64) -> Op
    ensures { slice_get (Map ∷ Set ∷ []) result.table ≡ Some (home result.kind) }
{
    let table = if kind.on_map() { 0 } else { 1 };
    match kind.arguments() {
        0 => Op::new(kind, table, Value::Nil, Value::Nil),
        1 => Op::new(kind, table, Value::Num(key), Value::Nil),
        _ => Op::new(kind, table, Value::Num(key), Value::Num(value)),
    }
}

// The reply of an operation on the map 0 or the set 1.
fn reply<R: Abort>(rt: &R, tables: &mut PlainTables, op: Op) -> Value
    requires tables { map kind_of tables.old ≡ Map ∷ Set ∷ [] }
    requires fits { slice_get (Map ∷ Set ∷ []) op.table ≡ Some (home op.kind) }
    ensures { map kind_of tables.new ≡ Map ∷ Set ∷ [] }
{
    tables.apply(op).expect(rt, "memory")
}

// Whether both tables reply the same.
fn is_alike<R: Abort>(rt: &R, one: &mut PlainTables, other: &mut PlainTables, op: Op) -> bool
    requires one { map kind_of one.old ≡ Map ∷ Set ∷ [] }
    requires other { map kind_of other.old ≡ Map ∷ Set ∷ [] }
    requires fits { slice_get (Map ∷ Set ∷ []) op.table ≡ Some (home op.kind) }
    ensures one { map kind_of one.new ≡ Map ∷ Set ∷ [] }
    ensures other { map kind_of other.new ≡ Map ∷ Set ∷ [] }
{
    reply(rt, one, op) == reply(rt, other, op)
}

// Whether both tables hold the same at the keys 1 and 2, and as many keys.
fn hold_alike<R: Abort>(rt: &R, one: &mut PlainTables, other: &mut PlainTables) -> bool
    requires one { map kind_of one.old ≡ Map ∷ Set ∷ [] }
    requires other { map kind_of other.old ≡ Map ∷ Set ∷ [] }
{
    let alike = [
        is_alike(rt, one, other, op(Kind::Get, 1, 0)),
        is_alike(rt, one, other, op(Kind::Get, 2, 0)),
        is_alike(rt, one, other, op(Kind::Size, 0, 0)),
        is_alike(rt, one, other, op(Kind::Has, 1, 0)),
        is_alike(rt, one, other, op(Kind::Has, 2, 0)),
        is_alike(rt, one, other, op(Kind::Count, 0, 0)),
    ];
    alike == [true; 6]
}

// Tables on which this operation was done.
fn tables_after<R: Abort>(rt: &R, alloc: Global, held: Op) -> PlainTables
    requires { slice_get (Map ∷ Set ∷ []) held.table ≡ Some (home held.kind) }
    ensures { map kind_of result ≡ Map ∷ Set ∷ [] }
{
    let shape = [TableKind::Map, TableKind::Set];
    let mut tables = PlainTables::new(alloc, &shape).expect(rt, "memory");
    reply(rt, &mut tables, held);
    tables
}

// Whether both orders give the same after the operation `held`.
fn swap_after<R: Abort>(rt: &R, alloc: Global, held: Op, a: Op, b: Op) -> bool
    requires held { slice_get (Map ∷ Set ∷ []) held.table ≡ Some (home held.kind) }
    requires first { slice_get (Map ∷ Set ∷ []) a.table ≡ Some (home a.kind) }
    requires second { slice_get (Map ∷ Set ∷ []) b.table ≡ Some (home b.kind) }
{
    let mut one = tables_after(rt, alloc, held);
    let mut other = tables_after(rt, alloc, held);
    let first = [reply(rt, &mut one, a), reply(rt, &mut one, b)];
    let second = [reply(rt, &mut other, b), reply(rt, &mut other, a)];
    hold_alike(rt, &mut one, &mut other) && first == [second[1], second[0]]
}

// Whether both orders give the same where the key is bound to 0 or to 1, or a member.
fn swap_at_key<R: Abort>(rt: &R, alloc: Global, key: i64, a: Op, b: Op) -> bool
    requires first { slice_get (Map ∷ Set ∷ []) a.table ≡ Some (home a.kind) }
    requires second { slice_get (Map ∷ Set ∷ []) b.table ≡ Some (home b.kind) }
{
    let zero = swap_after(rt, alloc, op(Kind::Put, key, 0), a, b);
    let one = swap_after(rt, alloc, op(Kind::Put, key, 1), a, b);
    let member = swap_after(rt, alloc, op(Kind::Mark, key, 0), a, b);
    zero && one && member
}

// Whether both orders give the same at the tables that tell of the keys 1 and 2.
fn swap_everywhere<R: Abort>(rt: &R, alloc: Global, a: Op, b: Op) -> bool
    requires first { slice_get (Map ∷ Set ∷ []) a.table ≡ Some (home a.kind) }
    requires second { slice_get (Map ∷ Set ∷ []) b.table ≡ Some (home b.kind) }
{
    let empty = swap_after(rt, alloc, op(Kind::Get, 1, 0), a, b);
    let at_one = swap_at_key(rt, alloc, 1, a, b);
    let at_two = swap_at_key(rt, alloc, 2, a, b);
    empty && at_one && at_two
}

// Whether they commute, asked in both ways and by the exact symbol.
fn told(a: &Op, b: &Op) -> [bool; 3] {
    [
        commute(a, b),
        commute(b, a),
        commute_symbol(a, &Symbol::exact(b)),
    ]
}

// The operation of each kind on this key and value is told rightly beside `a`.
fn is_right_beside<R: Abort>(rt: &R, alloc: Global, a: Op, key: i64, value: i64)
    requires { slice_get (Map ∷ Set ∷ []) a.table ≡ Some (home a.kind) }
{
    for kind in Kind::ALL {
        let b = op(kind, key, value);
        let swap = swap_everywhere(rt, alloc, a, b);
        assert!(rt; told(&a, &b) == [swap, swap, swap]);
    }
}

// Each pair of kinds is told rightly, the second of which has this key and value.
fn is_right<R: Abort>(rt: &R, alloc: Global, key: i64, value: i64) {
    for kind in Kind::ALL {
        is_right_beside(rt, alloc, op(kind, 1, 5), key, value);
    }
}

#[test]
fn all_pairs_of_kinds_as_the_tables_tell(rt: HostRuntime) {
    is_right(&rt, rt.alloc(), 1, 5);
    is_right(&rt, rt.alloc(), 1, 6);
    is_right(&rt, rt.alloc(), 2, 5);
    is_right(&rt, rt.alloc(), 2, 6);
}

// Whether two kinds commute on the key 1 and the value 5.
fn pair(kind: Kind, other: Kind) -> bool {
    commute(&op(kind, 1, 5), &op(other, 1, 5))
}

#[test]
fn worked_pairs(rt: HostRuntime) {
    let pairs = [
        pair(Kind::Swap, Kind::Swap),
        pair(Kind::Del, Kind::Del),
        pair(Kind::Size, Kind::Get),
        pair(Kind::Size, Kind::Del),
        pair(Kind::Add, Kind::Add),
        pair(Kind::Mark, Kind::Mark),
        pair(Kind::Add, Kind::Mark),
    ];
    assert!(rt; pairs == [false, true, true, false, false, true, false]);
}

// The other one names a map, and works on sets: no tables fit it beside an operation on that map.
#[test]
fn an_operation_elsewhere_commutes(rt: HostRuntime) {
    let elsewhere = Op::new(Kind::Has, 0, Value::Num(1), Value::Nil);
    assert!(rt; commute(&op(Kind::Put, 1, 5), &elsewhere));
}

// Whether the operation of this kind on the key 1 and the value 5 commutes with each `put` on its
// map with these arguments.
fn told_of_puts(kind: Kind, key: Arg, value: Arg) -> bool {
    let symbol = Symbol::new(Kind::Put, 0, key, value);
    symbol.has_no_var() && commute_symbol(&op(kind, 1, 5), &symbol)
}

#[test]
fn worked_symbols(rt: HostRuntime) {
    let one = Arg::Known(Value::Num(1));
    let two = Arg::Known(Value::Num(2));
    let five = Arg::Known(Value::Num(5));
    let puts = [
        told_of_puts(Kind::Put, Arg::Any, five),
        told_of_puts(Kind::Put, one, Arg::Any),
        told_of_puts(Kind::Put, Arg::Any, Arg::Any),
        told_of_puts(Kind::Put, two, Arg::Any),
    ];
    assert!(rt; puts == [true, false, false, true]);
    let gets = [
        told_of_puts(Kind::Get, Arg::Any, five),
        told_of_puts(Kind::Get, one, Arg::Any),
        told_of_puts(Kind::Get, Arg::Any, Arg::Any),
        told_of_puts(Kind::Get, two, Arg::Any),
    ];
    assert!(rt; gets == [false, false, false, true]);
}

// Whether a bump of the key 1 by this value commutes with each operation of the kind on its map
// with these arguments.
fn told_of_bumps(by: Value, kind: Kind, key: Arg, value: Arg) -> bool
    requires { IsSymbol kind key value }
{
    let bump = Op::new(Kind::Bump, 0, Value::Num(1), by);
    let symbol = Symbol::new(kind, 0, key, value);
    symbol.has_no_var() && commute_symbol(&bump, &symbol)
}

#[test]
fn worked_bumps(rt: HostRuntime) {
    let one = Arg::Known(Value::Num(1));
    let nil = Arg::Known(Value::Nil);
    let three = Value::Num(3);
    let zero = Value::Num(0);
    let told = [
        told_of_bumps(three, Kind::Bump, Arg::Any, Arg::Any),
        told_of_bumps(three, Kind::Put, one, Arg::Any),
        told_of_bumps(three, Kind::Put, Arg::Any, nil),
        told_of_bumps(zero, Kind::Put, one, Arg::Any),
        told_of_bumps(zero, Kind::Get, one, nil),
        told_of_bumps(zero, Kind::Del, one, nil),
        told_of_bumps(Value::Nil, Kind::Size, nil, nil),
    ];
    assert!(rt; told == [true, false, true, true, false, false, true]);
    let bumps = Symbol::new(Kind::Bump, 0, one, Arg::Any);
    assert!(rt; !commute_symbol(&op(Kind::Put, 1, 5), &bumps));
}

#[test]
fn bumps_by_no_number_and_by_zero(rt: HostRuntime) {
    is_right(&rt, rt.alloc(), 1, 0);
    is_right(&rt, rt.alloc(), 2, 0);
}

// Whether each operation of the one symbol commutes with each one of the other, asked in both
// orders.
fn told_of_symbols(a: &Symbol, b: &Symbol) -> [bool; 2] {
    if a.has_no_var() && b.has_no_var() {
        [commute_symbols(a, b), commute_symbols(b, a)]
    } else {
        [true, false]
    }
}

#[test]
fn worked_pairs_of_symbols(rt: HostRuntime) {
    let one = Arg::Known(Value::Num(1));
    let two = Arg::Known(Value::Num(2));
    let zero = Arg::Known(Value::Num(0));
    let nil = Arg::Known(Value::Nil);
    let any_puts = Symbol::new(Kind::Put, 0, Arg::Any, Arg::Any);
    let puts_of_one = Symbol::new(Kind::Put, 0, Arg::Any, one);
    let puts_at_two = Symbol::new(Kind::Put, 0, two, Arg::Any);
    let gets_at_one = Symbol::new(Kind::Get, 0, one, nil);
    let any_gets = Symbol::new(Kind::Get, 0, Arg::Any, nil);
    let any_bumps = Symbol::new(Kind::Bump, 0, Arg::Any, Arg::Any);
    let bumps_by_zero = Symbol::new(Kind::Bump, 0, Arg::Any, zero);
    let any_adds = Symbol::new(Kind::Add, 0, Arg::Any, nil);
    let told = [
        told_of_symbols(&any_puts, &any_puts),
        told_of_symbols(&puts_of_one, &puts_of_one),
        told_of_symbols(&puts_of_one, &any_puts),
        told_of_symbols(&puts_at_two, &gets_at_one),
        told_of_symbols(&puts_at_two, &any_gets),
        told_of_symbols(&any_gets, &gets_at_one),
        told_of_symbols(&any_bumps, &any_bumps),
        told_of_symbols(&any_bumps, &puts_of_one),
        told_of_symbols(&bumps_by_zero, &any_puts),
        told_of_symbols(&any_adds, &any_puts),
    ];
    let yes = [true, true];
    let no = [false, false];
    assert!(rt; told == [no, yes, no, yes, no, yes, yes, no, yes, yes]);
}
