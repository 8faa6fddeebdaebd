// Counts of key ranges beside operations and symbols, and a map that answers them.

ghost use Rattle.std.specs.Prelude.{◌≡◌, true};
ghost use Rattle.session_values.specs.declared.kind.TableKind.TheVariants.{Map};
ghost use Rattle.session_values.specs.Kinds.{home, is_keyed, is_on_map};
ghost use Rattle.symbolic_ops.specs.Matching.{IsNoVar};
ghost use Rattle.range_tables.specs.Tables.{IsOnFirst};

use range_tables::{RangeOp, RangeSymbol, RangeTable, range_commute, range_commute_symbol};
use session_values::{Kind, Op, Value};
use std::process::Abort;
use symbolic_ops::Arg;

// An operation on the map 0.
fn on_map(kind: Kind, key: Value, value: Value) -> RangeOp
    requires { home kind ≡ Map }
    ensures { IsOnFirst result }
{
    RangeOp::Plain(match kind.arguments() {
        0 => Op::new(kind, 0, Value::Nil, Value::Nil),
        1 => Op::new(kind, 0, key, Value::Nil),
        _ => Op::new(kind, 0, key, value),
    })
}

// The same at a number, with a number.
fn at(kind: Kind, key: i64, value: i64) -> RangeOp
    requires { home kind ≡ Map }
    ensures { IsOnFirst result }
{
    on_map(kind, Value::Num(key), Value::Num(value))
}

fn between(low: i64, high: i64) -> RangeOp
    ensures { IsOnFirst result }
{
    RangeOp::Between {
        table: 0,
        low,
        high,
    }
}

// Whether it commutes with the operations of a kind whose key is from `low` to `high`.
fn beside(op: RangeOp, kind: Kind, low: i64, high: i64, value: Arg) -> bool
    requires known { IsNoVar value }
    requires map { is_on_map kind ≡ true }
    requires keyed { is_keyed kind ≡ true }
{
    let span = RangeSymbol::Span {
        kind,
        table: 0,
        low,
        high,
        value,
    };
    range_commute_symbol(&op, &span)
}

// Whether it commutes with the counts within `low` to `high`.
fn beside_counts(op: RangeOp, low: i64, high: i64) -> bool {
    let within = RangeSymbol::Within {
        table: 0,
        low,
        high,
    };
    range_commute_symbol(&op, &within)
}

#[test]
fn spans_and_counts(rt: HostRuntime) {
    let one = Arg::Known(Value::Num(1));
    let spans = [
        beside(at(Kind::Put, 5, 1), Kind::Put, 0, 9, one),
        beside(at(Kind::Put, 5, 1), Kind::Put, 0, 9, Arg::Any),
        beside(at(Kind::Bump, 5, 0), Kind::Put, 0, 9, Arg::Any),
        beside(between(7, 3), Kind::Put, 0, 9, Arg::Any),
        beside(between(9, 12), Kind::Put, 0, 9, Arg::Any),
        beside(between(0, 9), Kind::Bump, 0, 9, Arg::Known(Value::Nil)),
        beside(between(0, 9), Kind::Bump, 0, 9, Arg::Any),
        beside(at(Kind::Size, 0, 0), Kind::Put, 7, 6, Arg::Any),
        beside(at(Kind::Size, 0, 0), Kind::Put, 6, 7, Arg::Any),
        // a `get` has no value, so this one stands for no operation
        beside(at(Kind::Del, 5, 0), Kind::Get, 0, 9, one),
    ];
    assert!(&rt;
        spans
            == [
                true, false, true, true, false, true, false, true, false, true
            ]
    );
    let counts = [
        beside_counts(at(Kind::Del, 8, 0), 0, 9),
        beside_counts(at(Kind::Del, 10, 0), 0, 9),
        beside_counts(at(Kind::Bump, 8, 0), 0, 9),
        beside_counts(on_map(Kind::Bump, Value::Num(8), Value::Nil), 0, 9),
        range_commute(&between(0, 9), &at(Kind::Put, 9, 1)),
        range_commute(&at(Kind::Put, 10, 1), &between(0, 9)),
    ];
    assert!(&rt; counts == [false, true, false, true, false, true]);
}

// Does nothing where no room is left.
fn apply(table: &mut RangeTable, op: RangeOp) -> Value
    requires { IsOnFirst op }
{
    if table.spare() == 0 {
        return Value::Nil;
    }
    table.apply(op)
}

#[test]
fn a_map_counts_ranges(rt: HostRuntime) -> Result<(), session_values::NoMemory> {
    let mut table = RangeTable::with_room(rt.alloc(), 8)?;
    apply(&mut table, at(Kind::Put, 5, 1));
    apply(&mut table, at(Kind::Swap, 50, 1));
    apply(&mut table, at(Kind::Put, 50, 7));
    apply(&mut table, at(Kind::Bump, -3, 2));
    apply(&mut table, on_map(Kind::Bump, Value::Num(6), Value::Nil));
    apply(&mut table, on_map(Kind::Put, Value::Nil, Value::Nil));
    let bound = [
        apply(&mut table, between(0, 60)),
        apply(&mut table, between(60, 0)),
        apply(&mut table, between(i64::MIN, i64::MAX)),
        apply(&mut table, at(Kind::Size, 0, 0)),
    ];
    apply(&mut table, at(Kind::Del, 5, 0));
    apply(&mut table, at(Kind::Del, 6, 0));
    let left = [
        apply(&mut table, between(0, 60)),
        apply(&mut table, between(i64::MIN, i64::MAX)),
    ];
    assert!(&rt; bound == [Value::Num(2), Value::Num(0), Value::Num(3), Value::Num(4)]);
    assert!(&rt; left == [Value::Num(1), Value::Num(2)]);
    Ok(())
}
