// An operation against a symbol.

ghost use Rattle.std.specs.Prelude.{◌≡◌, true};
ghost use Rattle.std.specs.Bool.{Decides, MatchBool};
ghost use Rattle.symbolic_ops.specs.Matching.{HasNoVar, IsNoVar};
ghost use Rattle.session_values.specs.Kinds.{is_keyed, is_on_map};
ghost use Rattle.commute_tables.specs.Relation as plain;
ghost use Rattle.range_tables.specs.Relation as relation;
ghost use Rattle.range_tables.specs.Symbols.{IsRangeSymbol, RangeCommutesWith, RangeDiffersFromSome};

use crate::commuting::{changes_nothing, commutes_count, is_between, is_number, on_map};
use crate::key_span::{KeyRange, KeySpan};
use crate::range_op::RangeOp;
use crate::range_symbol::RangeSymbol;
use commute_tables::commute_symbol;
use session_values::{Kind, Op, Value};
use symbolic_ops::{Arg, Symbol};

/// An operation against a symbol without a range.
fn commutes_plain_symbol(a: &Op, s: &Symbol) -> bool
    requires { HasNoVar s.now }
    ensures { result ≡ plain.commutes_symbol a.now s.now }
{
    a.bounds();
    s.bounds();
    commute_symbol(a, s)
}

/// Some operation of the kind has a value that agrees.
fn has_value(kind: Kind, value: Arg) -> bool
    ensures { result ≡ relation.has_value kind value }
{
    match value {
        Arg::Known(Value::Nil) => true,
        Arg::Known(Value::Num(_)) | Arg::Known(Value::Sym(_)) => 1 < kind.arguments(),
        Arg::Var(_) => false,
        Arg::Any => true,
    }
}

/// Of the keys in a range, the one nearest to `v`.
fn nearest(keys: KeyRange, v: Value) -> Value
    ensures { result ≡ relation.nearest keys.low keys.high v }
{
    if is_between(keys.low, keys.high, v) {
        v
    } else {
        Value::Num(keys.low)
    }
}

/// The argument agrees with a number of the range.
fn meets(keys: KeyRange, key: Arg) -> bool
    ensures { result ≡ relation.meets keys.low keys.high key }
{
    match key {
        Arg::Known(v) => is_between(keys.low, keys.high, v),
        Arg::Var(_) => false,
        Arg::Any => keys.low <= keys.high,
    }
}

/// The value of an operation of the kind: nil where the kind has none.
fn value_for(kind: Kind, value: Arg) -> Arg
    ensures { result ≡ relation.value_for kind value }
{
    if 1 < kind.arguments() {
        return value;
    }
    Arg::Known(Value::Nil)
}

/// The symbol of one key of a span, the one nearest to the operation's own.
fn one_key(a: &Op, span: KeySpan) -> Symbol
    requires { is_keyed span.kind ≡ true }
    ensures { result ≡ relation.one_key a.now span.kind span.table span.keys.low span.keys.high
        span.value }
{
    Symbol::new(
        span.kind,
        span.table,
        Arg::Known(nearest(span.keys, a.key())),
        value_for(span.kind, span.value),
    )
}

/// An operation against a span.
fn beside_span(a: &Op, span: KeySpan) -> bool
    requires keyed { is_keyed span.kind ≡ true }
    requires known { IsNoVar span.value }
    ensures { result ≡ relation.range_commutes_symbol (RangeOp.Plain a.now)
        (RangeSymbol.Span span.kind span.table span.keys.low span.keys.high span.value) }
{
    if span.keys.high < span.keys.low {
        return true;
    }
    if !has_value(span.kind, span.value) {
        return true;
    }
    let one = one_key(a, span);
    commutes_plain_symbol(a, &one)
}

/// The argument may be a number.
fn may_be_number(arg: Arg) -> bool
    ensures { result ≡ plain.may_be_number arg }
{
    match arg {
        Arg::Known(v) => is_number(v),
        Arg::Var(_) | Arg::Any => true,
    }
}

/// A count against a symbol without a range.
fn count_beside_plain(table: u32, counted: KeyRange, s: &Symbol) -> bool
    ensures { result ≡ relation.range_commutes_symbol
        (RangeOp.Between table counted.low counted.high) (RangeSymbol.Plain s.now) }
{
    if s.table != table {
        return true;
    }
    if !on_map(s.kind) {
        return true;
    }
    if changes_nothing(s.kind, may_be_number(s.value())) {
        return true;
    }
    !meets(counted, s.key())
}

/// Two ranges have a key in common.
fn ranges_meet(one: KeyRange, other: KeyRange) -> bool
    ensures { result ≡ relation.ranges_meet one.low one.high other.low other.high }
{
    if one.high < one.low {
        return false;
    }
    if other.high < other.low {
        return false;
    }
    if other.high < one.low {
        return false;
    }
    other.low <= one.high
}

/// A count against a span.
fn count_beside_span(table: u32, counted: KeyRange, span: KeySpan) -> bool
    ensures { result ≡ relation.range_commutes_symbol
        (RangeOp.Between table counted.low counted.high)
        (RangeSymbol.Span span.kind span.table span.keys.low span.keys.high span.value) }
{
    if span.table != table {
        return true;
    }
    if changes_nothing(span.kind, may_be_number(span.value)) {
        return true;
    }
    if !has_value(span.kind, span.value) {
        return true;
    }
    !ranges_meet(span.keys, counted)
}

/// An operation on one table against a symbol.
fn beside_symbol(a: &Op, s: &RangeSymbol) -> bool
    requires { IsRangeSymbol s.now }
    ensures { result ≡ relation.range_commutes_symbol (RangeOp.Plain a.now) s.now }
{
    match s {
        RangeSymbol::Plain(y) => commutes_plain_symbol(a, y),
        RangeSymbol::Span {
            kind,
            table,
            low,
            high,
            value,
        } => {
            let span = KeySpan {
                kind: *kind,
                table: *table,
                keys: KeyRange {
                    low: *low,
                    high: *high,
                },
                value: *value,
            };
            beside_span(a, span)
        }
        RangeSymbol::Within { table, low, high } => commutes_count(a, *table, *low, *high),
    }
}

/// A count against a symbol.
fn count_beside(table: u32, counted: KeyRange, s: &RangeSymbol) -> bool
    ensures { result ≡ relation.range_commutes_symbol
        (RangeOp.Between table counted.low counted.high) s.now }
{
    match s {
        RangeSymbol::Plain(y) => count_beside_plain(table, counted, y),
        RangeSymbol::Span {
            kind,
            table: of,
            low,
            high,
            value,
        } => {
            let span = KeySpan {
                kind: *kind,
                table: *of,
                keys: KeyRange {
                    low: *low,
                    high: *high,
                },
                value: *value,
            };
            count_beside_span(table, counted, span)
        }
        RangeSymbol::Within { .. } => true,
    }
}

/// What the relation says.
fn test(a: &RangeOp, s: &RangeSymbol) -> bool
    requires { IsRangeSymbol s.now }
    ensures { result ≡ relation.range_commutes_symbol a.now s.now }
{
    match a {
        RangeOp::Plain(x) => beside_symbol(x, s),
        RangeOp::Between { table, low, high } => {
            let counted = KeyRange {
                low: *low,
                high: *high,
            };
            count_beside(*table, counted, s)
        }
    }
}

/// Whether the operation commutes with each one that the symbol stands for. A symbol that stands
/// for none, as a span whose `low` is above its `high`, commutes with all.
pub fn range_commute_symbol(a: &RangeOp, s: &RangeSymbol) -> bool
    requires { IsRangeSymbol s.now }
    ensures exact { Decides result (RangeCommutesWith a.now s.now) }
    // Where it doesn't, the symbol stands for an operation with which it doesn't commute.
    ensures told { MatchBool result (RangeCommutesWith a.now s.now)
        (RangeDiffersFromSome a.now s.now) }
{
    a.bounds();
    s.bounds();
    test(a, s)
}
