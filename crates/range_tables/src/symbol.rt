// The symbol of some words.

ghost use Rattle.std.specs.Prelude.{◌≡◌, ◌<◌, true, Some, IfOk, IfSome};
ghost use Rattle.session_values.specs.declared.kind.TableKind.TheVariants.{Map};
ghost use Rattle.session_values.specs.declared.value.Value.TheVariants.{Nil};
ghost use Rattle.session_values.specs.Kinds.{arguments, home, is_keyed};
ghost use Rattle.symbolic_ops.specs.declared.arg.Arg.TheVariants.{Known};
ghost use Rattle.symbolic_ops.specs.Matching.{IsNoVar};
ghost use Rattle.range_tables.specs.Tables.{IsOnFirst};
ghost use Rattle.range_tables.specs.Ready.{IsReady};
ghost use Rattle.range_tables.specs.Steps as spec;

use crate::step::Flaw;
use crate::word::{Operand, Verb, Word};
use crate::{RangeOp, RangeSymbol};
use session_values::{Kind, Op, Value};
use symbolic_ops::{Arg, Symbol};

/// A symbol with this value, by its key.
fn with_key(kind: Kind, value: Arg, key: Option<Operand>) -> Result<RangeSymbol, Flaw>
    requires map { home kind ≡ Map }
    requires keyed { is_keyed kind ≡ true }
    requires known { IsNoVar value }
    requires unused { arguments kind < 2 → value ≡ Known Nil }
    ensures is { result ≡ spec.with_key kind value key }
    ensures ready { IfOk result IsReady }
{
    match key {
        None => Err(Flaw::BadWord),
        Some(Operand::Any) => Ok(RangeSymbol::Plain(Symbol::new(kind, 0, Arg::Any, value))),
        Some(Operand::Known(k)) => Ok(RangeSymbol::Plain(Symbol::new(
            kind,
            0,
            Arg::Known(k),
            value,
        ))),
        Some(Operand::Range { low, high }) => Ok(RangeSymbol::Span {
            kind,
            table: 0,
            low,
            high,
            value,
        }),
    }
}

/// A symbol by its key and its value.
fn with_both(kind: Kind, key: Option<Operand>, value: Option<Operand>) -> Result<RangeSymbol, Flaw>
    requires map { home kind ≡ Map }
    requires both { arguments kind ≡ 2 }
    ensures is { result ≡ spec.with_both kind key value }
    ensures ready { IfOk result IsReady }
{
    match value {
        None => Err(Flaw::BadWord),
        Some(Operand::Any) => with_key(kind, Arg::Any, key),
        Some(Operand::Known(v)) => with_key(kind, Arg::Known(v), key),
        Some(Operand::Range { .. }) => Err(Flaw::BadWord),
    }
}

/// The number of an operand that is one.
pub(crate) fn number_in(operand: Option<Operand>) -> Option<i64>
    ensures { result ≡ spec.number_in operand }
{
    match operand {
        Some(Operand::Known(Value::Num(n))) => Some(n),
        _ => None,
    }
}

/// The counts within two ends.
fn within(low: Option<i64>, high: Option<i64>) -> Result<RangeSymbol, Flaw>
    ensures is { result ≡ spec.within_by low high }
    ensures ready { IfOk result IsReady }
{
    match (low, high) {
        (Some(low), Some(high)) => Ok(RangeSymbol::Within {
            table: 0,
            low,
            high,
        }),
        _ => Err(Flaw::BadWord),
    }
}

/// A symbol by the word of its operation and the words behind it.
fn by_verb(verb: Verb, words: &[Word]) -> Result<RangeSymbol, Flaw>
    ensures is { result ≡ spec.symbol_by (Some verb) words.now }
    ensures ready { IfOk result IsReady }
{
    let nil = Arg::Known(Value::Nil);
    match (verb, words) {
        (Verb::Size, []) => Ok(RangeSymbol::Plain(Symbol::new(Kind::Size, 0, nil, nil))),
        (Verb::Get, [k]) => with_key(Kind::Get, nil, k.operand),
        (Verb::Del, [k]) => with_key(Kind::Del, nil, k.operand),
        (Verb::Put, [k, v]) => with_both(Kind::Put, k.operand, v.operand),
        (Verb::Swap, [k, v]) => with_both(Kind::Swap, k.operand, v.operand),
        (Verb::Bump, [k, v]) => with_both(Kind::Bump, k.operand, v.operand),
        (Verb::Between, [l, h]) => within(number_in(l.operand), number_in(h.operand)),
        _ => Err(Flaw::Arity),
    }
}

/// The symbol of some words, or what is wrong with them.
#[tactic(auto, unfolding(crate::specs::Steps::symbol_of))]
pub(crate) fn symbol(words: &[Word]) -> Result<RangeSymbol, Flaw>
    ensures is { result ≡ spec.symbol_of words.now }
    ensures ready { IfOk result IsReady }
{
    match words {
        [] => Err(Flaw::UnknownWord),
        [head, rest @ ..] => match head.verb {
            Some(verb) => by_verb(verb, rest),
            None => Err(Flaw::UnknownWord),
        },
    }
}

/// The one operation that a symbol stands for, if it knows all of it.
pub(crate) fn exact(symbol: &RangeSymbol) -> Option<RangeOp>
    requires { IsReady symbol.now }
    ensures is { result ≡ spec.op_of symbol.now }
    ensures first { IfSome result IsOnFirst }
{
    match symbol {
        RangeSymbol::Plain(s) => match (s.key(), s.value()) {
            (Arg::Known(key), Arg::Known(value)) => Some(RangeOp::Plain(Op::new(
                s.kind, s.table, key, value,
            ))),
            _ => None,
        },
        RangeSymbol::Span { .. } => None,
        RangeSymbol::Within { table, low, high } => Some(RangeOp::Between {
            table: *table,
            low: *low,
            high: *high,
        }),
    }
}
