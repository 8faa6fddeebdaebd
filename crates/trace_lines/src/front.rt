// What the first words of an event say, and the words behind them.

ghost use Rattle.std.specs.Prelude.{◌≡◌, ◌<◌, IfSome, Some, length};
ghost use Rattle.session_values.specs.Kinds.{arguments};
ghost use Rattle.session_values.specs.Op.{IsOp};
ghost use Rattle.session_values.specs.declared.value.Value.TheVariants.{Nil};
ghost use Rattle.symbolic_ops.specs.declared.arg.Arg.TheVariants.{Known};
ghost use Rattle.symbolic_ops.specs.Matching.{HasNoVar, IsNoVar};
ghost use Rattle.symbolic_ops.specs.Symbol.{IsSymbol};
ghost use Rattle.text_lines.specs.ValueWords.{literal_value};
ghost use Rattle.trace_lines.specs.EventRows.{AreKnown};
ghost use Rattle.trace_lines.specs.EventWords as spec;
ghost use Rattle.trace_lines.specs.Fronts.{IsFront};
ghost use Rattle.trace_lines.specs.Placing.{IsPlaced, texts};
ghost use Rattle.std.specs.List.{AllByRecursion};

use crate::word::{arg, kind, literal, small_number, table};
use crate::words::Word;
use session_values::{Kind, Names, Op, TableKind, Value};
use symbolic_ops::{Arg, Symbol};

/// The tables of a session: the places of their names, and their kinds.
#[derive(Clone, Copy)]
pub(crate) struct Tables<'a> {
    pub(crate) places: &'a [u32],
    pub(crate) kinds: &'a [TableKind],
    ghost few: { length places.now < 4294967296 },
}

/// A number.
pub(crate) fn number_first<'a>(
    words: &'a [Word<'a>],
    names: &Names,
) -> Option<(u32, &'a [Word<'a>])>
    requires placed { AllByRecursion (IsPlaced names.now) words.now }
    ensures front { IsFront result (spec.first_word spec.small_number (texts words.entry.now)) }
    ensures rest { IfSome result (λ p. AllByRecursion (IsPlaced names.now) p.1.now) }
{
    let Some((word, rest)) = words.split_first() else {
        return None;
    };
    match small_number(word.text) {
        Some(n) => Some((n, rest)),
        None => None,
    }
}

/// The literal of a value.
pub(crate) fn literal_first<'a>(
    words: &'a [Word<'a>],
    names: &Names,
) -> Option<(Value, &'a [Word<'a>])>
    requires placed { AllByRecursion (IsPlaced names.now) words.now }
    ensures front { IsFront result (spec.first_word (literal_value names.now)
        (texts words.entry.now)) }
    ensures rest { IfSome result (λ p. AllByRecursion (IsPlaced names.now) p.1.now) }
{
    let Some((word, rest)) = words.split_first() else {
        return None;
    };
    match literal(*word, names) {
        Some(value) => Some((value, rest)),
        None => None,
    }
}

/// An argument of a symbol.
fn arg_first<'a>(words: &'a [Word<'a>], names: &Names) -> Option<(Arg, &'a [Word<'a>])>
    requires placed { AllByRecursion (IsPlaced names.now) words.now }
    ensures front { IsFront result (spec.first_word (spec.arg_value names.now)
        (texts words.entry.now)) }
    ensures known { IfSome result (λ p. IsNoVar p.0) }
    ensures rest { IfSome result (λ p. AllByRecursion (IsPlaced names.now) p.1.now) }
{
    let Some((word, rest)) = words.split_first() else {
        return None;
    };
    match arg(*word, names) {
        Some(value) => Some((value, rest)),
        None => None,
    }
}

/// The word of a kind.
fn kind_first<'a>(words: &'a [Word<'a>], names: &Names) -> Option<(Kind, &'a [Word<'a>])>
    requires placed { AllByRecursion (IsPlaced names.now) words.now }
    ensures front { IsFront result (spec.first_word spec.kind_of (texts words.entry.now)) }
    ensures rest { IfSome result (λ p. AllByRecursion (IsPlaced names.now) p.1.now) }
{
    let Some((word, rest)) = words.split_first() else {
        return None;
    };
    match kind(word.text) {
        Some(found) => Some((found, rest)),
        None => None,
    }
}

/// The name of a table on which operations of the kind work.
fn table_first<'a>(
    words: &'a [Word<'a>],
    kind: Kind,
    tables: Tables<'_>,
    names: &Names,
) -> Option<(u32, &'a [Word<'a>])>
    requires placed { AllByRecursion (IsPlaced names.now) words.now }
    requires known { AreKnown names.now tables.places.now }
    ensures front { IsFront result (spec.first_word (spec.table_of
        (spec.table_names names.now tables.entry.places.now) tables.entry.kinds.now kind)
        (texts words.entry.now)) }
    ensures rest { IfSome result (λ p. AllByRecursion (IsPlaced names.now) p.1.now) }
{
    let Some((word, rest)) = words.split_first() else {
        return None;
    };
    match table(word.text, kind, tables.places, tables.kinds, names) {
        Some(number) => Some((number, rest)),
        None => None,
    }
}

/// The word of a kind, and the name of a table on which its operations work.
fn head<'a>(
    words: &'a [Word<'a>],
    tables: Tables<'_>,
    names: &Names,
) -> Option<((Kind, u32), &'a [Word<'a>])>
    requires placed { AllByRecursion (IsPlaced names.now) words.now }
    requires known { AreKnown names.now tables.places.now }
    ensures front { IsFront result (spec.head_front
        (spec.table_names names.now tables.entry.places.now) tables.entry.kinds.now
        (texts words.entry.now)) }
    ensures rest { IfSome result (λ p. AllByRecursion (IsPlaced names.now) p.1.now) }
{
    let Some((kind, rest)) = kind_first(words, names) else {
        return None;
    };
    match table_first(rest, kind, tables, names) {
        Some((number, left)) => Some(((kind, number), left)),
        None => None,
    }
}

/// Two literals.
fn two_literals<'a>(
    words: &'a [Word<'a>],
    names: &Names,
) -> Option<((Value, Value), &'a [Word<'a>])>
    requires placed { AllByRecursion (IsPlaced names.now) words.now }
    ensures front { IsFront result (spec.arguments_front (literal_value names.now) Nil 2
        (texts words.entry.now)) }
    ensures rest { IfSome result (λ p. AllByRecursion (IsPlaced names.now) p.1.now) }
{
    let Some((key, rest)) = literal_first(words, names) else {
        return None;
    };
    match literal_first(rest, names) {
        Some((value, left)) => Some(((key, value), left)),
        None => None,
    }
}

/// The arguments of an operation of this kind: those that it has not are nil.
fn literals<'a>(
    words: &'a [Word<'a>],
    kind: Kind,
    names: &Names,
) -> Option<((Value, Value), &'a [Word<'a>])>
    requires placed { AllByRecursion (IsPlaced names.now) words.now }
    ensures front { IsFront result (spec.arguments_front (literal_value names.now) Nil
        (arguments kind) (texts words.entry.now)) }
    ensures unused { IfSome result (λ p. IsOp kind p.0.0 p.0.1) }
    ensures rest { IfSome result (λ p. AllByRecursion (IsPlaced names.now) p.1.now) }
{
    match kind {
        Kind::Put | Kind::Swap | Kind::Bump => two_literals(words, names),
        Kind::Get | Kind::Del | Kind::Has | Kind::Add | Kind::Mark | Kind::Drop => {
            match literal_first(words, names) {
                Some((key, rest)) => Some(((key, Value::Nil), rest)),
                None => None,
            }
        }
        Kind::Size | Kind::Count => Some(((Value::Nil, Value::Nil), words)),
    }
}

/// An operation.
pub(crate) fn op<'a>(
    words: &'a [Word<'a>],
    tables: Tables<'_>,
    names: &Names,
) -> Option<(Op, &'a [Word<'a>])>
    requires placed { AllByRecursion (IsPlaced names.now) words.now }
    requires known { AreKnown names.now tables.places.now }
    ensures front { IsFront result (spec.op_front names.now tables.entry.places.now
        tables.entry.kinds.now (texts words.entry.now)) }
    ensures rest { IfSome result (λ p. AllByRecursion (IsPlaced names.now) p.1.now) }
{
    let Some(((kind, number), rest)) = head(words, tables, names) else {
        return None;
    };
    match literals(rest, kind, names) {
        Some(((key, value), left)) => Some((Op::new(kind, number, key, value), left)),
        None => None,
    }
}

/// Two arguments of a symbol.
fn two_args<'a>(words: &'a [Word<'a>], names: &Names) -> Option<((Arg, Arg), &'a [Word<'a>])>
    requires placed { AllByRecursion (IsPlaced names.now) words.now }
    ensures front { IsFront result (spec.arguments_front (spec.arg_value names.now) (Known Nil) 2
        (texts words.entry.now)) }
    ensures known { IfSome result (λ p. IsNoVar p.0.0 × IsNoVar p.0.1) }
    ensures rest { IfSome result (λ p. AllByRecursion (IsPlaced names.now) p.1.now) }
{
    let Some((key, rest)) = arg_first(words, names) else {
        return None;
    };
    match arg_first(rest, names) {
        Some((value, left)) => Some(((key, value), left)),
        None => None,
    }
}

/// The arguments of a symbol of this kind: those that it has not are known as nil.
fn args<'a>(
    words: &'a [Word<'a>],
    kind: Kind,
    names: &Names,
) -> Option<((Arg, Arg), &'a [Word<'a>])>
    requires placed { AllByRecursion (IsPlaced names.now) words.now }
    ensures front { IsFront result (spec.arguments_front (spec.arg_value names.now) (Known Nil)
        (arguments kind) (texts words.entry.now)) }
    ensures unused { IfSome result (λ p. IsSymbol kind p.0.0 p.0.1) }
    ensures known { IfSome result (λ p. IsNoVar p.0.0 × IsNoVar p.0.1) }
    ensures rest { IfSome result (λ p. AllByRecursion (IsPlaced names.now) p.1.now) }
{
    match kind {
        Kind::Put | Kind::Swap | Kind::Bump => two_args(words, names),
        Kind::Get | Kind::Del | Kind::Has | Kind::Add | Kind::Mark | Kind::Drop => {
            match arg_first(words, names) {
                Some((key, rest)) => Some(((key, Arg::Known(Value::Nil)), rest)),
                None => None,
            }
        }
        Kind::Size | Kind::Count => {
            Some(((Arg::Known(Value::Nil), Arg::Known(Value::Nil)), words))
        }
    }
}

/// A symbol.
pub(crate) fn symbol<'a>(
    words: &'a [Word<'a>],
    tables: Tables<'_>,
    names: &Names,
) -> Option<(Symbol, &'a [Word<'a>])>
    requires placed { AllByRecursion (IsPlaced names.now) words.now }
    requires known { AreKnown names.now tables.places.now }
    ensures front { IsFront result (spec.symbol_front names.now tables.entry.places.now
        tables.entry.kinds.now (texts words.entry.now)) }
    ensures known { IfSome result (λ p. HasNoVar p.0) }
    ensures rest { IfSome result (λ p. AllByRecursion (IsPlaced names.now) p.1.now) }
{
    let Some(((kind, number), rest)) = head(words, tables, names) else {
        return None;
    };
    match args(rest, kind, names) {
        Some(((key, value), left)) => Some((Symbol::new(kind, number, key, value), left)),
        None => None,
    }
}
