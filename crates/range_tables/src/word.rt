// What a word may be.

ghost use Rattle.std.specs.Prelude.{◌≡◌};
ghost use Rattle.range_tables.specs.Words as spec;
ghost use Rattle.session_values.specs.Names.{place_of};
ghost use Rattle.text_lines.specs.Values as values;

use session_values::{Names, Value};
use text_lines::{is_symbol, number};

/// The word of an operation.
#[derive(Clone, Copy, Debug, PartialEq, Eq)]
pub(crate) enum Verb {
    Get,
    Put,
    Swap,
    Del,
    Size,
    Bump,
    Between,
}

/// An operand of a symbol, or of an operation.
#[derive(Clone, Copy, Debug, PartialEq, Eq)]
pub(crate) enum Operand {
    Known(Value),
    Any,
    /// Each number from `low` to `high`.
    Range { low: i64, high: i64 },
}

/// All that a word may be.
#[derive(Clone, Copy, Debug, PartialEq, Eq)]
pub(crate) struct Word {
    pub verb: Option<Verb>,
    pub operand: Option<Operand>,
    /// It parts symbols.
    pub is_mark: bool,
}

/// The operation of a word, if it is the word of one.
#[tactic(auto, unfolding(crate::specs::Words::verb_of))]
fn verb_of(word: &str) -> Option<Verb>
    ensures { result ≡ spec.verb_of word.now }
{
    if word == "get" {
        Some(Verb::Get)
    } else if word == "put" {
        Some(Verb::Put)
    } else if word == "swap" {
        Some(Verb::Swap)
    } else if word == "del" {
        Some(Verb::Del)
    } else if word == "size" {
        Some(Verb::Size)
    } else if word == "bump" {
        Some(Verb::Bump)
    } else if word == "between" {
        Some(Verb::Between)
    } else {
        None
    }
}

/// The place of a text, or the number of names where it has none.
fn place(word: &str, names: &Names) -> u32
    ensures { result ≡ place_of names.now word.now }
{
    match names.find(word) {
        Some(place) => place,
        None => names.len(),
    }
}

/// The value of a word, if it is one.
#[tactic(auto, unfolding(text_lines::specs::Values::value_of))]
fn value(word: &str, names: &Names) -> Option<Value>
    ensures { result ≡ values.value_of names.now word.now }
{
    if is_symbol(word) {
        return Some(Value::Sym(place(word, names)));
    }
    if word == "nil" {
        return Some(Value::Nil);
    }
    number(word).map(Value::Num)
}

/// The number behind a second point.
fn after_point(rest: &str) -> Option<i64>
    ensures { result ≡ spec.after_point rest.now }
{
    match rest.strip_prefix('.') {
        Some(high) => number(high),
        None => None,
    }
}

/// The range of two ends.
fn range_by(low: Option<i64>, high: Option<i64>) -> Option<Operand>
    ensures { result ≡ spec.range_by low high }
{
    match (low, high) {
        (Some(low), Some(high)) => Some(Operand::Range { low, high }),
        _ => None,
    }
}

/// The range of a word, if it is one.
fn range_of(word: &str) -> Option<Operand>
    ensures { result ≡ spec.range_of word.now }
{
    match word.split_once('.') {
        Some((low, rest)) => range_by(number(low), after_point(rest)),
        None => None,
    }
}

/// The operand of a word, if it is one.
#[tactic(auto, unfolding(crate::specs::Words::operand_of))]
fn operand_of(word: &str, names: &Names) -> Option<Operand>
    ensures { result ≡ spec.operand_of names.now word.now }
{
    if word == "any" {
        return Some(Operand::Any);
    }
    match value(word, names) {
        Some(v) => Some(Operand::Known(v)),
        None => range_of(word),
    }
}

/// All that a word may be, where symbols have their places in these names.
pub(crate) fn word_of(text: &str, names: &Names) -> Word
    ensures { result ≡ spec.word_of names.now text.now }
{
    Word {
        verb: verb_of(text),
        operand: operand_of(text, names),
        is_mark: text == ";",
    }
}
