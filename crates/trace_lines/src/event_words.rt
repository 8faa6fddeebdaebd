// The event that the words of a line are.

ghost use Rattle.std.specs.Prelude.{◌≡◌, [], ◌∷◌, IfSome, codes};
ghost use Rattle.std.specs.Str.{bytes_eq};
ghost use Rattle.session_journal.specs.Traces.{HasKnownSymbol};
ghost use Rattle.trace_lines.specs.EventRows.{AreKnown};
ghost use Rattle.trace_lines.specs.EventWords as spec;
ghost use Rattle.trace_lines.specs.Fronts.{is_over, reply_with};
ghost use Rattle.trace_lines.specs.Placing.{IsPlaced, texts};
ghost use Rattle.std.specs.List.{AllByRecursion};

use crate::front::{Tables, literal_first, number_first, op, symbol};
use crate::words::Word;
use session_journal::Event;
use session_values::{Names, Reply, Value};

/// Whether no word is left.
fn is_over(words: &[Word<'_>]) -> bool
    ensures { result ≡ is_over (texts words.entry.now) }
{
    words.is_empty()
}

/// The reply of four values, behind which no word stands.
fn reply_of_four(
    a: Value,
    b: Value,
    c: Value,
    d: Value,
    words: &[Word<'_>],
    names: &Names,
) -> Option<Reply>
    requires placed { AllByRecursion (IsPlaced names.now) words.now }
    ensures { result ≡ reply_with names.now (a ∷ b ∷ c ∷ d ∷ []) (texts words.entry.now) }
{
    if is_over(words) {
        Some(Reply::new(4, a, b, c, d))
    } else {
        None
    }
}

/// The reply of three values and of those that the words are.
fn reply_of_three(a: Value, b: Value, c: Value, words: &[Word<'_>], names: &Names) -> Option<Reply>
    requires placed { AllByRecursion (IsPlaced names.now) words.now }
    ensures { result ≡ reply_with names.now (a ∷ b ∷ c ∷ []) (texts words.entry.now) }
{
    if is_over(words) {
        return Some(Reply::new(3, a, b, c, Value::Nil));
    }
    match literal_first(words, names) {
        Some((d, rest)) => reply_of_four(a, b, c, d, rest, names),
        None => None,
    }
}

/// The reply of two values and of those that the words are.
fn reply_of_two(a: Value, b: Value, words: &[Word<'_>], names: &Names) -> Option<Reply>
    requires placed { AllByRecursion (IsPlaced names.now) words.now }
    ensures { result ≡ reply_with names.now (a ∷ b ∷ []) (texts words.entry.now) }
{
    if is_over(words) {
        return Some(Reply::new(2, a, b, Value::Nil, Value::Nil));
    }
    match literal_first(words, names) {
        Some((c, rest)) => reply_of_three(a, b, c, rest, names),
        None => None,
    }
}

/// The reply of a value and of those that the words are.
fn reply_of_one(a: Value, words: &[Word<'_>], names: &Names) -> Option<Reply>
    requires placed { AllByRecursion (IsPlaced names.now) words.now }
    ensures { result ≡ reply_with names.now (a ∷ []) (texts words.entry.now) }
{
    if is_over(words) {
        return Some(Reply::new(1, a, Value::Nil, Value::Nil, Value::Nil));
    }
    match literal_first(words, names) {
        Some((b, rest)) => reply_of_two(a, b, rest, names),
        None => None,
    }
}

/// The reply of 1 to 4 values.
fn reply(words: &[Word<'_>], names: &Names) -> Option<Reply>
    requires placed { AllByRecursion (IsPlaced names.now) words.now }
    ensures { result ≡ reply_with names.now [] (texts words.entry.now) }
{
    match literal_first(words, names) {
        Some((a, rest)) => reply_of_one(a, rest, names),
        None => None,
    }
}

/// What stands behind `begin`.
fn begin(words: &[Word<'_>], names: &Names) -> Option<Event>
    requires { AllByRecursion (IsPlaced names.now) words.now }
    ensures event { result ≡ spec.begin_of (texts words.entry.now) }
    ensures known { IfSome result HasKnownSymbol }
{
    let Some((ticket, rest)) = number_first(words, names) else {
        return None;
    };
    match number_first(rest, names) {
        Some((caller, left)) if is_over(left) => Some(Event::Begin { ticket, caller }),
        _ => None,
    }
}

/// What stands behind `done`.
fn done(words: &[Word<'_>], tables: Tables<'_>, names: &Names) -> Option<Event>
    requires placed { AllByRecursion (IsPlaced names.now) words.now }
    requires known { AreKnown names.now tables.places.now }
    ensures event { result ≡ spec.done_of names.now tables.entry.places.now tables.entry.kinds.now
        (texts words.entry.now) }
    ensures known { IfSome result HasKnownSymbol }
{
    let Some((ticket, rest)) = number_first(words, names) else {
        return None;
    };
    let Some((op, left)) = op(rest, tables, names) else {
        return None;
    };
    match literal_first(left, names) {
        Some((reply, more)) if is_over(more) => Some(Event::Done { ticket, op, reply }),
        _ => None,
    }
}

/// What stands behind `delay`.
fn delay(words: &[Word<'_>], tables: Tables<'_>, names: &Names) -> Option<Event>
    requires placed { AllByRecursion (IsPlaced names.now) words.now }
    requires known { AreKnown names.now tables.places.now }
    ensures event { result ≡ spec.delay_of names.now tables.entry.places.now tables.entry.kinds.now
        (texts words.entry.now) }
    ensures known { IfSome result HasKnownSymbol }
{
    let Some((ticket, rest)) = number_first(words, names) else {
        return None;
    };
    let Some((op, left)) = op(rest, tables, names) else {
        return None;
    };
    let Some((older, last)) = number_first(left, names) else {
        return None;
    };
    match symbol(last, tables, names) {
        Some((symbol, more)) if is_over(more) => Some(Event::Delay {
            ticket,
            op,
            older,
            symbol,
        }),
        _ => None,
    }
}

/// What stands behind `end`.
fn end(words: &[Word<'_>], names: &Names) -> Option<Event>
    requires placed { AllByRecursion (IsPlaced names.now) words.now }
    ensures event { result ≡ spec.end_of names.now (texts words.entry.now) }
    ensures known { IfSome result HasKnownSymbol }
{
    let Some((ticket, rest)) = number_first(words, names) else {
        return None;
    };
    match reply(rest, names) {
        Some(reply) => Some(Event::End { ticket, reply }),
        None => None,
    }
}

/// Whether the word is `begin`.
#[inline]
fn is_begin(word: &str) -> bool
    ensures { result ≡ bytes_eq word.now (codes "begin") }
{
    matches!(word.as_bytes(), b"begin")
}

/// Whether the word is `done`.
#[inline]
fn is_done(word: &str) -> bool
    ensures { result ≡ bytes_eq word.now (codes "done") }
{
    matches!(word.as_bytes(), b"done")
}

/// Whether the word is `delay`.
#[inline]
fn is_delay(word: &str) -> bool
    ensures { result ≡ bytes_eq word.now (codes "delay") }
{
    matches!(word.as_bytes(), b"delay")
}

/// Whether the word is `end`.
#[inline]
fn is_end(word: &str) -> bool
    ensures { result ≡ bytes_eq word.now (codes "end") }
{
    matches!(word.as_bytes(), b"end")
}

/// The event that a word and those behind it are, if they are one.
pub(crate) fn event(
    word: &str,
    words: &[Word<'_>],
    tables: Tables<'_>,
    names: &Names,
) -> Option<Event>
    requires placed { AllByRecursion (IsPlaced names.now) words.now }
    requires known { AreKnown names.now tables.places.now }
    ensures event { result ≡ spec.event_of names.now tables.entry.places.now tables.entry.kinds.now
        (word.now ∷ texts words.entry.now) }
    ensures known { IfSome result HasKnownSymbol }
{
    if is_begin(word) {
        begin(words, names)
    } else if is_done(word) {
        done(words, tables, names)
    } else if is_delay(word) {
        delay(words, tables, names)
    } else if is_end(word) {
        end(words, names)
    } else {
        None
    }
}
