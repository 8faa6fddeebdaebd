// Reading the line of a refusal.

ghost use Rattle.std.specs.Prelude.{◌≡◌, ◌<◌, length, None, Some, MatchOption};
ghost use Rattle.text_lines.specs.Text.{words as words_of};
ghost use Rattle.refusal_places.specs.Refusals as spec;
ghost use Rattle.refusal_places.specs.RuleTable.{rule_of as row_for};

use crate::finding::rule_of;
use crate::number::number;
use crate::refusal::{Place, Refusal};
use crate::rule::PlaceKind;
use text_lines::{Line, Lines};

/// The refusal that a text of one line is, if it is one. The line may end in a line feed.
pub fn refusal_of(text: &str) -> Option<Refusal>
    requires { length text.now < 4294967295 }
    ensures { spec.said_option result ≡ spec.refusal_of text.now }
{
    let mut lines = Lines::over(text, 1);
    let Some((_, line)) = lines.next() else {
        return None;
    };
    match lines.next() {
        Some(_) => None,
        None => refusal_in(line),
    }
}

/// The refusal that a line says.
fn refusal_in(line: Line<'_>) -> Option<Refusal>
    ensures { spec.said_option result ≡ spec.said_in (words_of line.entry.rest.now) }
{
    let mut words = line;
    let Some(refused) = words.next() else {
        return None;
    };
    let Some(word) = words.next() else {
        return None;
    };
    if refused == "refused" {
        refusal_by(word, words)
    } else {
        None
    }
}

/// The refusal of the rule with this word, at the place that the other words name.
fn refusal_by(word: &str, words: Line<'_>) -> Option<Refusal>
    ensures { spec.said_option result
        ≡ spec.said_by (row_for word.now) (words_of words.entry.rest.now) }
{
    let Some(rule) = rule_of(word) else {
        return None;
    };
    match place_of(rule.place, words) {
        Some(place) => Some(Refusal { rule, place }),
        None => None,
    }
}

/// The place that words name.
fn place_of(kind: PlaceKind, words: Line<'_>) -> Option<Place>
    ensures { result ≡ spec.place_of kind (words_of words.entry.rest.now) }
{
    match kind {
        PlaceKind::Nowhere => alone(Place::Nowhere, words),
        PlaceKind::Byte => match named_number(words, "at") {
            Some((at, rest)) => alone(Place::Byte(at), rest),
            None => None,
        },
        PlaceKind::Counted => counted_place(words),
        PlaceKind::Line => match named_number(words, "line") {
            Some((line, rest)) => alone(Place::Line(line), rest),
            None => None,
        },
    }
}

/// The byte and the count that words name.
fn counted_place(words: Line<'_>) -> Option<Place>
    ensures { result ≡ spec.place_of PlaceKind.Counted (words_of words.entry.rest.now) }
{
    let Some((at, rest)) = named_number(words, "at") else {
        return None;
    };
    match named_number(rest, "count") {
        Some((count, rest)) => alone(Place::Counted(at, count), rest),
        None => None,
    }
}

/// The place, if no word is left.
fn alone(place: Place, words: Line<'_>) -> Option<Place>
    ensures { result ≡ spec.alone place (words_of words.entry.rest.now) }
{
    let mut words = words;
    match words.next() {
        Some(_) => None,
        None => Some(place),
    }
}

/// The number behind this word at the front, with the words behind the number.
fn named_number<'a>(words: Line<'a>, name: &str) -> Option<(u32, Line<'a>)>
    ensures { MatchOption result
        (spec.named_number name.now (words_of words.entry.rest.now) ≡ None)
        (λ p. spec.named_number name.now (words_of words.entry.rest.now)
        ≡ Some (p.0, words_of p.1.rest.now)) }
{
    let mut words = words;
    let Some(word) = words.next() else {
        return None;
    };
    let Some(digits) = words.next() else {
        return None;
    };
    if word != name {
        return None;
    }
    match number(digits) {
        Some(n) => Some((n, words)),
        None => None,
    }
}
