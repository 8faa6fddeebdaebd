// The arguments of a request.

ghost use Rattle.std.specs.Prelude.{◌≡◌, ◌≢◌, ◌+◌, ◌++◌, ◌∷◌, [], ◌≤◌, ◌⊎◌, MatchOption, Some};
ghost use Rattle.std.specs.Prelude.{None, length, true, false, IfOk, take, vec_capacity};
ghost use Rattle.std.specs.List.{list_all};
ghost use Rattle.session_values.specs.Names.{Begins};
ghost use Rattle.text_lines.specs.Text.{words as words_of};
ghost use Rattle.text_lines.specs.Values as value_spec;

use session_values::{Names, NoMemory, Value};
use text_lines::{Line, is_symbol, number};

/// The arguments of a request, in room that is taken once.
#[derive(Drop)]
pub(crate) struct Arguments {
    pub(crate) values: Vec<Value>,
}

/// The number of words that are left.
pub(crate) fn count(mut words: Line<'_>) -> usize
    ensures { result ≡ length (words_of words.entry.rest.now) }
{
    let mut count = 0;
    'words: while let Some(_) = words.next() {
        count += 1;
    }
    count
}

// The value of a word that is no symbol, if it is one.
#[tactic(auto, unfolding(text_lines::specs::Values::value_of, text_lines::specs::Values::placed))]
fn plain_value(word: &str) -> Option<Value>
    requires { value_spec.is_symbol word.now ≡ false }
    ensures { (names : _) → result ≡ value_spec.value_of names word.now }
{
    if word == "nil" {
        return Some(Value::Nil);
    }
    match number(word) {
        Some(n) => Some(Value::Num(n)),
        None => None,
    }
}

// Whether a word is a value.
fn is_value(word: &str) -> bool
    ensures { result ≡ value_spec.is_value word.now }
{
    is_symbol(word) || plain_value(word).is_some()
}

// The value of a word, where that is one and places no new name.
fn known_value(word: &str, names: &Names) -> Option<Value>
    ensures { MatchOption result ((value_spec.value_of names.now word.now ≡ None)
        ⊎ (value_spec.placed names.now word.now ≡ names.now ++ word.now ∷ []))
        (λ v. (value_spec.value_of names.now word.now ≡ Some v)
        × (value_spec.placed names.now word.now ≡ names.now)) }
{
    if !is_symbol(word) {
        return plain_value(word);
    }
    match names.find(word) {
        Some(place) => Some(Value::Sym(place)),
        None => None,
    }
}

/// Whether each of the words that are left is a value.
pub(crate) fn are_values(mut words: Line<'_>) -> bool
    ensures { result ≡ list_all value_spec.is_value (words_of words.entry.rest.now) }
{
    'words: while let Some(word) = words.next() {
        if !is_value(word) {
            return false;
        }
    }
    true
}

/// Appends the values of the words that are left, where all are values and place no new name. It
/// answers `false` where one isn't, or does.
pub(crate) fn known_values(mut words: Line<'_>, names: &Names, list: &mut Vec<Value>) -> bool
    requires room { length list.old.items + length (words_of words.rest.now)
        ≤ vec_capacity list.old }
    ensures values { result ≡ true → list.new.items ≡ list.old.items
        ++ value_spec.values_of names.now (words_of words.entry.rest.now) }
    ensures tests { result ≡ true
        → list_all value_spec.is_value (words_of words.entry.rest.now) ≡ true }
    ensures names { result ≡ true
        → value_spec.placed_all names.now (words_of words.entry.rest.now) ≡ names.now }
    ensures other { result ≡ false
        → list_all value_spec.is_value (words_of words.entry.rest.now) ≡ true
        → value_spec.placed_all names.now (words_of words.entry.rest.now) ≢ names.now }
    ensures capacity { vec_capacity list.new ≡ vec_capacity list.old }
{
    'words: while let Some(word) = words.next() {
        match known_value(word, names) {
            Some(v) => list.push_reserved(v),
            None => return false,
        }
    }
    true
}

/// Appends the values of the words that are left, and says whether each of them is one. Their
/// symbols are placed.
pub(crate) fn placed_values(
    mut words: Line<'_>,
    names: &mut Names,
    list: &mut Vec<Value>,
) -> Result<bool, NoMemory>
    requires names { length names.old + length (words_of words.rest.now) ≤ 4294967295 }
    requires room { length list.old.items + length (words_of words.rest.now)
        ≤ vec_capacity list.old }
    ensures tests { IfOk result (λ b. b ≡ list_all value_spec.is_value
        (words_of words.entry.rest.now)) }
    ensures values { IfOk result (λ b. b ≡ true → list.new.items ≡ list.old.items
        ++ value_spec.values_of names.new (words_of words.entry.rest.now)) }
    ensures names { IfOk result (λ b. b ≡ true →
        names.new ≡ value_spec.placed_all names.old (words_of words.entry.rest.now)) }
    ensures kept { Begins names.old names.new }
    ensures capacity { vec_capacity list.new ≡ vec_capacity list.old }
{
    'words: while let Some(found) = words.next_value(names)? {
        match found {
            Some(v) => list.push_reserved(v),
            None => return Ok(false),
        }
    }
    Ok(true)
}
