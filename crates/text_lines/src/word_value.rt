// Words as values.

ghost use Rattle.std.specs.Prelude.{◌≡◌, ◌<◌, ◌≤◌, length, slice_index, cond, Some, None, IfOk, IfSome, OnOk, OnErr};
ghost use Rattle.std.specs.List.{list_all};
ghost use Rattle.std.specs.Str.{all_ascii_digits};
ghost use Rattle.text_lines.specs.Bytes as classes;
ghost use Rattle.text_lines.specs.Leading.{IsLeadingIf};
ghost use Rattle.text_lines.specs.Values as spec;

use crate::bytes::is_symbol_byte;
use crate::scan::is_word_byte;
use session_values::{MAX_NAME, Names, NoMemory, Value};

/// The word's first byte, or 0 where it has none.
#[inline]
pub fn first_byte(word: &str) -> u8
    ensures { result ≡ slice_index word.now 0 }
{
    word.as_bytes().first().copied().unwrap_or(0)
}

/// The most digits whose number is within 64 bits whatever they are.
const FEW_DIGITS: usize = 18;

/// The number that a few digits say, or None where a byte is no digit.
#[inline]
fn few_digits(digits: &[u8]) -> Option<u64>
    requires { length digits.now ≤ 18 }
    ensures number { result ≡ cond (all_ascii_digits digits.now)
        (Some (spec.number_from 0 digits.now)) None }
    ensures small { IfSome result (λ n. n < 1000000000000000000) }
{
    let mut number = 0;
    for b in digits {
        if !b.is_ascii_digit() {
            return None;
        }
        number = number * 10 + (*b - b'0') as u64;
    }
    Some(number)
}

/// The number of the word in front and how many bytes it has, or None if it isn't one of a few
/// digits alone. A word that isn't there has no bytes.
#[inline]
pub(crate) fn leading_number(bytes: &[u8]) -> Option<(u64, usize)>
    ensures { IsLeadingIf bytes.now result }
{
    let mut number = 0;
    let mut len = 0;
    for b in bytes {
        if !b.is_ascii_digit() {
            return if is_word_byte(*b) {
                None
            } else {
                Some((number, len))
            };
        }
        if len >= FEW_DIGITS {
            return None;
        }
        number = number * 10 + (*b - b'0') as u64;
        len += 1;
    }
    Some((number, len))
}

/// The number that a word is, if it is one, by `parse`. That takes a plus sign too, which a
/// session's numbers don't have.
#[inline(never)]
fn parsed_number(word: &str) -> Option<i64>
    ensures { result ≡ spec.number word.now }
{
    let first = first_byte(word);
    if first == b'+' {
        return None;
    }
    word.parse::<i64>().ok()
}

/// The number that the word is, if it is one: an optional minus, then digits, within 64 bits.
#[inline]
pub fn number(word: &str) -> Option<i64>
    ensures { result ≡ spec.number word.now }
{
    let first = first_byte(word);
    let bytes = word.as_bytes();
    if first.is_ascii_digit() && bytes.len() <= FEW_DIGITS {
        return match few_digits(bytes) {
            Some(number) => Some(number as i64),
            None => None,
        };
    }
    parsed_number(word)
}

fn are_symbol_bytes(bytes: &[u8]) -> bool
    ensures { result ≡ list_all classes.is_symbol_byte bytes.now }
{
    bytes.iter().all(|b| is_symbol_byte(*b))
}

/// Whether the word is a symbol's text, of at most 64 bytes.
#[tactic(auto, unfolding(crate::specs::Values::is_symbol))]
pub fn is_symbol(word: &str) -> bool
    ensures { result ≡ spec.is_symbol word.now }
{
    let bytes = word.as_bytes();
    let first = first_byte(word);
    if word == "nil" {
        return false;
    }
    if !first.is_ascii_alphabetic() {
        return false;
    }
    if bytes.len() > MAX_NAME {
        return false;
    }
    are_symbol_bytes(bytes)
}

/// The value of a word that is a number.
#[inline]
fn number_value(word: &str) -> Option<Value>
    ensures { result ≡ spec.as_value (spec.number word.now) }
{
    match number(word) {
        Some(n) => Some(Value::Num(n)),
        None => None,
    }
}

/// The value of a word, if it is one, where it may be a symbol or `nil`.
#[inline(never)]
#[tactic(auto, unfolding(crate::specs::Values::value_of, crate::specs::Values::placed))]
fn named_value(word: &str, names: &mut Names) -> Result<Option<Value>, NoMemory>
    requires { length names.old < 4294967295 }
    ensures value { IfOk result (λ v. v ≡ spec.value_of names.new word.now) }
    ensures names { OnOk result (names.new ≡ spec.placed names.old word.now) }
    ensures err { OnErr result (names.new ≡ names.old) }
{
    if is_symbol(word) {
        return Ok(Some(Value::Sym(names.place(word)?)));
    }
    if word == "nil" {
        return Ok(Some(Value::Nil));
    }
    Ok(number_value(word))
}

/// The value of a word, if it is one. A symbol is placed in the list of names.
#[inline]
pub fn value(word: &str, names: &mut Names) -> Result<Option<Value>, NoMemory>
    requires { length names.old < 4294967295 }
    ensures value { IfOk result (λ v. v ≡ spec.value_of names.new word.now) }
    ensures names { OnOk result (names.new ≡ spec.placed names.old word.now) }
    ensures err { OnErr result (names.new ≡ names.old) }
{
    // What begins with no letter is neither a symbol nor `nil`.
    if !first_byte(word).is_ascii_alphabetic() {
        return Ok(number_value(word));
    }
    named_value(word, names)
}
