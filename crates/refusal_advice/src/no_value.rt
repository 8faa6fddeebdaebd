// What a word that is no value isn't.

use session_values::MAX_NAME;
use text_lines::{first_byte, is_symbol, is_symbol_byte, number};

/// Whether the word is a value.
pub(crate) fn is_value(word: &str) -> bool {
    is_symbol(word) || word == "nil" || number(word).is_some()
}

/// Whether it has digits alone, perhaps behind a sign: it is a number that is too large.
fn is_far(word: &str) -> bool {
    let bytes = word.as_bytes();
    let digits = match bytes.split_first() {
        Some((b'-', digits)) => digits,
        _ => bytes,
    };
    for byte in digits {
        if !byte.is_ascii_digit() {
            return false;
        }
    }
    !digits.is_empty()
}

/// The number from 1 of its first byte that a symbol doesn't have.
fn other_byte(word: &str) -> u64 {
    let front = word.as_bytes().iter().take_while(|b| is_symbol_byte(**b));
    front.count() as u64 + 1
}

/// Why the word is no value, and perhaps a number with what stands behind it.
pub(crate) fn reason(word: &str) -> (&'static str, Option<u64>, &'static str) {
    let first = first_byte(word);
    if first == b'\'' || first == b'"' {
        ("no quote stands before a symbol here", None, "")
    } else if is_far(word) {
        let range = "a number is from -9223372036854775808 to 9223372036854775807";
        (range, None, "")
    } else if first.is_ascii_digit() || first == b'-' {
        let digits = "a number is digits, perhaps with a `-` before them, and a symbol begins \
             with a letter";
        (digits, None, "")
    } else if !first.is_ascii_alphabetic() {
        let begin = "a symbol begins with a letter, and a number with a digit or `-`";
        (begin, None, "")
    } else if word.len() > MAX_NAME {
        let long = "a symbol has at most 64 bytes, and it has ";
        (long, Some(word.len() as u64), "")
    } else {
        let bytes = "a symbol has letters, digits, `_`, `.`, `-`, `@` and `:`, and its byte ";
        (bytes, Some(other_byte(word)), " is another")
    }
}
