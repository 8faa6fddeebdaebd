// The longest token at the front of a text.

ghost use Rattle.std.specs.Prelude.{◌≡◌, ◌<◌, ◌≤◌, ◌-◌, length, true, false, slice_index};
ghost use Rattle.std.specs.List.{prefix_len};
ghost use Rattle.syntax_grammar.specs.Scan as spec;

use crate::token_kind::TokenKind;
use session_values::MAX_NAME;
use text_lines::{is_blank, is_symbol_byte};

/// The bytes that runs are made of.
#[derive(Clone, Copy)]
pub enum Class {
    Name,
    Symbol,
    Digit,
}

fn is_in(class: Class, byte: u8) -> bool
    ensures { result ≡ spec.is_in class byte }
{
    match class {
        Class::Name => byte.is_ascii_alphanumeric() || byte == b'_',
        Class::Symbol => is_symbol_byte(byte),
        Class::Digit => byte.is_ascii_digit(),
    }
}

/// The length of the longest run at the front.
fn run_len(class: Class, text: &[u8]) -> usize
    ensures value { result ≡ prefix_len (spec.is_in class) text.now }
    ensures within { result ≤ length text.now }
    ensures inside { 0 < result → spec.is_in class (slice_index text.now (result - 1)) ≡ true }
{
    let mut end = 0;
    while end < text.len() && is_in(class, text[end]) {
        end += 1;
    }
    end
}

/// The byte at a place, or 0 behind the end.
pub(crate) fn byte_at(text: &[u8], at: usize) -> u8
    ensures { result ≡ slice_index text.now at }
{
    if at < text.len() { text[at] } else { 0 }
}

/// The kind of the token at the front, and its length. A reserved word is a name here.
#[tactic(auto, unfolding(crate::specs::Scan::scan))]
pub(crate) fn scan(text: &[u8]) -> (TokenKind, usize)
    ensures { result ≡ spec.scan text.now }
{
    let first = byte_at(text, 0);
    if text.is_empty() {
        (TokenKind::End, 0)
    } else if first.is_ascii_alphabetic() {
        scan_name(text)
    } else if first.is_ascii_digit() {
        (TokenKind::Number, run_len(Class::Digit, text))
    } else if first == b'\'' {
        scan_symbol(text)
    } else {
        scan_sign(text)
    }
}

#[tactic(auto, unfolding(crate::specs::Scan::scan_name))]
fn scan_name(text: &[u8]) -> (TokenKind, usize)
    ensures { result ≡ spec.scan_name text.now }
{
    let len = run_len(Class::Name, text);
    if len > MAX_NAME {
        (TokenKind::Long, len)
    } else {
        (TokenKind::Name, len)
    }
}

/// One character that begins no token.
#[tactic(auto, unfolding(crate::specs::Scan::scan_bad))]
fn scan_bad(text: &[u8]) -> (TokenKind, usize)
    ensures { result ≡ spec.scan_bad text.now }
{
    let len = match byte_at(text, 0) {
        0..=0x7f => 1,
        0x80..=0xdf => 2,
        0xe0..=0xef => 3,
        _ => 4,
    };
    (TokenKind::Bad, len)
}

#[tactic(auto, unfolding(crate::specs::Scan::scan_symbol))]
fn scan_symbol(text: &[u8]) -> (TokenKind, usize)
    requires { 0 < length text.now }
    ensures { result ≡ spec.scan_symbol text.now }
{
    if !byte_at(text, 1).is_ascii_alphabetic() {
        return scan_bad(text);
    }
    let run = &text[1..];
    let len = run_len(Class::Symbol, run);
    if len > MAX_NAME {
        (TokenKind::Long, len + 1)
    } else if &run[..len] == b"nil".as_slice() {
        scan_bad(text)
    } else {
        (TokenKind::Symbol, len + 1)
    }
}

#[tactic(auto, unfolding(crate::specs::Scan::scan_sign))]
fn scan_sign(text: &[u8]) -> (TokenKind, usize)
    ensures { result ≡ spec.scan_sign text.now }
{
    let first = byte_at(text, 0);
    if matches!(first, b'=' | b'<' | b'!') && byte_at(text, 1) == b'=' {
        (TokenKind::Sign, 2)
    } else if matches!(
        first,
        b'(' | b')' | b'{' | b'}' | b',' | b';' | b'=' | b'<' | b'+' | b'-' | b'*'
    ) {
        (TokenKind::Sign, 1)
    } else {
        scan_bad(text)
    }
}

/// The length of the blanks, line feeds and comments at the front.
pub(crate) fn gap_len(text: &[u8]) -> usize
    ensures value { result ≡ spec.gap false text.now }
    ensures within { result ≤ length text.now }
{
    let mut commented = false;
    for (i, b) in text.iter().enumerate() {
        commented = match *b {
            b'\n' => false,
            b'#' => true,
            byte if is_blank(byte) => commented,
            _ if commented => true,
            _ => return i,
        };
    }
    text.len()
}
