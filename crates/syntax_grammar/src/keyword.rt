// Reserved words and signs.

ghost use Rattle.std.specs.Prelude.{◌≡◌, map};
ghost use Rattle.syntax_grammar.specs.Keyword as spec;

use crate::scan::byte_at;
use crate::word::Sort;
use session_values::{Kind, TableKind};
use syntax_trees::Compare;

/// Whether a reserved word may have this first byte and this length.
fn may_begin(first: u8, len: usize) -> bool
    ensures { result ≡ spec.may_begin first len }
{
    match len {
        2 => matches!(first, b'a' | b'i'),
        3 => matches!(
            first,
            b'a' | b'd' | b'g' | b'h' | b'l' | b'm' | b'n' | b'p' | b's'
        ),
        4 => matches!(first, b'b' | b'd' | b'e' | b'm' | b's'),
        5 => matches!(first, b'c' | b'r'),
        6 => matches!(first, b'm' | b'r'),
        7 => matches!(first, b'h' | b'n'),
        _ => false,
    }
}

/// The reserved word that the text is. Length and first letter are compared first.
#[tactic(auto, unfolding(crate::specs::Keyword::keyword_of))]
pub(crate) fn keyword(text: &str) -> Option<Sort>
    ensures { result ≡ spec.keyword_of text.now }
{
    if !may_begin(byte_at(text.as_bytes(), 0), text.len()) {
        return None;
    }
    match statement_word(text) {
        Some(sort) => Some(sort),
        None => operation(text),
    }
}

#[tactic(auto, unfolding(crate::specs::Keyword::statement_word_of))]
fn statement_word(text: &str) -> Option<Sort>
    ensures { result ≡ spec.statement_word_of text.now }
{
    match text {
        "map" => Some(Sort::Table(TableKind::Map)),
        "set" => Some(Sort::Table(TableKind::Set)),
        "handler" => Some(Sort::Handler),
        "let" => Some(Sort::Let),
        "if" => Some(Sort::If),
        "else" => Some(Sort::Else),
        "repeat" => Some(Sort::Repeat),
        "as" => Some(Sort::As),
        "reply" => Some(Sort::Reply),
        "nil" => Some(Sort::Nil),
        "mayuse" => Some(Sort::MayUse),
        "nothing" => Some(Sort::Nothing),
        "any" => Some(Sort::Any),
        _ => None,
    }
}

/// The operation whose word the text is.
#[tactic(auto, unfolding(crate::specs::Keyword::operation_of))]
fn operation(text: &str) -> Option<Sort>
    ensures { result ≡ spec.operation_of text.now }
{
    operation_among(&Kind::ALL, text)
}

/// The first of these operations whose word the text is.
fn operation_among(kinds: &[Kind], text: &str) -> Option<Sort>
    ensures { result ≡ spec.sort_in (map spec.operation_row kinds.now) text.now }
{
    for kind in kinds {
        if text == kind.word() {
            return Some(Sort::Do(*kind));
        }
    }
    None
}

/// The sign that the text is.
#[tactic(auto, unfolding(crate::specs::Keyword::sign_of))]
pub(crate) fn sign(text: &str) -> Option<Sort>
    ensures { result ≡ spec.sign_of text.now }
{
    match text {
        "(" => Some(Sort::LeftParen),
        ")" => Some(Sort::RightParen),
        "{" => Some(Sort::LeftBrace),
        "}" => Some(Sort::RightBrace),
        "," => Some(Sort::Comma),
        ";" => Some(Sort::Semicolon),
        "=" => Some(Sort::Assign),
        "==" => Some(Sort::Compare(Compare::Same)),
        "!=" => Some(Sort::Compare(Compare::Differ)),
        "<" => Some(Sort::Compare(Compare::Less)),
        "<=" => Some(Sort::Compare(Compare::LessOrSame)),
        "+" => Some(Sort::Plus),
        "-" => Some(Sort::Minus),
        "*" => Some(Sort::Times),
        _ => None,
    }
}
