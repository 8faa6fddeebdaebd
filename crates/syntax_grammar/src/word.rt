// Words: what a token is to the grammar.

ghost use Rattle.std.specs.Prelude.{◌≡◌};
ghost use Rattle.syntax_grammar.specs.Words.{kind_of};

use crate::token_kind::TokenKind;
use session_values::{Kind, TableKind};
use syntax_trees::Compare;

/// What a word is. A name and a symbol are the place of their text in the list of names, a number
/// is its value, or 2^64 - 1 where it is larger.
#[derive(Clone, Copy, Debug, PartialEq, Eq)]
pub enum Sort {
    Name(u32),
    Symbol(u32),
    Number(u64),
    /// The word of a table's kind.
    Table(TableKind),
    Handler,
    Let,
    If,
    Else,
    Repeat,
    As,
    Reply,
    Nil,
    MayUse,
    Nothing,
    Any,
    /// The word of an operation.
    Do(Kind),
    LeftParen,
    RightParen,
    LeftBrace,
    RightBrace,
    Comma,
    Semicolon,
    Assign,
    /// The sign of a comparison.
    Compare(Compare),
    Plus,
    Minus,
    Times,
    Long,
    Bad,
    /// The end of the source.
    End,
}

impl Sort {
    /// The kind of the token that the word is.
    pub fn kind(self) -> TokenKind
        ensures { result ≡ kind_of self }
    {
        match self {
            Sort::Name(_) => TokenKind::Name,
            Sort::Symbol(_) => TokenKind::Symbol,
            Sort::Number(_) => TokenKind::Number,
            Sort::Comma
            | Sort::Semicolon
            | Sort::Assign
            | Sort::LeftParen
            | Sort::RightParen
            | Sort::LeftBrace
            | Sort::RightBrace
            | Sort::Compare(_)
            | Sort::Plus
            | Sort::Minus
            | Sort::Times => TokenKind::Sign,
            Sort::Long => TokenKind::Long,
            Sort::Bad => TokenKind::Bad,
            Sort::End => TokenKind::End,
            _ => TokenKind::Key,
        }
    }
}

/// A word, and the byte place where its token starts.
#[derive(Clone, Copy, Debug, PartialEq, Eq)]
pub struct Word {
    pub sort: Sort,
    pub at: u32,
}
