// Classes of words.

ghost use Rattle.std.specs.Prelude.{◌≡◌};
ghost use Rattle.refusal_advice.specs.Classes as spec;

use session_values::{Kind, TableKind};
use syntax_grammar::Sort;
use syntax_trees::Compare;

/// Words that the grammar allows at the same places. The end of a text is a class of its own.
#[derive(Clone, Copy, Debug, PartialEq, Eq)]
pub enum Class {
    /// `map` and `set`.
    Table,
    Handler,
    Name,
    Symbol,
    Number,
    Nil,
    /// The words of the eleven operations.
    Operation,
    Let,
    If,
    Repeat,
    Reply,
    Else,
    As,
    Assign,
    /// `==`, `!=`, `<`, `<=`.
    Comparison,
    Times,
    Plus,
    Minus,
    LeftParen,
    RightParen,
    LeftBrace,
    RightBrace,
    Comma,
    Semicolon,
    End,
}

impl Class {
    /// All classes, in the order in which a sentence lists them.
    pub const ALL: [Class; 25] = [
        Class::Table,
        Class::Handler,
        Class::Name,
        Class::Symbol,
        Class::Number,
        Class::Nil,
        Class::Operation,
        Class::Let,
        Class::If,
        Class::Repeat,
        Class::Reply,
        Class::Else,
        Class::As,
        Class::Assign,
        Class::Comparison,
        Class::Times,
        Class::Plus,
        Class::Minus,
        Class::LeftParen,
        Class::RightParen,
        Class::LeftBrace,
        Class::RightBrace,
        Class::Comma,
        Class::Semicolon,
        Class::End,
    ];

    /// A word of the class.
    pub(crate) fn word(self) -> Sort
        ensures { result ≡ spec.word_of self }
    {
        match self {
            Class::Table => Sort::Table(TableKind::Map),
            Class::Handler => Sort::Handler,
            Class::Name => Sort::Name(0),
            Class::Symbol => Sort::Symbol(0),
            Class::Number => Sort::Number(0),
            Class::Nil => Sort::Nil,
            Class::Operation => Sort::Do(Kind::Get),
            Class::Let => Sort::Let,
            Class::If => Sort::If,
            Class::Repeat => Sort::Repeat,
            Class::Reply => Sort::Reply,
            Class::Else => Sort::Else,
            Class::As => Sort::As,
            Class::Assign => Sort::Assign,
            Class::Comparison => Sort::Compare(Compare::Same),
            Class::Times => Sort::Times,
            Class::Plus => Sort::Plus,
            Class::Minus => Sort::Minus,
            Class::LeftParen => Sort::LeftParen,
            Class::RightParen => Sort::RightParen,
            Class::LeftBrace => Sort::LeftBrace,
            Class::RightBrace => Sort::RightBrace,
            Class::Comma => Sort::Comma,
            Class::Semicolon => Sort::Semicolon,
            Class::End => Sort::End,
        }
    }

    /// How a sentence names it.
    pub fn text(self) -> &'static str
        ensures { result.now ≡ spec.text_of self }
    {
        match self {
            Class::Table => "`map`, `set`",
            Class::Handler => "`handler`",
            Class::Name => "a name",
            Class::Symbol => "a symbol",
            Class::Number => "a number",
            Class::Nil => "`nil`",
            Class::Operation => "an operation",
            Class::Let => "`let`",
            Class::If => "`if`",
            Class::Repeat => "`repeat`",
            Class::Reply => "`reply`",
            Class::Else => "`else`",
            Class::As => "`as`",
            Class::Assign => "`=`",
            Class::Comparison => "a comparison (`==`, `!=`, `<`, `<=`)",
            Class::Times => "`*`",
            Class::Plus => "`+`",
            Class::Minus => "`-`",
            Class::LeftParen => "`(`",
            Class::RightParen => "`)`",
            Class::LeftBrace => "`{`",
            Class::RightBrace => "`}`",
            Class::Comma => "`,`",
            Class::Semicolon => "`;`",
            Class::End => "the end of the handlers",
        }
    }
}
