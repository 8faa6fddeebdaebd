// The tokens of a source.

ghost use Rattle.std.specs.Prelude.{◌≡◌, ◌≤◌, ◌<◌, ◌+◌, ◌++◌, ◌^◌, length, false};
ghost use Rattle.session_values.specs.Limits.{max_input};
ghost use Rattle.syntax_grammar.specs.Gap.{IsGap};
ghost use Rattle.syntax_grammar.specs.Scan.{gap};
ghost use Rattle.syntax_grammar.specs.Tokens.{Cuts, with_reserved, reserved_by};

use crate::keyword::keyword;
use crate::scan::{gap_len, scan};
use crate::token::Token;
use crate::token_kind::TokenKind;
use crate::word::Sort;

/// The tokens of a source, from its front. The last one is `End`.
#[derive(Clone, Copy, Debug)]
pub struct Tokens<'a> {
    rest: &'a str,
    at: u32,
    ended: bool,
    ghost room: { at + length rest.now < 2 ^ 32 },
}

impl<'a> Tokens<'a> {
    pub fn over(source: &'a str) -> Tokens<'a>
        requires short { length source.now ≤ max_input }
        ensures rest { result.rest.now ≡ source.now }
        ensures at { result.at ≡ 0 }
        ensures ended { result.ended ≡ false }
    {
        Tokens {
            rest: source,
            at: 0,
            ended: false,
        }
    }

    /// The place of the end of the source.
    pub(crate) fn end(&self) -> u32
        ensures { result ≡ self.now.at + length self.now.rest.now }
    {
        self.at + self.rest.len() as u32
    }

    /// The next token, and what it is to the grammar where it is a reserved word. It is `End` once
    /// nothing is left.
    pub(crate) fn cut(&mut self) -> (Token<'a>, Option<Sort>)
        ensures cut { Cuts self.old.rest.now result.0.kind result.0.text.now self.new.rest.now }
        ensures reserved { result.1 ≡ reserved_by result.0.kind result.0.text.now }
        ensures between { IsGap self.old.rest.now (result.0.text.now ++ self.new.rest.now) }
        ensures start { result.0.start ≡ self.old.at + gap false self.old.rest.now }
        ensures end { result.0.end ≡ result.0.start + length result.0.text.now }
        ensures at { self.new.at ≡ result.0.end }
        ensures ended { self.new.ended ≡ self.old.ended }
    {
        let (gap, rest) = self.rest.split_at(gap_len(self.rest.as_bytes()));
        let (found, len) = scan(rest.as_bytes());
        let (text, after) = rest.split_at(len);
        let (kind, reserved) = told_apart(found, text);
        let start = self.at + gap.len() as u32;
        let end = start + len as u32;
        self.rest = after;
        self.at = end;
        let token = Token {
            kind,
            text,
            start,
            end,
        };
        (token, reserved)
    }

    /// The next token, which is `End` once nothing is left.
    pub(crate) fn token(&mut self) -> Token<'a>
        ensures cut { Cuts self.old.rest.now result.kind result.text.now self.new.rest.now }
        ensures between { IsGap self.old.rest.now (result.text.now ++ self.new.rest.now) }
        ensures start { result.start ≡ self.old.at + gap false self.old.rest.now }
        ensures end { result.end ≡ result.start + length result.text.now }
        ensures at { self.new.at ≡ result.end }
        ensures ended { self.new.ended ≡ self.old.ended }
    {
        self.cut().0
    }
}

/// The kind of a token that was found as this one, and what it is where it is a reserved word.
fn told_apart(found: TokenKind, text: &str) -> (TokenKind, Option<Sort>)
    ensures kind { result.0 ≡ with_reserved found text.now }
    ensures reserved { result.1 ≡ reserved_by result.0 text.now }
{
    match found {
        TokenKind::Name => match keyword(text) {
            Some(sort) => (TokenKind::Key, Some(sort)),
            None => (TokenKind::Name, None),
        },
        TokenKind::Key => (TokenKind::Key, keyword(text)),
        _ => (found, None),
    }
}

impl<'a> Iterator for Tokens<'a> {
    ghost use Rattle.std.specs.Iterator.{at_most};
    ghost use Rattle.syntax_grammar.specs.Steps.{Steps, left};

    type Item = Token<'a>;

    ghost next_gives = { Steps };

    ghost remaining = { λ s. at_most (left s) };

    fn next(&mut self) -> Option<Token<'a>> {
        if self.ended {
            return None;
        }
        let token = self.token();
        self.ended = token.kind == TokenKind::End;
        Some(token)
    }
}
