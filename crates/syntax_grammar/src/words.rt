// What tokens are to the grammar.

ghost use Rattle.std.specs.Prelude.{◌≡◌, ◌<◌, length, IfOk, OnOk, OnErr};
ghost use Rattle.syntax_grammar.specs.Tokens.{piece_of, reserved_by};
ghost use Rattle.syntax_grammar.specs.Words as spec;

use crate::keyword::sign;
use crate::scan::byte_at;
use crate::token::Token;
use crate::token_kind::TokenKind;
use crate::word::{Sort, Word};
use session_values::{Names, NoMemory};

/// The number that digits say, or 2^64 - 1 where it is larger.
fn number(text: &str) -> u64
    ensures { result ≡ spec.number_of text.now }
{
    let mut number: u64 = 0;
    for digit in text.as_bytes() {
        number = number
            .saturating_mul(10)
            .saturating_add(u64::from(digit.saturating_sub(48)));
    }
    number
}

/// A symbol's text.
fn unquoted(text: &str) -> &str
    ensures { result.now ≡ spec.unquoted text.now }
{
    if byte_at(text.as_bytes(), 0) == b'\'' {
        &text[1..]
    } else {
        text
    }
}

/// The word of a token, which is this reserved word if it is one. A name or a symbol is placed in
/// the list of names.
#[tactic(auto, unfolding(crate::specs::Words::names_after, crate::specs::Words::word_after))]
pub(crate) fn word(
    names: &mut Names,
    token: Token<'_>,
    reserved: Option<Sort>,
) -> Result<Word, NoMemory>
    requires room { length names.old < 4294967295 }
    requires reserved { reserved ≡ reserved_by token.kind token.text.now }
    ensures value { IfOk result (λ w. w ≡ spec.word_after names.old (piece_of token.entry)) }
    ensures names { OnOk result (names.new ≡ spec.names_after names.old (piece_of token.entry)) }
    ensures err { OnErr result (names.new ≡ names.old) }
{
    let sort = match token.kind {
        TokenKind::Name => Sort::Name(names.place(token.text)?),
        TokenKind::Key => reserved.unwrap_or(Sort::Bad),
        TokenKind::Symbol => Sort::Symbol(names.place(unquoted(token.text))?),
        TokenKind::Number => Sort::Number(number(token.text)),
        TokenKind::Sign => sign(token.text).unwrap_or(Sort::Bad),
        TokenKind::Long => Sort::Long,
        TokenKind::Bad => Sort::Bad,
        TokenKind::End => Sort::End,
    };
    Ok(Word {
        sort,
        at: token.start,
    })
}
