// The sentence: what was found, and what is wanted there.

ghost use Rattle.std.specs.Prelude.{◌≡◌, ◌++◌, codes, string_bytes, IfOk, OnOk};
ghost use Rattle.refusal_advice.specs.Sentence as spec;

use crate::class::Class;
use session_values::NoMemory;
use std::alloc::Global;
use syntax_grammar::TokenKind;

/// What stands before a token's text.
fn before_token(kind: TokenKind) -> &'static str
    ensures { result.now ≡ spec.before_token kind }
{
    match kind {
        TokenKind::Name => "name `",
        TokenKind::Key => "reserved word `",
        TokenKind::Symbol => "symbol `",
        TokenKind::Number => "number `",
        TokenKind::Sign | TokenKind::Bad => "`",
        TokenKind::Long => "name of more than 64 bytes",
        TokenKind::End => "end of the handlers",
    }
}

/// Whether the token's text is told.
fn has_text(kind: TokenKind) -> bool
    ensures { result ≡ spec.has_text kind }
{
    match kind {
        TokenKind::Long | TokenKind::End => false,
        TokenKind::Name
        | TokenKind::Key
        | TokenKind::Symbol
        | TokenKind::Number
        | TokenKind::Sign
        | TokenKind::Bad => true,
    }
}

/// Appends what was found.
fn push_found(text: &mut String, kind: TokenKind, token: &str) -> Result<(), NoMemory>
    ensures { OnOk result (string_bytes text.new
        ≡ string_bytes text.old ++ spec.found_text kind token.now) }
{
    text.push_str(before_token(kind))?;
    if has_text(kind) {
        text.push_str(token)?;
        text.push_str("`")?;
    }
    Ok(())
}

/// Appends classes behind another, the last one behind `or`.
fn push_more(text: &mut String, classes: &[Class]) -> Result<(), NoMemory>
    ensures { OnOk result (string_bytes text.new
        ≡ string_bytes text.old ++ spec.more_text classes.now) }
{
    let mut rest = classes;
    'classes: while let Some((class, behind)) = rest.split_first() {
        let link = if behind.is_empty() { " or " } else { ", " };
        text.push_str(link)?;
        text.push_str(class.text())?;
        rest = behind;
    }
    Ok(())
}

/// Appends a list of classes.
fn push_wanted(text: &mut String, classes: &[Class]) -> Result<(), NoMemory>
    ensures { OnOk result (string_bytes text.new
        ≡ string_bytes text.old ++ spec.wanted_text classes.now) }
{
    match classes.split_first() {
        Some((class, behind)) => {
            text.push_str(class.text())?;
            push_more(text, behind)
        }
        None => {
            text.push_str("nothing")?;
            Ok(())
        }
    }
}

/// The sentence on a token of this kind and text where these classes are wanted.
pub(crate) fn sentence(
    alloc: Global,
    kind: TokenKind,
    token: &str,
    classes: &[Class],
) -> Result<String, NoMemory>
    ensures { IfOk result (λ text. string_bytes text
        ≡ spec.sentence kind token.now classes.now) }
{
    let mut text = String::from_str(alloc, "unexpected ")?;
    push_found(&mut text, kind, token)?;
    text.push_str(": ")?;
    push_wanted(&mut text, classes)?;
    text.push_str(" is wanted here")?;
    Ok(text)
}
