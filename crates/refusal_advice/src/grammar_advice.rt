// What is advised at a place of a text of handlers where the grammar is broken.

ghost use Rattle.std.specs.Prelude.{◌≡◌, ◌≤◌, length, map, string_bytes, IfOk};
ghost use Rattle.session_values.specs.Limits.{max_input};
ghost use Rattle.refusal_advice.specs.Advice as spec;

use crate::around::tokens_around;
use crate::heads::{head_of, heads};
use crate::hint::Mistake;
use crate::sentence::sentence;
use crate::stop::Stop;
use crate::token::token_at;
use crate::walk::stop_at;
use session_values::NoMemory;
use std::alloc::Global;
use syntax_grammar::Sort;

/// Of a handler's name that is used as an operation's, if there is one.
fn call_hint(alloc: Global, source: &str, stop: &Stop, name: &str) -> Result<bool, NoMemory>
    requires { length source.now ≤ max_input }
{
    if !matches!(stop.word.sort, Sort::LeftParen) {
        return Ok(false);
    }
    let heads = heads(alloc, source)?;
    Ok(head_of(heads.as_slice(), name, true).is_some())
}

/// The language's other way, where it has one; nothing where it has none.
fn hint(alloc: Global, source: &str, stop: &Stop, token: &str) -> Result<String, NoMemory>
    requires { length source.now ≤ max_input }
{
    let around = tokens_around(source, stop.word.at);
    let mut text = String::new(alloc);
    if call_hint(alloc, source, stop, around.last)? {
        text.push_str("`")?;
        text.push_str(around.last)?;
        text.push_str("` is a handler: a handler calls none, so write its statements here")?;
        return Ok(text);
    }
    let mistake = Mistake {
        found: stop.word.sort,
        token,
        last: stop.last,
        before: around.last,
        commas: around.commas,
        wanted: stop.wanted.as_slice(),
    };
    text.push_str(mistake.hint())?;
    Ok(text)
}

/// These lines, the second only where it has a text.
fn lines_of(alloc: Global, sentence: String, hint: String) -> Result<Vec<String>, NoMemory>
    ensures { IfOk result (λ lines. spec.BeginsWith (string_bytes sentence)
        (map string_bytes lines.items)) }
{
    if hint.is_empty() {
        Ok(vec![in alloc; sentence]?)
    } else {
        Ok(vec![in alloc; sentence, hint]?)
    }
}

/// The lines on what was found at a place, whose token has this text.
fn stop_lines(
    alloc: Global,
    source: &str,
    stop: &Stop,
    token: &str,
) -> Result<Vec<String>, NoMemory>
    requires { length source.now ≤ max_input }
    ensures { IfOk result (λ lines. spec.IsStopAdvice stop.now token.now
        (map string_bytes lines.items)) }
{
    let wanted = stop.wanted.as_slice();
    let sentence = sentence(alloc, stop.word.sort.kind(), token, wanted)?;
    let hint = hint(alloc, source, stop, token)?;
    lines_of(alloc, sentence, hint)
}

/// What is advised at a byte place of a text of handlers: what was found there, all that could
/// stand there by the grammar, and perhaps the language's other way. It is empty where no word
/// stands at that place behind words that begin a text of the grammar.
#[tactic(none)]
pub(crate) fn grammar(alloc: Global, source: &str, at: u32) -> Result<Vec<String>, NoMemory>
    requires { length source.now ≤ max_input }
    ensures { IfOk result (λ lines. spec.IsAdvice source.now at (map string_bytes lines.items)) }
{
    match stop_at(alloc, source, at)? {
        Some(stop) => stop_lines(alloc, source, &stop, token_at(source, at)),
        None => Ok(Vec::new(alloc)),
    }
}
