// What is told of a refusal's line: the library's call.

ghost use Rattle.std.specs.Prelude.{◌≡◌, ◌<◌, ◌++◌, length, map, string_bytes, IfOk, OnOk};
ghost use Rattle.std.specs.List.{flat_map};
ghost use Rattle.refusal_places.specs.Answers.{said_of};
ghost use Rattle.refusal_places.specs.Refusals.{said};
ghost use Rattle.refusal_places.specs.RuleTable.{row_of};
ghost use Rattle.refusal_advice.specs.Told as spec;
ghost use Rattle.refusal_advice.specs.Json.{IsExplained};

use crate::advising::advice_for;
use crate::json::told_json;
use refusal_places::{Refusal, answer, refusal_of};
use session_values::NoMemory;
use std::alloc::Global;
use text_lines::line_len;

/// The form in which a refusal is told of.
#[derive(Clone, Copy, Debug, PartialEq, Eq)]
pub enum Form {
    /// The place, its line, and the advice, line by line.
    Text,
    /// One JSON object on a line.
    Json,
}

/// The first line of a text, without its line feed.
pub(crate) fn first_line(text: &str) -> &str
    ensures { result.now ≡ spec.first_line text.now }
{
    let (line, _) = text.split_at(line_len(text.as_bytes()));
    line
}

/// Appends lines of advice, each behind `= `.
#[tactic(auto, using(crate::proofs::AdviceLines::advice_more, crate::proofs::AdviceLines::advice_all))]
fn push_advice(text: &mut Vec<u8>, lines: &[String]) -> Result<(), NoMemory>
    ensures { OnOk result (text.new.items
        ≡ text.old.items ++ flat_map spec.advice_line (map string_bytes lines.now)) }
{
    for line in lines {
        push_line(text, line.as_str())?;
    }
    Ok(())
}

/// Appends one.
fn push_line(text: &mut Vec<u8>, line: &str) -> Result<(), NoMemory>
    ensures { OnOk result (text.new.items ≡ text.old.items ++ spec.advice_line line.now) }
{
    text.extend_from_slice(b"= ")?;
    text.extend_from_slice(first_line(line).as_bytes())?;
    text.push(b'\n')?;
    Ok(())
}

/// What is advised for the refusal that an input is, if it is one.
fn advice_to(alloc: Global, file: &[u8], input: &[u8]) -> Result<Vec<String>, NoMemory>
    requires { length input.now < 4294967295 }
    ensures { IfOk result (λ lines. spec.IsAdviceTo file.now (said_of input.now)
        (map string_bytes lines.items)) }
{
    let Ok(text) = std::str::from_utf8(input) else {
        return Ok(Vec::new(alloc));
    };
    match refusal_of(text) {
        Some(refusal) => advice_for(alloc, file, &refusal),
        None => Ok(Vec::new(alloc)),
    }
}

/// The text that shows where the rule is broken that a refusal's line names, and behind it what is
/// advised there.
fn told(alloc: Global, name: &str, file: &[u8], input: &[u8]) -> Result<Option<Vec<u8>>, NoMemory>
    requires file { length file.now < 4294967296 }
    requires input { length input.now < 4294967295 }
    ensures { IfOk result (spec.IsToldTo name.now file.now input.now) }
{
    match answer(alloc, name, file, input)? {
        Some(mut text) => {
            let lines = advice_to(alloc, file, input)?;
            push_advice(&mut text, lines.as_slice())?;
            Ok(Some(text))
        }
        None => Ok(None),
    }
}

/// Tells of a refusal in plain words, with advice: of `message`, the line that `foresight` or a
/// session's opening says of a text, which is `file` here. The text goes by this name in what is
/// told; no file is read. None where the message is no such line, or names a place that the text
/// hasn't.
pub fn explain(
    alloc: Global,
    form: Form,
    name: &str,
    file: &[u8],
    message: &[u8],
) -> Result<Option<Vec<u8>>, NoMemory>
    requires file { length file.now < 4294967296 }
    requires message { length message.now < 4294967295 }
    ensures { IfOk result (IsExplained form name.now file.now message.now) }
{
    match form {
        Form::Text => told(alloc, name, file, message),
        Form::Json => told_json(alloc, name, file, message),
    }
}
