// What is advised for a refusal of a file.

ghost use Rattle.std.specs.Prelude.{◌≡◌, ◌≤◌, ◌<◌, false, length, map, string_bytes, IfOk, OnOk};
ghost use Rattle.session_values.specs.Limits.{max_input};
ghost use Rattle.refusal_places.specs.Refusals.{said};
ghost use Rattle.refusal_places.specs.RuleTable.{row_of};
ghost use Rattle.refusal_advice.specs.Told as spec;

use crate::advice::Advice;
use crate::grammar_advice::grammar;
use crate::heads::{count, heads};
use crate::line_advice::{given_key, halves, no_value, table_lines, words_taken};
use crate::word_advice::{
    arguments, handlers, nesting, number, other_kind, tables, turns, twice, unknown,
};
use itoa::Buffer;
use refusal_places::{Place, Refusal, Topic};
use request_files::divide;
use session_values::{MAX_INPUT, NoMemory};
use std::alloc::Global;

/// The handlers of a file, which are all of it where no line divides it.
fn handlers_of(text: &str) -> &str
    requires { length text.now ≤ max_input }
    ensures text { result.now ≡ spec.handlers_of text.now }
    ensures short { length result.now ≤ max_input }
{
    match divide(text) {
        Some(parts) => parts.handlers,
        None => text,
    }
}

/// How many tables or handlers there are, and how many there may be.
fn number_of(
    alloc: Global,
    advice: &mut Advice,
    source: &str,
    handler: bool,
) -> Result<(), NoMemory>
    requires { length source.now ≤ max_input }
{
    let heads = heads(alloc, source)?;
    let mut buffer = Buffer::new();
    let number = buffer.format(count(heads.as_slice(), handler));
    let behind = if handler {
        " handlers, and at most 64 are allowed"
    } else {
        " tables, and at most 7 are allowed"
    };
    advice.say(&["the file has ", number, behind])
}

/// How a limit is counted.
fn limit(topic: Topic) -> &'static str {
    match topic {
        Topic::Variables => {
            "parameters, variables and loop names count together: use one again by `NAME = ..`"
        }
        Topic::Calls => {
            "counted by the text: the larger block of an `if`, a `repeat`'s block for each turn"
        }
        Topic::Work => {
            "counted by the text: 1 a statement, the larger block of an `if`, 1 and the block a turn"
        }
        _ => "an operation counts once for each table and arguments with which it may be called",
    }
}

/// Advises on a topic at a byte place or on a line of a text, of which this is the text of handlers.
fn advise(
    alloc: Global,
    advice: &mut Advice,
    topic: Topic,
    source: &str,
    text: &str,
    at: u32,
) -> Result<(), NoMemory>
    requires source { length source.now ≤ max_input }
    requires text { length text.now ≤ max_input }
{
    match topic {
        Topic::Nothing | Topic::Grammar => Ok(()),
        Topic::Halves => halves(advice, source),
        Topic::Number => number(advice, source, at),
        Topic::Nesting => nesting(advice, source, at),
        Topic::Twice => twice(alloc, advice, source, at),
        Topic::Unknown => unknown(alloc, advice, source, at),
        Topic::Arguments => arguments(advice, source, at),
        Topic::OtherKind => other_kind(advice, source, at),
        Topic::Turns => turns(advice, source, at),
        Topic::TableNumber => number_of(alloc, advice, source, false),
        Topic::HandlerNumber => number_of(alloc, advice, source, true),
        Topic::Tables => tables(alloc, advice, source),
        Topic::TableWords => words_taken(alloc, advice, source, text, at, false),
        Topic::NoValue => no_value(advice, text, at),
        Topic::GivenKey => given_key(advice, text, at),
        Topic::TableLines => table_lines(advice, text),
        Topic::Handlers => handlers(alloc, advice, source),
        Topic::RequestWords => words_taken(alloc, advice, source, text, at, true),
        Topic::Variables | Topic::Calls | Topic::Work | Topic::Symbols => {
            advice.say(&[limit(topic)])
        }
    }
}

/// The byte or the number of the line that a place is.
fn byte_of(place: Place) -> u32
    ensures { result ≡ spec.byte_of place }
{
    match place {
        Place::Nowhere => 0,
        Place::Byte(at) | Place::Counted(at, _) => at,
        Place::Line(line) => line,
    }
}

/// Whether the rule with this word is the grammar's.
fn is_of_grammar(word: &str) -> bool
    ensures { result ≡ spec.is_of_grammar word.now }
{
    matches!(word, "S1" | "S2" | "S4")
}

/// What is advised on a rule above the grammar.
fn rule_lines(
    alloc: Global,
    topic: Topic,
    source: &str,
    text: &str,
    at: u32,
) -> Result<Vec<String>, NoMemory>
    requires source { length source.now ≤ max_input }
    requires text { length text.now ≤ max_input }
{
    let mut advice = Advice::new(alloc);
    advise(alloc, &mut advice, topic, source, text, at)?;
    Ok(advice.into_lines())
}

/// What is advised for a refusal of a text.
fn advice_in(alloc: Global, text: &str, refusal: &Refusal) -> Result<Vec<String>, NoMemory>
    requires { length text.now ≤ max_input }
    ensures { IfOk result (λ lines. spec.IsAdviceIn text.now
        (said (row_of refusal.now.rule) refusal.now.place) (map string_bytes lines.items)) }
{
    let source = handlers_of(text);
    let at = byte_of(refusal.place);
    if is_of_grammar(refusal.rule.word) {
        grammar(alloc, source, at)
    } else {
        rule_lines(alloc, refusal.rule.topic, source, text, at)
    }
}

/// What is advised for a refusal of a file, line by line.
pub(crate) fn advice_for(
    alloc: Global,
    file: &[u8],
    refusal: &Refusal,
) -> Result<Vec<String>, NoMemory>
    ensures { IfOk result (λ lines. spec.IsAdviceFor file.now
        (said (row_of refusal.now.rule) refusal.now.place) (map string_bytes lines.items)) }
{
    if file.len() > MAX_INPUT {
        return Ok(Vec::new(alloc));
    }
    match std::str::from_utf8(file) {
        Ok(text) => advice_in(alloc, text, refusal),
        Err(_) => Ok(Vec::new(alloc)),
    }
}
