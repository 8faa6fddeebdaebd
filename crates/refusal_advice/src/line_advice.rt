// What is advised of a line of a file.

ghost use Rattle.std.specs.Prelude.{◌≤◌, ◌+◌, length};
ghost use Rattle.session_values.specs.Limits.{max_input};

use crate::advice::Advice;
use crate::heads::{Declared, end_of_handlers, head_of, heads};
use crate::no_value::{is_value, reason};
use crate::word_advice::{line_of, say_given};
use itoa::Buffer;
use request_files::divide;
use session_values::NoMemory;
use std::alloc::Global;
use text_lines::{Line, Lines, number};

/// The line of a text with this number from 1, if it has so many.
fn line_at(text: &str, number: u32) -> Option<Line<'_>>
    requires { length text.now ≤ max_input }
{
    for (each, line) in Lines::over(text, 1) {
        if each == number {
            return Some(line);
        }
    }
    None
}

/// How many words are left.
fn count(words: Line<'_>) -> u64 {
    let mut count: u64 = 0;
    for _ in words {
        count = count.saturating_add(1);
    }
    count
}

/// How many words the handler or the table takes that a line names.
pub(crate) fn words_taken(
    alloc: Global,
    advice: &mut Advice,
    source: &str,
    text: &str,
    at: u32,
    handler: bool,
) -> Result<(), NoMemory>
    requires source { length source.now ≤ max_input }
    requires text { length text.now ≤ max_input }
{
    let Some(mut words) = line_at(text, at) else {
        return Ok(());
    };
    let Some(name) = words.next() else {
        return Ok(());
    };
    let heads = heads(alloc, source)?;
    let Some(head) = head_of(heads.as_slice(), name, handler) else {
        return Ok(());
    };
    let given = count(words);
    match head.declared {
        Declared::Map => {
            say_taken(
                advice,
                "a line of the map `",
                name,
                "` has a key and a value behind the name",
                given,
            )
        }
        Declared::Set => {
            say_taken(
                advice,
                "a line of the set `",
                name,
                "` has a key behind the name",
                given,
            )
        }
        Declared::Handler => say_params(advice, name, head.params, given),
    }
}

/// What is taken, and how many words are given.
fn say_taken(
    advice: &mut Advice,
    front: &str,
    name: &str,
    behind: &str,
    given: u64,
) -> Result<(), NoMemory> {
    say_given(advice, &[front, name, behind], given)
}

/// How many arguments a handler takes, and how many are given.
fn say_params(advice: &mut Advice, name: &str, params: u32, given: u64) -> Result<(), NoMemory> {
    let mut buffer = Buffer::new();
    match params {
        0 => say_taken(advice, "`", name, "` takes no arguments", given),
        1 => say_taken(advice, "`", name, "` takes 1 argument", given),
        n => say_number(advice, name, buffer.format(n), given),
    }
}

/// The same of more than one.
fn say_number(advice: &mut Advice, name: &str, params: &str, given: u64) -> Result<(), NoMemory> {
    say_given(
        advice,
        &["`", name, "` takes ", params, " arguments"],
        given,
    )
}

/// The first of these words that is no value, if there is one.
fn first_bad<'a>(words: Line<'a>) -> Option<&'a str> {
    for word in words {
        if !is_value(word) {
            return Some(word);
        }
    }
    None
}

/// Why a word of a line is no value.
pub(crate) fn no_value(advice: &mut Advice, text: &str, at: u32) -> Result<(), NoMemory>
    requires { length text.now ≤ max_input }
{
    let Some(mut words) = line_at(text, at) else {
        return Ok(());
    };
    let _name = words.next();
    match first_bad(words) {
        Some(word) => say_no_value(advice, word),
        None => Ok(()),
    }
}

/// Why this word is none.
fn say_no_value(advice: &mut Advice, word: &str) -> Result<(), NoMemory> {
    let (front, n, end) = reason(word);
    let mut buffer = Buffer::new();
    match n {
        Some(n) => say_reason(advice, word, front, buffer.format(n), end),
        None => say_reason(advice, word, front, "", end),
    }
}

/// The same, by parts.
fn say_reason(
    advice: &mut Advice,
    word: &str,
    front: &str,
    number: &str,
    end: &str,
) -> Result<(), NoMemory> {
    advice.say(&["`", word, "` is no value: ", front, number, end])
}

/// Whether two words are one value.
fn is_same(word: &str, other: &str) -> bool {
    if word == other {
        return true;
    }
    match (number(word), number(other)) {
        (Some(m), Some(n)) => m == n,
        _ => false,
    }
}

/// The first line before line `at` that gives this table this key, and the key as it is written
/// there, in a table part whose first line has this number.
fn given_before<'a>(
    table: &str,
    key: &str,
    part: &'a str,
    first: u32,
    at: u32,
) -> Option<(u32, &'a str)>
    requires { first + length part.now ≤ 4294967295 }
{
    for (line, words) in Lines::over(part, first) {
        if at <= line {
            return None;
        }
        let mut words = words;
        if let (Some(name), Some(word)) = (words.next(), words.next()) {
            if name == table && is_same(word, key) {
                return Some((line, word));
            }
        }
    }
    None
}

/// In which line a table was given the key before that a line gives it.
pub(crate) fn given_key(advice: &mut Advice, text: &str, at: u32) -> Result<(), NoMemory>
    requires { length text.now ≤ max_input }
{
    let Some(mut words) = line_at(text, at) else {
        return Ok(());
    };
    let (Some(table), Some(key)) = (words.next(), words.next()) else {
        return Ok(());
    };
    let Some(parts) = divide(text) else {
        return Ok(());
    };
    match given_before(table, key, parts.tables, parts.first_table, at) {
        Some((line, word)) => say_given_key(advice, table, key, line, word),
        None => Ok(()),
    }
}

/// That the table was given the key in this line, written so.
fn say_given_key(
    advice: &mut Advice,
    table: &str,
    key: &str,
    line: u32,
    word: &str,
) -> Result<(), NoMemory> {
    let mut buffer = Buffer::new();
    let line = buffer.format(line);
    if word == key {
        say_key(advice, table, key, line)
    } else {
        say_spelled(advice, table, key, line, word)
    }
}

/// The same, by parts.
fn say_key(advice: &mut Advice, table: &str, key: &str, line: &str) -> Result<(), NoMemory> {
    advice.say(&["`", table, "` was given the key `", key, "` in line ", line])
}

/// The same of a key that was written otherwise.
fn say_spelled(
    advice: &mut Advice,
    table: &str,
    key: &str,
    line: &str,
    word: &str,
) -> Result<(), NoMemory> {
    let front = "` was given the key `";
    advice.say(&[
        "`",
        table,
        front,
        key,
        "` in line ",
        line,
        ", as `",
        word,
        "`",
    ])
}

/// How many lines the tables of a session file have.
pub(crate) fn table_lines(advice: &mut Advice, text: &str) -> Result<(), NoMemory>
    requires { length text.now ≤ max_input }
{
    let tables = match divide(text) {
        Some(parts) => parts.tables,
        None => "",
    };
    let mut rows: u64 = 0;
    for (_, words) in Lines::over(tables, 1) {
        let mut words = words;
        if words.next().is_some() {
            rows = rows.saturating_add(1);
        }
    }
    let mut buffer = Buffer::new();
    let behind = " lines, and a session file has at most 100000";
    advice.say(&["the tables have ", buffer.format(rows), behind])
}

/// Where the line `%%` is missing.
pub(crate) fn halves(advice: &mut Advice, source: &str) -> Result<(), NoMemory>
    requires { length source.now ≤ max_input }
{
    let mut buffer = Buffer::new();
    match end_of_handlers(source) {
        Some(at) => {
            let line = buffer.format(line_of(source, at));
            advice.say(&[
                "the handlers end before line ",
                line,
                ": put a line `%%` there",
            ])
        }
        None => advice.say(&["a line `%%` stands behind the handlers, also where no request is"]),
    }
}
