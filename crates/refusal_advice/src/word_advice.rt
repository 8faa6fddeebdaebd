// What is advised at a byte place where a rule above the grammar is broken.

ghost use Rattle.std.specs.Prelude.{◌≤◌, length};
ghost use Rattle.session_values.specs.Limits.{max_input};

use crate::advice::Advice;
use crate::around::{Around, tokens_around};
use crate::heads::{Declared, Head, heads};
use crate::scope::scope_at;
use itoa::Buffer;
use refusal_places::byte_spot;
use session_values::NoMemory;
use std::alloc::Global;

/// The number of the line of a byte place.
pub(crate) fn line_of(source: &str, at: u32) -> u64
    requires { length source.now ≤ max_input }
{
    match byte_spot(source.as_bytes(), at) {
        Some(spot) => spot.line,
        None => 0,
    }
}

/// The operation whose table's name stands at the place, if one does.
fn called<'a>(around: Around<'a>) -> Option<Call> {
    if around.last == "(" {
        operation(around.second)
    } else {
        None
    }
}

/// What an operation takes behind its table, and on which tables it works.
#[derive(Clone, Copy, Debug)]
struct Call {
    on_map: bool,
    takes: &'static str,
}

/// The operation with this word, if it is one.
fn operation(word: &str) -> Option<Call> {
    let (on_map, takes) = match word {
        "put" | "swap" => (true, "a key and a value"),
        "bump" => (true, "a key and a number"),
        "get" | "del" => (true, "a key"),
        "size" => (true, "nothing"),
        "has" | "add" | "mark" | "drop" => (false, "a key"),
        "count" => (false, "nothing"),
        _ => return None,
    };
    Some(Call { on_map, takes })
}

/// Where a name was declared before.
pub(crate) fn twice(
    alloc: Global,
    advice: &mut Advice,
    source: &str,
    at: u32,
) -> Result<(), NoMemory>
    requires { length source.now ≤ max_input }
{
    let around = tokens_around(source, at);
    let mut buffer = Buffer::new();
    match around.last {
        "map" | "set" | "handler" => {
            let heads = heads(alloc, source)?;
            let handler = around.last == "handler";
            if let Some(first) = first_head(heads.as_slice(), around.found, handler, at) {
                let line = buffer.format(line_of(source, first));
                advice.say(&["`", around.found, "` was declared in line ", line])?;
            }
        }
        _ => {
            let scope = scope_at(alloc, source, at)?;
            if let Some((first, ended)) = scope.declared(around.found) {
                let line = buffer.format(line_of(source, first.at));
                advice.say(&["`", around.found, "` was declared in line ", line])?;
                if ended && first.by_let && around.last == "let" {
                    say_once(advice, around.found)?;
                }
            }
        }
    }
    Ok(())
}

/// How two blocks give one variable its value.
fn say_once(advice: &mut Advice, name: &str) -> Result<(), NoMemory> {
    advice.say(&[
        "a name is declared once in a handler: write `let ",
        name,
        " = nil;` before both blocks, and `",
        name,
        " = ..` in each",
    ])
}

/// The place of the first of these before a place with this name.
fn first_head(heads: &[Head<'_>], name: &str, handler: bool, at: u32) -> Option<u32> {
    for head in heads {
        if head.name == name && head.at < at && (head.declared == Declared::Handler) == handler {
            return Some(head.at);
        }
    }
    None
}

/// Which tables there are, or which variables are visible, and why this one isn't.
pub(crate) fn unknown(
    alloc: Global,
    advice: &mut Advice,
    source: &str,
    at: u32,
) -> Result<(), NoMemory>
    requires { length source.now ≤ max_input }
{
    let around = tokens_around(source, at);
    if called(around).is_some() {
        advice.say(&["no table `", around.found, "` is declared"])?;
        return tables(alloc, advice, source);
    }
    let scope = scope_at(alloc, source, at)?;
    match scope.declared(around.found) {
        Some((first, true)) => say_ended(advice, around.found, line_of(source, first.at))?,
        _ => say_unknown(advice, around)?,
    }
    let mut names: Vec<&str> = Vec::new(alloc);
    for variable in scope.visible.as_slice() {
        names.push(variable.name)?;
    }
    if names.is_empty() {
        advice.say(&["no variable is visible here"])
    } else {
        say_names(advice, "the variables here are: ", names.as_slice())
    }
}

/// Of a variable whose block has ended.
fn say_ended(advice: &mut Advice, name: &str, line: u64) -> Result<(), NoMemory> {
    let mut buffer = Buffer::new();
    advice.say(&[
        "no variable `",
        name,
        "` is visible here: the block of its declaration in line ",
        buffer.format(line),
        " has ended; declare it before that block",
    ])
}

/// Of a variable that is declared nowhere before.
fn say_unknown(advice: &mut Advice, around: Around<'_>) -> Result<(), NoMemory> {
    let name = around.found;
    match name {
        "null" | "Null" | "NULL" | "None" | "none" | "undefined" => {
            advice.say(&[
                "no variable `",
                name,
                "` is visible here; the value of nothing is `nil`",
            ])
        }
        "true" | "false" | "True" | "False" => advice.say(&[
            "no variable `",
            name,
            "` is visible here; there are no truth values: use 1 and 0, or two symbols",
        ]),
        _ if around.next == "=" => advice.say(&[
            "no variable `",
            name,
            "` is visible here: `let ",
            name,
            " = ..` declares one",
        ]),
        _ => advice.say(&[
            "no variable `",
            name,
            "` is visible here; a symbol has a quote, as `'",
            name,
            "`",
        ]),
    }
}

/// Which tables there are.
pub(crate) fn tables(alloc: Global, advice: &mut Advice, source: &str) -> Result<(), NoMemory>
    requires { length source.now ≤ max_input }
{
    let heads = heads(alloc, source)?;
    say_heads(alloc, advice, "the tables are: ", heads.as_slice(), false)
}

/// Which handlers there are.
pub(crate) fn handlers(alloc: Global, advice: &mut Advice, source: &str) -> Result<(), NoMemory>
    requires { length source.now ≤ max_input }
{
    let heads = heads(alloc, source)?;
    say_heads(alloc, advice, "the handlers are: ", heads.as_slice(), true)
}

/// Lists the names of tables, or of handlers.
fn say_heads(
    alloc: Global,
    advice: &mut Advice,
    front: &str,
    heads: &[Head<'_>],
    handler: bool,
) -> Result<(), NoMemory> {
    let mut names: Vec<&str> = Vec::new(alloc);
    for head in heads {
        if (head.declared == Declared::Handler) == handler {
            names.push(head.name)?;
        }
    }
    say_names(advice, front, names.as_slice())
}

/// Lists names in their quotes behind this front.
fn say_names(advice: &mut Advice, front: &str, names: &[&str]) -> Result<(), NoMemory> {
    let mut list = String::new(advice.alloc());
    for name in names {
        list.push_str(if list.is_empty() { "`" } else { ", `" })?;
        list.push_str(name)?;
        list.push_str("`")?;
    }
    if names.is_empty() {
        list.push_str("none")?;
    }
    advice.say(&[front, list.as_str()])
}

/// Appends how many words are given.
pub(crate) fn say_given(advice: &mut Advice, parts: &[&str], given: u64) -> Result<(), NoMemory> {
    let mut buffer = Buffer::new();
    let number = if given == 0 {
        "none"
    } else {
        buffer.format(given)
    };
    let verb = if given < 2 { " is given" } else { " are given" };
    let mut front = String::new(advice.alloc());
    for part in parts {
        front.push_str(part)?;
    }
    advice.say(&[front.as_str(), ", and ", number, verb])
}

/// What an operation takes.
pub(crate) fn arguments(advice: &mut Advice, source: &str, at: u32) -> Result<(), NoMemory>
    requires { length source.now ≤ max_input }
{
    let around = tokens_around(source, at);
    match operation(around.found) {
        Some(call) => { say_arguments(advice, around.found, call.takes, u64::from(around.commas)) }
        None => Ok(()),
    }
}

/// What the operation with this word takes, and how many words are given.
fn say_arguments(advice: &mut Advice, word: &str, takes: &str, given: u64) -> Result<(), NoMemory> {
    say_given(
        advice,
        &["`", word, "` takes ", takes, " behind its table"],
        given,
    )
}

/// On which tables an operation works.
pub(crate) fn other_kind(advice: &mut Advice, source: &str, at: u32) -> Result<(), NoMemory>
    requires { length source.now ≤ max_input }
{
    let around = tokens_around(source, at);
    let Some(call) = called(around) else {
        return Ok(());
    };
    let (works, is) = if call.on_map {
        ("` is an operation on maps, and `", "` is a set")
    } else {
        ("` is an operation on sets, and `", "` is a map")
    };
    advice.say(&["`", around.second, works, around.found, is])
}

const MORE_TURNS: &str = "a loop has from 1 to 1000 turns: for more, put it into another one";

/// How large a number may be.
pub(crate) fn number(advice: &mut Advice, source: &str, at: u32) -> Result<(), NoMemory>
    requires { length source.now ≤ max_input }
{
    match tokens_around(source, at).last {
        "repeat" => advice.say(&[MORE_TURNS]),
        _ => advice.say(&["a number is from -9223372036854775808 to 9223372036854775807"]),
    }
}

/// How many blocks, parentheses or signs there may be.
pub(crate) fn nesting(advice: &mut Advice, source: &str, at: u32) -> Result<(), NoMemory>
    requires { length source.now ≤ max_input }
{
    match tokens_around(source, at).found {
        "{" => advice.say(&[
            "at most 16 blocks stand in one another, a handler's own being the first",
        ]),
        "(" => advice.say(&[
            "at most 16 parentheses are open at once: give a part a name with `let` first",
        ]),
        _ => advice.say(&[
            "an expression has at most 64 signs: give a part a name with `let` first",
        ]),
    }
}

/// How often a loop may turn.
pub(crate) fn turns(advice: &mut Advice, source: &str, at: u32) -> Result<(), NoMemory>
    requires { length source.now ≤ max_input }
{
    match tokens_around(source, at).found {
        "0" => advice.say(&["a loop has from 1 to 1000 turns: one without a turn is left out"]),
        _ => advice.say(&[MORE_TURNS]),
    }
}
