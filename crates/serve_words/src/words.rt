// The command of a command line.

ghost use Rattle.std.specs.Prelude.{◌≡◌, ◌≤◌, map, string_bytes, IfSome};
ghost use Rattle.session_values.specs.Limits.{max_callers, max_shards};
ghost use Rattle.serve_words.specs.Commands as spec;

use crate::command::Command;
use crate::number::number_within;
use session_values::{MAX_CALLERS, MAX_REQUESTS, MAX_SHARDS};

/// How many callers serve where the words don't say, and over how many shards a table.
const USUAL: u32 = 4;

/// The line that tells the command lines, with its line feed.
pub fn usage_line() -> &'static str
    ensures { result.now ≡ spec.usage_line }
{
    "usage: foresight check | show | serve [--callers N] [--shards S] \
     | dump [--callers N] [--shards S] | work N START | ranges \
     | trace [--callers N] [--shards S] | audit \
     | clients [--callers N] [--shards S]\n"
}

/// The command of a command line, if it is one; the words are those after the program's name.
pub fn command_of(words: &[String]) -> Option<Command>
    ensures command { result ≡ spec.command_of (map string_bytes words.now) }
    ensures bounds { IfSome result spec.IsWithinBounds }
{
    match words {
        [word] => alone(word.as_str()),
        [word, more @ ..] => followed(word.as_str(), more),
        [] => None,
    }
}

/// The command of a word and those behind it.
#[tactic(auto, unfolding(crate::specs::Commands::followed))]
fn followed(word: &str, more: &[String]) -> Option<Command>
    ensures command { result ≡ spec.followed word.now (map string_bytes more.now) }
    ensures bounds { IfSome result spec.IsWithinBounds }
{
    if word == "serve" {
        serve_of(more)
    } else if word == "dump" {
        dump_of(more)
    } else if word == "trace" {
        trace_of(more)
    } else if word == "clients" {
        clients_of(more)
    } else if word == "work" {
        work_line(more)
    } else {
        None
    }
}

/// The command of one word.
fn alone(word: &str) -> Option<Command>
    ensures command { result ≡ spec.alone word.now }
    ensures bounds { IfSome result spec.IsWithinBounds }
{
    if word == "check" {
        Some(Command::Check)
    } else if word == "show" {
        Some(Command::Show)
    } else if word == "serve" {
        serve_of(&[])
    } else if word == "dump" {
        dump_of(&[])
    } else if word == "ranges" {
        Some(Command::Ranges)
    } else if word == "trace" {
        trace_of(&[])
    } else if word == "audit" {
        Some(Command::Audit)
    } else if word == "clients" {
        clients_of(&[])
    } else {
        None
    }
}

/// Serving by the options behind the word `serve`.
fn serve_of(options: &[String]) -> Option<Command>
    ensures command { result ≡ spec.serve_of (map string_bytes options.now) }
    ensures bounds { IfSome result spec.IsWithinBounds }
{
    let (callers, shards) = sizes_of(options)?;
    Some(Command::Serve { callers, shards })
}

/// Dumping by the options behind the word `dump`.
fn dump_of(options: &[String]) -> Option<Command>
    ensures command { result ≡ spec.dump_of (map string_bytes options.now) }
    ensures bounds { IfSome result spec.IsWithinBounds }
{
    let (callers, shards) = sizes_of(options)?;
    Some(Command::Dump { callers, shards })
}

/// Tracing by the options behind the word `trace`.
fn trace_of(options: &[String]) -> Option<Command>
    ensures command { result ≡ spec.trace_of (map string_bytes options.now) }
    ensures bounds { IfSome result spec.IsWithinBounds }
{
    let (callers, shards) = sizes_of(options)?;
    Some(Command::Trace { callers, shards })
}

/// Serving several clients by the options behind the word `clients`.
fn clients_of(options: &[String]) -> Option<Command>
    ensures command { result ≡ spec.clients_of (map string_bytes options.now) }
    ensures bounds { IfSome result spec.IsWithinBounds }
{
    let (callers, shards) = sizes_of(options)?;
    Some(Command::Clients { callers, shards })
}

/// How many callers serve, and over how many shards a table, by the options.
fn sizes_of(options: &[String]) -> Option<(u32, u32)>
    ensures sizes { result ≡ spec.sizes_of (map string_bytes options.now) }
    ensures bounds { IfSome result (λ p. spec.AreSizes p.0 p.1) }
{
    match options {
        [] => Some((USUAL, USUAL)),
        [option, number] => sizes_by_one(option.as_str(), number.as_str()),
        [first, callers, second, shards] => {
            if first.as_str() == "--callers" && second.as_str() == "--shards" {
                both(
                    number_within(1, MAX_CALLERS, callers.as_str()),
                    number_within(1, MAX_SHARDS, shards.as_str()),
                )
            } else {
                None
            }
        }
        _ => None,
    }
}

/// The numbers by one option.
fn sizes_by_one(option: &str, number: &str) -> Option<(u32, u32)>
    ensures sizes { result ≡ spec.sizes_by_one option.now number.now }
    ensures bounds { IfSome result (λ p. spec.AreSizes p.0 p.1) }
{
    if option == "--callers" {
        both(number_within(1, MAX_CALLERS, number), Some(USUAL))
    } else if option == "--shards" {
        both(Some(USUAL), number_within(1, MAX_SHARDS, number))
    } else {
        None
    }
}

/// These numbers, if both are there.
fn both(callers: Option<u32>, shards: Option<u32>) -> Option<(u32, u32)>
    requires callers { IfSome callers (λ n. (1 ≤ n) × (n ≤ max_callers)) }
    requires shards { IfSome shards (λ n. (1 ≤ n) × (n ≤ max_shards)) }
    ensures sizes { result ≡ spec.both callers shards }
    ensures bounds { IfSome result (λ p. spec.AreSizes p.0 p.1) }
{
    match (callers, shards) {
        (Some(callers), Some(shards)) => Some((callers, shards)),
        _ => None,
    }
}

/// A made session by the words behind `work`.
fn work_line(words: &[String]) -> Option<Command>
    ensures command { result ≡ spec.work_line (map string_bytes words.now) }
    ensures bounds { IfSome result spec.IsWithinBounds }
{
    match words {
        [requests, start] => work_of(requests.as_str(), start.as_str()),
        _ => None,
    }
}

/// A made session of this many requests from this start, if both words say so.
fn work_of(requests: &str, start: &str) -> Option<Command>
    ensures command { result ≡ spec.work_of requests.now start.now }
    ensures bounds { IfSome result spec.IsWithinBounds }
{
    let requests = number_within(1, MAX_REQUESTS, requests)?;
    let start = number_within(0, 4294967295, start)?;
    Some(Command::Work { requests, start })
}
