// What the program is asked to do, and which words ask for what.

ghost use Rattle.std.specs.Prelude.{◌≡◌, map, string_bytes};
ghost use Rattle.foresight_waits.specs.Commands as spec;

use waiting_pairs::Form;

/// What is told of.
#[derive(Clone, Copy, Debug, PartialEq, Eq)]
pub(crate) enum Subject {
    /// Who may wait for whom in handlers.
    Waits,
    /// Who waited for whom in a trace.
    Delays,
}

/// What the program is asked to do.
#[derive(Clone, Copy, Debug)]
pub(crate) enum Command<'a> {
    /// Tell of this in this form, of the file with this name; without one, of the input.
    Tell(Subject, Form, Option<&'a str>),
    /// Tell the program's version.
    Version,
}

/// The command of a command line, if it is one; the words are those after the program's name.
pub(crate) fn command_of(words: &[String]) -> Option<Command<'_>>
    ensures { spec.asked_option result ≡ spec.command_of (map string_bytes words.now) }
{
    match words {
        [] => Some(Command::Tell(Subject::Waits, Form::Lines, None)),
        [word] => Some(alone(word.as_str())),
        [word, name] => followed(word.as_str(), name.as_str()),
        [word, next, name] => behind_both(word.as_str(), next.as_str(), name.as_str()),
        _ => None,
    }
}

/// The command of one word.
fn alone(word: &str) -> Command<'_>
    ensures { spec.asked result ≡ spec.alone word.now }
{
    if word == "--json" {
        Command::Tell(Subject::Waits, Form::Json, None)
    } else if word == "--trace" {
        Command::Tell(Subject::Delays, Form::Lines, None)
    } else if word == "--version" {
        Command::Version
    } else {
        Command::Tell(Subject::Waits, Form::Lines, Some(word))
    }
}

/// The command of two words.
fn followed<'a>(word: &str, next: &'a str) -> Option<Command<'a>>
    ensures { spec.asked_option result ≡ spec.followed word.now next.now }
{
    if word == "--json" {
        Some(Command::Tell(Subject::Waits, Form::Json, Some(next)))
    } else if word == "--trace" {
        Some(behind_trace(next))
    } else {
        None
    }
}

/// The command of a word behind `--trace`.
fn behind_trace(word: &str) -> Command<'_>
    ensures { spec.asked result ≡ spec.behind_trace word.now }
{
    if word == "--json" {
        Command::Tell(Subject::Delays, Form::Json, None)
    } else {
        Command::Tell(Subject::Delays, Form::Lines, Some(word))
    }
}

/// The command of two words and a file's name.
fn behind_both<'a>(word: &str, next: &str, name: &'a str) -> Option<Command<'a>>
    ensures { spec.asked_option result ≡ spec.behind_both word.now next.now name.now }
{
    if word == "--trace" && next == "--json" {
        Some(Command::Tell(Subject::Delays, Form::Json, Some(name)))
    } else {
        None
    }
}
