// The top call.

ghost use Rattle.std.specs.Prelude.{◌≡◌, ◌+◌, map, string_bytes, option_map, MatchResult};
ghost use Rattle.byte_ends.specs.Changes.{change};
ghost use Rattle.byte_ends.specs.Ends.{ConsumedAtMost};
ghost use Rattle.serve_faults.specs.ExitStatus.{exit_status};
ghost use Rattle.serve_faults.specs.declared.status.Status.TheVariants.{NoMemory};
ghost use Rattle.foresight_waits.specs.Commands.{asked_option};
ghost use Rattle.foresight_waits.specs.Endings.{EndsWithLine};
ghost use Rattle.foresight_waits.specs.Runs.{Ends, EndsWithoutRun, Runs, RunsAsked, Tells, most as most_bytes};

use crate::command::{Command, Subject, command_of};
use crate::ending::{tell, written};
use crate::showing::{most, show};
use byte_ends::{Sink, Source};
use serve_faults::Status;
use serve_reading::read_at_most;
use standard_streams::{Opened, OpensFiles};
use std::alloc::{AllocError, Global};
use waiting_pairs::Form;

/// Runs the words of a command line as `run` does, and gives the number with which the program
/// ends: that of the run's status. Where a word is no text, that is no command line; where there was
/// no memory for the words, it tells so.
#[tactic(auto, using(crate::proofs::EndLemmas::ends_as_run, crate::proofs::EndLemmas::ends_without_run))]
pub(crate) fn exit_number<I: Source, F: OpensFiles, O: Sink, E: Sink>(
    alloc: Global,
    words: Result<Option<Vec<String>>, AllocError>,
    source: &mut I,
    files: &mut F,
    out: &mut O,
    err: &mut E,
) -> u8
    ensures { MatchResult words
        (λ given. Ends (option_map (λ list. map string_bytes list.items) given)
        (change I.left I.faults source.old source.new)
        (change F.left F.faults files.old files.new) (F.bytes_of files.old)
        (change O.held O.faults out.old out.new) (change E.held E.faults err.old err.new) result)
        (λ _. EndsWithoutRun (change I.left I.faults source.old source.new)
        (change F.left F.faults files.old files.new)
        (change O.held O.faults out.old out.new) (change E.held E.faults err.old err.new)
        NoMemory result) }
{
    match words {
        Ok(Some(list)) => run(alloc, &list, source, files, out, err).number(),
        Ok(None) => without_run(Status::Usage, err),
        Err(_) => without_run(Status::NoMemory, err),
    }
}

// Tells that a run ended so, and gives its number.
fn without_run<E: Sink>(status: Status, err: &mut E) -> u8
    ensures line { EndsWithLine (change E.held E.faults err.old err.new) status }
    ensures number { result ≡ exit_status status }
{
    tell(&status, err);
    status.number()
}

/// All that the program does: `words` are those after the program's name. It reads an input from
/// `source`, or the file with the name that is the last word; it writes to `out` who waits or who
/// waited for whom, or the version, and one line to `err` if it hasn't written all. Its promises
/// stand by name in `specs/Runs.antt`.
fn run<I: Source, F: OpensFiles, O: Sink, E: Sink>(
    alloc: Global,
    words: &Vec<String>,
    source: &mut I,
    files: &mut F,
    out: &mut O,
    err: &mut E,
) -> Status
    ensures runs { Runs (map string_bytes words.now.items) (change I.left I.faults source.old source.new)
        (change F.left F.faults files.old files.new) (F.bytes_of files.old)
        (change O.held O.faults out.old out.new) result }
    ensures line { EndsWithLine (change E.held E.faults err.old err.new) result }
{
    let status = answer(alloc, command_of(words.as_slice()), source, files, out);
    tell(&status, err);
    status
}

// What is done for this command.
fn answer<I: Source, F: OpensFiles, O: Sink>(
    alloc: Global,
    command: Option<Command<'_>>,
    source: &mut I,
    files: &mut F,
    out: &mut O,
) -> Status
    ensures { RunsAsked (asked_option command.entry) (change I.left I.faults source.old source.new)
        (change F.left F.faults files.old files.new) (F.bytes_of files.old)
        (change O.held O.faults out.old out.new) result }
{
    match command {
        Some(Command::Tell(subject, form, None)) => tell_of(alloc, subject, form, source, out),
        Some(Command::Tell(subject, form, Some(name))) => {
            tell_of_file(alloc, subject, form, name, files, out)
        }
        Some(Command::Version) => written(out, b"foresight_waits 2.1\n"),
        None => Status::Usage,
    }
}

// Tells of all that this source has.
fn tell_of<I: Source, O: Sink>(
    alloc: Global,
    subject: Subject,
    form: Form,
    source: &mut I,
    out: &mut O,
) -> Status
    ensures tells { Tells subject form (I.left source.old)
        (change I.left I.faults source.old source.new)
        (change O.held O.faults out.old out.new) result }
    ensures lost { ConsumedAtMost (I.left source.old) (I.left source.new) (most_bytes subject + 1) }
{
    match read_at_most(alloc, source, most(subject)) {
        Ok(bytes) => show(alloc, subject, form, &bytes, out),
        Err(status) => status,
    }
}

// Tells of the file with this name.
fn tell_of_file<F: OpensFiles, O: Sink>(
    alloc: Global,
    subject: Subject,
    form: Form,
    name: &str,
    files: &mut F,
    out: &mut O,
) -> Status
    ensures { Tells subject form (F.bytes_of files.old name.now)
        (change F.left F.faults files.old files.new)
        (change O.held O.faults out.old out.new) result }
{
    match files.open(name) {
        Opened::Open => tell_of(alloc, subject, form, files, out),
        Opened::Failed => Status::ReadFault,
        Opened::NoMemory => Status::NoMemory,
    }
}
