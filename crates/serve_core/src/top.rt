// The top call.

ghost use Rattle.std.specs.Prelude.{map, string_bytes, IfSome, MatchResult};
ghost use Rattle.serve_words.specs.Commands as commands;
ghost use Rattle.byte_ends.specs.Changes.{change};
ghost use Rattle.serve_single.specs.Runs.{Tells};
ghost use Rattle.serve_core.specs.Endings.{EndsAsRun, EndsWithoutWords};
ghost use Rattle.serve_core.specs.Runs.{Runs};

use crate::asked::Writes;
use crate::outcome::{Outcome, unserved};
use crate::serving::serve_source;
use crate::working::work;
use byte_ends::{Sink, Source, SureSink};
use client_feed::Resources;
use hall_serving::Sizes;
use serve_faults::Status;
use serve_single::{audit, describe, ranges, tell};
use serve_words::{Command, command_of};
use std::alloc::{AllocError, Global};
use std::sync::Wait;
use std::thread::Threads;
use worker_gate::Gate;

/// All that the program does: `words` are those after the program's name. It reads an input from
/// `source`, writes the command's text to `out` and, where it doesn't end well, one line to `err`;
/// callers that serve pass the gate at each of its places. Its promises stand by name in
/// `specs/Runs.antt`: served, ticketed, hall and traced; and, under `single`, in that of
/// `serve_single`: usage, unread and made; fine, refused and front; refusing and complete;
/// read_fault, read_well, write_fault, written_well and unwritten; end, gone and lost; and, of the
/// line, line and quiet.
pub fn run<R: Threads + Wait + Sync, I: Source, O: Sink, E: Sink, G: Gate + Sync>(
    rt: &R,
    alloc: Global,
    words: &Vec<String>,
    source: &mut I,
    out: &mut O,
    err: &mut E,
    gate: &G,
) -> Outcome
    ensures runs { Runs (commands.command_of (map string_bytes words.now.items))
        (change I.left I.faults source.old source.new)
        (change O.held O.faults out.old out.new) result.status result.closed }
    ensures tells { Tells (change E.held E.faults err.old err.new) result.status }
{
    let by = Resources { rt, alloc, gate };
    let outcome = answer(&by, command_of(words.as_slice()), source, out);
    tell(&outcome.status, err);
    outcome
}

// What a command answers, if there is one. The line that tells how it ended is left to the caller.
#[tactic(auto, using(crate::proofs::RunLemmas::without_hall))]
fn answer<R: Threads + Wait + Sync, I: Source, O: Sink, G: Gate + Sync>(
    by: &Resources<'_, R, G>,
    command: Option<Command>,
    source: &mut I,
    out: &mut O,
) -> Outcome
    requires { IfSome command commands.IsWithinBounds }
    ensures { Runs command
        (change I.left I.faults source.old source.new)
        (change O.held O.faults out.old out.new) result.status result.closed }
{
    match command {
        Some(Command::Check) => unserved(describe(by.alloc, false, source, out, &mut SureSink)),
        Some(Command::Show) => unserved(describe(by.alloc, true, source, out, &mut SureSink)),
        Some(Command::Serve { callers, shards }) => {
            serve_source(by, Writes::Replies, Sizes { callers, shards }, source, out)
        }
        Some(Command::Dump { callers, shards }) => {
            serve_source(by, Writes::Tables, Sizes { callers, shards }, source, out)
        }
        Some(Command::Work { requests, start }) => work(by, requests, start, out),
        Some(Command::Ranges) => unserved(ranges(by.alloc, source, out, &mut SureSink)),
        Some(Command::Trace { callers, shards }) => {
            serve_source(by, Writes::Events, Sizes { callers, shards }, source, out)
        }
        Some(Command::Audit) => unserved(audit(by.alloc, source, out, &mut SureSink)),
        Some(Command::Clients { callers, shards }) => {
            let sizes = Sizes { callers, shards };
            serve_source(by, Writes::ClientReplies, sizes, source, out)
        }
        None => unserved(Status::Usage),
    }
}

/// Runs the words of a command line as `run` does, and gives the number with which the program
/// ends: that of the run's status. Where there was no memory for the words it tells so, and the
/// number is that of no memory.
#[tactic(auto, using(crate::proofs::ProgramEnds::ends_as_run, crate::proofs::ProgramEnds::ends_without_words))]
pub fn exit_number<R: Threads + Wait + Sync, I: Source, O: Sink, E: Sink, G: Gate + Sync>(
    rt: &R,
    alloc: Global,
    words: Result<Vec<String>, AllocError>,
    source: &mut I,
    out: &mut O,
    err: &mut E,
    gate: &G,
) -> u8
    ensures { MatchResult words
        (λ list. EndsAsRun (map string_bytes list.items)
        (change I.left I.faults source.old source.new)
        (change O.held O.faults out.old out.new) (change E.held E.faults err.old err.new) result)
        (λ _. EndsWithoutWords (change I.left I.faults source.old source.new)
        (change O.held O.faults out.old out.new) (change E.held E.faults err.old err.new)
        result) }
{
    match words {
        Ok(list) => {
            let outcome = run(rt, alloc, &list, source, out, err, gate);
            outcome.status.number()
        }
        Err(_) => {
            let status = Status::NoMemory;
            tell(&status, err);
            status.number()
        }
    }
}
