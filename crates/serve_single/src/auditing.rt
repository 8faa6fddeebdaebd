// Audits: from a source to what is judged of the trace with which a session file ends.

ghost use Rattle.std.specs.Prelude.{◌≡◌, ◌≤◌, IfOk, Some, length};
ghost use Rattle.session_journal.specs.Bare.{bare_script};
ghost use Rattle.session_journal.specs.Verdicts.{IsVerdict};
ghost use Rattle.handler_machine.specs.Scripts.{meaning};
ghost use Rattle.session_journal.specs.Script.{session_of};
ghost use Rattle.serve_faults.specs.Command.TheVariants.{Audit};
ghost use Rattle.byte_ends.specs.Changes.{change};
ghost use Rattle.serve_faults.specs.Input.{max_audit_input};
ghost use Rattle.serve_single.specs.Auditing.{AuditEnds, CanJudge, script_of_audited};
ghost use Rattle.serve_single.specs.Runs.{AnswersSingle, RunsSingle};

use crate::ending::ended;
use byte_ends::{Sink, Source, write_all};
use handler_machine::Scripts;
use serve_faults::{MAX_AUDIT_INPUT, Status};
use serve_reading::{Audited, load_audited, read_at_most};
use session_journal::Verdict;
use session_values::NoMemory;
use std::alloc::Global;
use trace_audit::judge_session;
use trace_lines::verdict_line;

/// Reads a session file that ends in a trace, and writes what is judged of the trace.
pub(crate) fn audit_source<I: Source, O: Sink>(alloc: Global, source: &mut I, out: &mut O) -> Status
    ensures { RunsSingle (Some Audit)
        (change I.left I.faults source.old source.new)
        (change O.held O.faults out.old out.new) result }
{
    match read_at_most(alloc, source, MAX_AUDIT_INPUT) {
        Ok(bytes) => audit_input(alloc, bytes.as_slice(), out),
        Err(status) => status,
    }
}

/// Writes what is judged of the trace of a file's bytes.
pub(crate) fn audit_input<O: Sink>(alloc: Global, bytes: &[u8], out: &mut O) -> Status
    requires { length bytes.now ≤ max_audit_input }
    ensures { AnswersSingle Audit bytes.now
        (change O.held O.faults out.old out.new) result }
{
    match load_audited(alloc, bytes) {
        Ok(audited) => audit_loaded(alloc, &audited, out),
        Err(e) => ended(e),
    }
}

// Writes what is judged of a trace that was loaded.
fn audit_loaded<O: Sink>(alloc: Global, audited: &Audited, out: &mut O) -> Status
    requires { CanJudge audited.now }
    ensures { AuditEnds audited.now (change O.held O.faults out.old out.new) result }
{
    match judged(alloc, audited) {
        Ok(verdict) => write_verdict(audited, verdict, out),
        Err(_) => Status::NoMemory,
    }
}

// What is judged of a trace that was loaded.
fn judged(alloc: Global, audited: &Audited) -> Result<Verdict, NoMemory>
    requires { CanJudge audited.now }
    ensures { IfOk result
        (IsVerdict (meaning (script_of_audited audited.now)) audited.now.trace.events) }
{
    let scripts = Scripts::over(&audited.program, &audited.opening, &audited.requests);
    judge_session(alloc, &scripts, &audited.trace)
}

// Writes the line of a verdict.
#[tactic(auto, using(crate::proofs::AuditLemmas::verdict_written, crate::proofs::AuditLemmas::verdict_front))]
fn write_verdict<O: Sink>(audited: &Audited, verdict: Verdict, out: &mut O) -> Status
    requires { IsVerdict (meaning (script_of_audited audited.now)) audited.now.trace.events verdict }
    ensures { AuditEnds audited.now (change O.held O.faults out.old out.new) result }
{
    let line = verdict_line(&audited.trace, verdict);
    if write_all(out, line.as_str().as_bytes()) {
        Status::Fine
    } else {
        Status::WriteFault
    }
}
