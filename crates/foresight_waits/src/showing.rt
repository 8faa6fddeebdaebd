// What is written for an input.

ghost use Rattle.std.specs.Prelude.{◌≡◌, ◌≤◌, IfOk, IfErr, length};
ghost use Rattle.byte_ends.specs.Changes.{change};
ghost use Rattle.foresight_waits.specs.Runs as spec;

use crate::command::Subject;
use crate::ending::written;
use byte_ends::Sink;
use serve_faults::Status;
use serve_reading::LoadError;
use std::alloc::Global;
use waiting_pairs::{Form, MAX_AUDIT_INPUT, MAX_INPUT, told, told_trace};

/// The most bytes of an input.
pub(crate) fn most(subject: Subject) -> usize
    ensures { result ≡ spec.most subject }
{
    match subject {
        Subject::Waits => MAX_INPUT,
        Subject::Delays => MAX_AUDIT_INPUT,
    }
}

/// The text that tells of an input in this form.
fn text_of(alloc: Global, subject: Subject, form: Form, input: &[u8]) -> Result<Vec<u8>, LoadError>
    requires { length input.now ≤ spec.most subject }
    ensures told { IfOk result (λ text. spec.IsTextOf subject form input.now text.items) }
    ensures refused { IfErr result (spec.IsReasonOf subject input.now) }
{
    match subject {
        Subject::Waits => told(alloc, form, input),
        Subject::Delays => told_trace(alloc, form, input),
    }
}

/// Tells of an input in this form.
#[tactic(auto, using(crate::proofs::ShowLemmas::shows_refusal, crate::proofs::ShowLemmas::shows_nothing))]
pub(crate) fn show<O: Sink>(
    alloc: Global,
    subject: Subject,
    form: Form,
    input: &[u8],
    out: &mut O,
) -> Status
    requires { length input.now ≤ spec.most subject }
    ensures { spec.Shows subject form input.now (change O.held O.faults out.old out.new) result }
{
    match text_of(alloc, subject, form, input) {
        Ok(text) => written(out, &text),
        Err(LoadError::Refused(fault)) => Status::Refused(fault),
        Err(LoadError::NoMemory) => Status::NoMemory,
    }
}
