// From the bytes of a file to the text that tells who waited for whom.

ghost use Rattle.std.specs.Prelude.{◌≡◌, ◌≤◌, IfErr, IfOk, length, map};
ghost use Rattle.serve_faults.specs.Input.{IsInput, max_audit_input};
ghost use Rattle.serve_faults.specs.Command.TheVariants.{Audit};
ghost use Rattle.serve_reading.specs.Reasons.{IsReason};
ghost use Rattle.waiting_pairs.specs.TraceTold.{IsToldOf, IsTraceTold, text_in};

use crate::Form;
use crate::count_json::delay_json;
use crate::count_lines::delay_lines;
use crate::counts::{Counts, counts_of};
use serve_reading::{Audited, LoadError, Program, load_audited};
use session_values::{Names, NoMemory};
use std::alloc::Global;

/// The text that tells who waited for whom in the trace that a session file ends in, in this form.
pub fn told_trace(alloc: Global, form: Form, bytes: &[u8]) -> Result<Vec<u8>, LoadError>
    requires { length bytes.now ≤ max_audit_input }
    ensures input { IfOk result (λ _. IsInput Audit bytes.now) }
    ensures told { IfOk result (λ text. IsTraceTold form bytes.now text.items) }
    ensures refused { IfErr result (IsReason Audit bytes.now) }
{
    let audited = load_audited(alloc, bytes)?;
    let text = told_of(alloc, form, &audited)?;
    Ok(text)
}

/// The text that tells who waited for whom in a trace, in this form.
fn told_of(alloc: Global, form: Form, audited: &Audited) -> Result<Vec<u8>, NoMemory>
    ensures { IfOk result (λ text. IsToldOf form audited.now text.items) }
{
    let counts = counts_of(alloc, &audited.requests, audited.trace.events())?;
    delay_text(alloc, form, &audited.program, &audited.names, &counts)
}

/// The text that tells of what was counted, in this form.
fn delay_text(
    alloc: Global,
    form: Form,
    program: &Program,
    names: &Names,
    counts: &Counts,
) -> Result<Vec<u8>, NoMemory>
    ensures { IfOk result (λ text. text.items ≡ text_in form names.now program.now.file
        counts.now.delays counts.now.rows.items (map (λ c. c.items) counts.now.chains.items)) }
{
    match form {
        Form::Lines => delay_lines(alloc, program, names, counts),
        Form::Json => delay_json(alloc, program, names, counts),
    }
}
