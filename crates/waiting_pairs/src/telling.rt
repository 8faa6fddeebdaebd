// From the bytes of a file to the text that tells who waits for whom.

ghost use Rattle.std.specs.Prelude.{◌≡◌, ◌<◌, ◌≤◌, IfErr, IfOk, length};
ghost use Rattle.session_values.specs.Limits.{max_input};
ghost use Rattle.serve_reading.specs.Reasons.{IsProgramReason};
ghost use Rattle.waiting_pairs.specs.Told.{IsTold, IsToldOf, IsUntold, handlers_of, text_in};

use crate::form::Form;
use crate::json::wait_json;
use crate::lines::wait_lines;
use crate::waiting::{Wait, waits};
use serve_reading::{Fault, LoadError, Program, divide, names_of_input, read_program};
use session_values::{Names, NoMemory};
use std::alloc::Global;

/// The handlers of a file: of a session file what stands before its tables and requests.
#[tactic(auto, using(crate::proofs::Fronts::front_divided, crate::proofs::Fronts::front_undivided))]
fn handlers_part(text: &str) -> &str
    requires { length text.now ≤ max_input }
    ensures part { result.now ≡ handlers_of text.now }
    ensures short { length result.now ≤ max_input }
{
    match divide(text) {
        Some(parts) => parts.handlers,
        None => text,
    }
}

/// The text that tells who waits for whom in the handlers of a file, in this form.
pub fn told(alloc: Global, form: Form, bytes: &[u8]) -> Result<Vec<u8>, LoadError>
    requires { length bytes.now ≤ max_input }
    ensures told { IfOk result (λ text. IsTold form bytes.now text.items) }
    ensures refused { IfErr result (IsUntold bytes.now) }
{
    let Ok(text) = std::str::from_utf8(bytes) else {
        return Err(LoadError::Refused(Fault::NotText));
    };
    match told_of(alloc, form, handlers_part(text)) {
        Ok(told) => Ok(told),
        Err(e) => Err(e),
    }
}

/// The text that tells who waits for whom in handlers, in this form.
fn told_of(alloc: Global, form: Form, text: &str) -> Result<Vec<u8>, LoadError>
    requires { length text.now ≤ max_input }
    ensures told { IfOk result (λ told. IsToldOf form text.now told.items) }
    ensures refused { IfErr result (IsProgramReason text.now) }
{
    let mut names = names_of_input(alloc, text, "", "");
    let program = read_program(alloc, text, &mut names)?;
    let found = waits(alloc, &program)?;
    let told = wait_text(alloc, form, &program, &names, text.as_bytes(), &found)?;
    Ok(told)
}

/// The text that tells of these waits, in this form.
fn wait_text(
    alloc: Global,
    form: Form,
    program: &Program,
    names: &Names,
    text: &[u8],
    waits: &[Wait],
) -> Result<Vec<u8>, NoMemory>
    requires { length text.now < 4294967296 }
    ensures { IfOk result (λ told. told.items
        ≡ text_in form names.now program.now.file text.now waits.now) }
{
    match form {
        Form::Lines => wait_lines(alloc, program, names, text, waits),
        Form::Json => wait_json(alloc, program, names, text, waits),
    }
}
