// Reading a session: from the bytes of a session file to what can be served.

ghost use Rattle.std.specs.Prelude.{◌≤◌, ◌*◌, length, IfOk, IfErr};
ghost use Rattle.session_values.specs.Limits.{max_input};
ghost use Rattle.serve_faults.specs.Input.{parts_by, parts_of};
ghost use Rattle.serve_reading.specs.Sessions.{AreHandlersFirst, IsLoaded, IsSessionInput};
ghost use Rattle.serve_reading.specs.Reasons.{IsInputReason, IsSessionReason};

use crate::load_error::LoadError;
use crate::naming::names_of_input;
use crate::program::read_program;
use declaration_insertion::Program;
use request_files::{Divided, Requests, divide, read_requests};
use serve_faults::Fault;
use session_values::{Names, Opening};
use std::alloc::Global;
use table_lines::read_tables;

/// A session that can be served.
#[derive(Drop)]
pub struct Loaded {
    pub names: Names,
    /// How many of the names are those of the handlers' part: they stand before the others.
    pub handler_names: u32,
    pub program: Program,
    /// The entries with which the tables open.
    pub opening: Opening,
    pub requests: Requests,
}

/// The session of a session file's bytes.
pub fn load_session(alloc: Global, bytes: &[u8]) -> Result<Loaded, LoadError>
    requires { length bytes.now ≤ max_input }
    ensures input { IfOk result (λ _. IsSessionInput bytes.now) }
    ensures loaded { IfOk result (IsLoaded (parts_of bytes.now)) }
    ensures first { IfOk result (AreHandlersFirst (parts_of bytes.now)) }
    ensures refused { IfErr result (IsInputReason bytes.now) }
{
    let Ok(text) = std::str::from_utf8(bytes) else {
        return Err(LoadError::Refused(Fault::NotText));
    };
    let Some(parts) = divide(text) else {
        return Err(LoadError::Refused(Fault::NoRequests));
    };
    read_session(alloc, parts)
}

/// The session of a file's parts.
pub(crate) fn read_session(alloc: Global, parts: Divided<'_>) -> Result<Loaded, LoadError>
    ensures loaded { IfOk result (IsLoaded (parts_by parts.entry.handlers.now parts.entry.tables.now
        parts.entry.requests.now parts.entry.first_table parts.entry.first)) }
    ensures first { IfOk result (AreHandlersFirst (parts_by parts.entry.handlers.now
        parts.entry.tables.now parts.entry.requests.now parts.entry.first_table
        parts.entry.first)) }
    ensures few { IfOk result (λ l. length l.names ≤ 3 * max_input) }
    ensures refused { IfErr result (IsSessionReason (parts_by parts.entry.handlers.now
        parts.entry.tables.now parts.entry.requests.now parts.entry.first_table
        parts.entry.first)) }
{
    let mut names = names_of_input(alloc, parts.handlers, parts.tables, parts.requests);
    let program = read_program(alloc, parts.handlers, &mut names)?;
    let handler_names = names.len();
    let checked = program.checked();
    let opening = read_tables(alloc, checked, parts.tables, parts.first_table, &mut names)?;
    let requests = read_requests(alloc, checked, parts.requests, parts.first, &mut names)?;
    Ok(Loaded {
        names,
        handler_names,
        program,
        opening,
        requests,
    })
}
