// Reading a session of clients: from the bytes of a session file whose requests are several clients'
// to what can be served.

ghost use Rattle.std.specs.Prelude.{◌≤◌, ℕ, length, IfOk, IfErr};
ghost use Rattle.session_values.specs.Limits.{max_input};
ghost use Rattle.request_files.specs.Clients.{marks_in, unmarked};
ghost use Rattle.request_files.specs.Text.{lines};
ghost use Rattle.serve_faults.specs.Command.TheVariants.{Clients};
ghost use Rattle.serve_faults.specs.Input.{IsInput, parts_by};
ghost use Rattle.serve_reading.specs.Clients.{AreClients, IsLoadedClients};
ghost use Rattle.serve_reading.specs.Reasons.{IsReason, IsSessionReason};

use crate::load_error::LoadError;
use crate::naming::names_of_input;
use crate::program::read_program;
use declaration_insertion::Program;
use request_files::{ClientRequests, Divided, count_marks, divide, read_clients};
use serve_faults::Fault;
use session_values::{Names, Opening};
use std::alloc::Global;
use table_lines::read_tables;

/// A session whose requests are several clients'.
#[derive(Drop)]
pub struct LoadedClients {
    pub names: Names,
    pub program: Program,
    /// The entries with which the tables open.
    pub opening: Opening,
    pub clients: ClientRequests,
}

/// The session of clients of a session file's bytes.
pub fn load_clients(alloc: Global, bytes: &[u8]) -> Result<LoadedClients, LoadError>
    requires { length bytes.now ≤ max_input }
    ensures input { IfOk result (λ _. (callers shards : ℕ)
        → IsInput (Clients callers shards) bytes.now) }
    ensures loaded { IfOk result (IsLoadedClients bytes.now) }
    ensures refused { IfErr result (λ e. (callers shards : ℕ)
        → IsReason (Clients callers shards) bytes.now e) }
{
    let Ok(text) = std::str::from_utf8(bytes) else {
        return Err(LoadError::Refused(Fault::NotText));
    };
    let Some(parts) = divide(text) else {
        return Err(LoadError::Refused(Fault::NoRequests));
    };
    // Between 16 clients stand 15 marks.
    if count_marks(parts.requests) > 15 {
        return Err(LoadError::Refused(Fault::TooManyClients));
    }
    read_clients_session(alloc, parts)
}

/// The session of clients of a file's parts.
fn read_clients_session(alloc: Global, parts: Divided<'_>) -> Result<LoadedClients, LoadError>
    requires marks { marks_in (lines parts.requests.now) ≤ 15 }
    ensures loaded { IfOk result (AreClients (parts_by parts.entry.handlers.now
        parts.entry.tables.now parts.entry.requests.now parts.entry.first_table
        parts.entry.first)) }
    ensures refused { IfErr result (IsSessionReason (parts_by parts.entry.handlers.now
        parts.entry.tables.now (unmarked parts.entry.requests.now) parts.entry.first_table
        parts.entry.first)) }
{
    let mut names = names_of_input(alloc, parts.handlers, parts.tables, parts.requests);
    let program = read_program(alloc, parts.handlers, &mut names)?;
    let checked = program.checked();
    let opening = read_tables(alloc, checked, parts.tables, parts.first_table, &mut names)?;
    let clients = read_clients(alloc, checked, parts.requests, parts.first, &mut names)?;
    Ok(LoadedClients {
        names,
        program,
        opening,
        clients,
    })
}
