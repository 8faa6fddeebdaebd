// Serving alone: from a source to the lines of the replies, or of the final tables.

ghost use Rattle.std.specs.Prelude.{◌≡◌, ◌≤◌, ℕ, IfOk, Some, length};
ghost use Rattle.session_values.specs.Limits.{max_input};
ghost use Rattle.session_journal.specs.Script.{session_of};
ghost use Rattle.handler_machine.specs.Scripts.{meaning};
ghost use Rattle.byte_ends.specs.Changes.{change};
ghost use Rattle.serve_single.specs.Runs.{AnswersSingle, RunsSingle};
ghost use Rattle.serve_single.specs.Serving.{AreServed, CanServe, EndsOrWants, asked_text, script_of_loaded, serving};

use crate::ending::ended;
use crate::running::{Served, serve_tickets};
use crate::writing::write_asked;
use byte_ends::{Sink, Source};
use handler_machine::Scripts;
use serve_faults::Status;
use serve_reading::{Loaded, load_session, read_at_most};
use session_values::{MAX_INPUT, NoMemory};
use std::alloc::Global;

/// Reads a session file, serves its requests one at a time, and writes their replies; with `tables`
/// the final tables.
pub(crate) fn serve_source<I: Source, O: Sink>(
    alloc: Global,
    tables: bool,
    source: &mut I,
    out: &mut O,
) -> Status
    ensures { (callers shards : ℕ) → RunsSingle (Some (serving tables callers shards))
        (change I.left I.faults source.old source.new)
        (change O.held O.faults out.old out.new) result }
{
    match read_at_most(alloc, source, MAX_INPUT) {
        Ok(bytes) => serve_input(alloc, tables, bytes.as_slice(), out),
        Err(status) => status,
    }
}

/// Serves the requests of a session file's bytes.
pub(crate) fn serve_input<O: Sink>(alloc: Global, tables: bool, bytes: &[u8], out: &mut O) -> Status
    requires { length bytes.now ≤ max_input }
    ensures { (callers shards : ℕ) → AnswersSingle (serving tables callers shards) bytes.now
        (change O.held O.faults out.old out.new) result }
{
    match load_session(alloc, bytes) {
        Ok(loaded) => serve_loaded(alloc, tables, &loaded, out),
        Err(e) => ended(e),
    }
}

// Serves what was loaded. Nothing is written before all is served.
fn serve_loaded<O: Sink>(alloc: Global, tables: bool, loaded: &Loaded, out: &mut O) -> Status
    requires { CanServe loaded.now }
    ensures { EndsOrWants (asked_text tables loaded.now.names loaded.now.program.file
        (session_of (meaning (script_of_loaded loaded.now))))
        (change O.held O.faults out.old out.new) result }
{
    match served(alloc, loaded) {
        Ok(served) => write_asked(alloc, tables, loaded, &served, out),
        Err(_) => Status::NoMemory,
    }
}

// What serving what was loaded leaves.
fn served(alloc: Global, loaded: &Loaded) -> Result<Served, NoMemory>
    requires { CanServe loaded.now }
    ensures { IfOk result (λ s. AreServed (meaning (script_of_loaded loaded.now))
        (meaning (script_of_loaded loaded.now)).requests s.replies.items
        s.tables) }
{
    let scripts = Scripts::over(&loaded.program, &loaded.opening, &loaded.requests);
    serve_tickets(alloc, &scripts)
}
