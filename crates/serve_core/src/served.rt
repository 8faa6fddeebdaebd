// A session that was loaded and is served through a hall.

ghost use Rattle.std.specs.Prelude.{◌≡◌, ◌+◌, ◌<◌, ◌≤◌, ℕ, length, map, IfOk, vec_capacity};
ghost use Rattle.session_hall.specs.Closings.{IsDone};
ghost use Rattle.session_journal.specs.Opening.{entries_of};
ghost use Rattle.session_journal.specs.Script.{room};
ghost use Rattle.handler_machine.specs.Scripts.{meaning};
ghost use Rattle.serve_faults.specs.Traced.{table_places};
ghost use Rattle.serve_single.specs.Serving.{CanServe, script_of_loaded};
ghost use Rattle.serve_core.specs.Serving.{HasCapacity};

use crate::writing::Later;
use byte_ends::WriteBuffer;
use hall_serving::{OpenSession, Sizes, open_session, serve_session};
use handler_machine::Scripts;
use serve_reading::Loaded;
use session_hall::Closed;
use session_journal::Script;
use session_values::{NoMemory, Value};
use std::alloc::Global;
use std::sync::Wait;
use std::thread::Threads;
use syntax_trees::File;
use worker_gate::Gate;

/// All that serving a session's requests and writing what is asked of it takes: no memory is wanted
/// from here on.
#[derive(Drop)]
pub(crate) struct Ready<'a> {
    pub(crate) session: OpenSession<Scripts<'a>>,
    /// The session's script again, by which each ticket is served.
    pub(crate) plan: Scripts<'a>,
    /// Room for the entries of a table, where tables are to be written.
    pub(crate) entries: Vec<(Value, Value)>,
    /// Room for lines.
    pub(crate) buffer: WriteBuffer,
    /// The places of the tables' names.
    pub(crate) tables: Vec<u32>,
    ghost same: { plan ≡ session.script },
}

/// Room that is left for writing.
#[derive(Drop)]
pub(crate) struct Spare {
    /// The entries of a table.
    pub(crate) entries: Vec<(Value, Value)>,
    /// Lines.
    pub(crate) buffer: WriteBuffer,
    /// The places of the tables' names.
    pub(crate) tables: Vec<u32>,
}

/// Opens a hall of these sizes for the requests of a session that was loaded.
pub(crate) fn open_loaded<'a>(
    alloc: Global,
    sizes: Sizes,
    loaded: &'a Loaded,
    later: Later,
) -> Result<Ready<'a>, NoMemory>
    requires can { CanServe loaded.now }
    ensures script { IfOk result (λ r. r.session.script ≡ script_of_loaded loaded.now) }
    ensures room { IfOk result (λ r. HasCapacity later (meaning (script_of_loaded loaded.now))
        (vec_capacity r.entries)) }
    ensures places { IfOk result (λ r. r.tables.items ≡ table_places loaded.now.program.file) }
    ensures callers { IfOk result (λ r. r.session.callers ≡ sizes.callers) }
    ensures shards { IfOk result (λ r. r.session.shards ≡ sizes.shards) }
{
    let buffer = WriteBuffer::new(alloc)?;
    let tables = places_of(alloc, loaded.program.checked().file())?;
    let script = Scripts::over(&loaded.program, &loaded.opening, &loaded.requests);
    let plan = Scripts::over(&loaded.program, &loaded.opening, &loaded.requests);
    let shape = loaded.program.checked().shape(alloc)?;
    let entries = entries_room(alloc, &plan, shape.len() as u32, later)?;
    let session = open_session(alloc, script, shape.as_slice(), sizes)?;
    Ok(Ready {
        session,
        plan,
        entries,
        buffer,
        tables,
    })
}

// Where tables are to be written, room for the entries of each table at the end.
fn entries_room<S: Script>(
    alloc: Global,
    script: &S,
    tables: u32,
    later: Later,
) -> Result<Vec<(Value, Value)>, NoMemory>
    requires { tables ≡ length (S.meaning script.now).shape }
    ensures { IfOk result (λ v. HasCapacity later (S.meaning script.now) (vec_capacity v)) }
{
    let room = match later {
        Later::Summary { .. } => 0,
        Later::Tables => most_entries(script, tables),
        Later::Events => 0,
    };
    Ok(Vec::with_capacity(alloc, room as usize)?)
}

// The most entries of a table: those with which it opens, and those that calls may add.
fn most_entries<S: Script>(script: &S, tables: u32) -> u64
    requires { tables ≡ length (S.meaning script.now).shape }
    ensures { (t : ℕ) → t < tables → length (entries_of (S.meaning script.now).opened t)
        + room (S.meaning script.now) t ≤ result }
{
    let mut most = 0;
    for table in 0..tables {
        let entries = script.opening_len(table) as u64 + script.room(table) as u64;
        most = larger(most, entries);
    }
    most
}

// The larger of two numbers.
fn larger(a: u64, b: u64) -> u64
    ensures first { a ≤ result }
    ensures second { b ≤ result }
{
    if a < b { b } else { a }
}

/// Serves the requests of an open session, and gives the room for writing.
pub(crate) fn serve_ready<'a, R: Threads + Wait + Sync, G: Gate + Sync>(
    rt: &R,
    ready: Ready<'a>,
    gate: &G,
) -> (Closed, Spare)
    ensures done { IsDone (meaning ready.entry.session.script) result.0 }
    ensures callers { result.0.callers ≡ ready.entry.session.callers }
    ensures shards { result.0.shards ≡ ready.entry.session.shards }
    ensures room { vec_capacity result.1.entries ≡ vec_capacity ready.entry.entries }
    ensures places { result.1.tables.items ≡ ready.entry.tables.items }
{
    let Ready {
        session,
        plan,
        entries,
        buffer,
        tables,
    } = ready;
    let closed = serve_session(rt, session, &plan, gate);
    let spare = Spare {
        entries,
        buffer,
        tables,
    };
    (closed, spare)
}

// The places of the names of a file's tables.
fn places_of(alloc: Global, file: &File) -> Result<Vec<u32>, NoMemory>
    ensures { IfOk result (λ places. places.items ≡ table_places file.now) }
{
    Ok(
        file.tables
            .as_slice()
            .iter()
            .map(|t| t.name)
            .collect(alloc)?,
    )
}
