// Sessions: from the bytes of a session file to what is written of it.

ghost use Rattle.std.specs.Prelude.{◌≡◌, ◌≤◌, length, vec_capacity};
ghost use Rattle.session_values.specs.Limits.{max_callers, max_input};
ghost use Rattle.handler_machine.specs.Scripts.{meaning};
ghost use Rattle.byte_ends.specs.Changes.{change};
ghost use Rattle.serve_faults.specs.Traced.{table_places};
ghost use Rattle.serve_core.specs.declared.writing.Writing.TheVariants.{AtEnd};
ghost use Rattle.serve_single.specs.Serving.{CanServe};
ghost use Rattle.serve_core.specs.Serving.{CanPrint, EndsAsServed, EndsLoaded, EndsSession, HasCapacity};

use crate::lines::{open_lines, serve_ready_lines};
use crate::outcome::{Outcome, unserved};
use crate::served::{Ready, open_loaded, serve_ready};
use crate::writing::{Later, Writing, write_session};
use byte_ends::Sink;
use client_feed::Resources;
use hall_serving::Sizes;
use serve_faults::Status;
use serve_reading::{Loaded, load_session};
use serve_single::ended;
use session_hall::Closed;
use std::sync::Wait;
use std::thread::Threads;
use worker_gate::Gate;

/// Serves the requests of a session file, and writes what is asked of them.
pub(crate) fn serve_bytes<R: Threads + Wait + Sync, O: Sink, G: Gate + Sync>(
    by: &Resources<'_, R, G>,
    sizes: Sizes,
    bytes: &[u8],
    writing: Writing,
    out: &mut O,
) -> Outcome
    requires short { length bytes.now ≤ max_input }
    ensures { EndsSession writing sizes.callers sizes.shards bytes.now
        (change O.held O.faults out.old out.new) result.status result.closed }
{
    let loaded = match load_session(by.alloc, bytes) {
        Ok(loaded) => loaded,
        Err(e) => return unserved(ended(e)),
    };
    match writing {
        Writing::Replies => match open_lines(by.alloc, sizes, &loaded) {
            Ok(ready) => {
                let (status, closed) = serve_ready_lines(by.rt, ready, &loaded, out, by.gate);
                Outcome {
                    status,
                    closed: Some(closed),
                }
            }
            Err(_) => unserved(Status::NoMemory),
        },
        Writing::AtEnd(later) => serve_then_write(by, sizes, &loaded, later, out),
    }
}

// Serves what was loaded, and writes what is asked of it when all is served. All memory is taken
// before the first ticket is begun.
fn serve_then_write<R: Threads + Wait + Sync, O: Sink, G: Gate + Sync>(
    by: &Resources<'_, R, G>,
    sizes: Sizes,
    loaded: &Loaded,
    later: Later,
    out: &mut O,
) -> Outcome
    requires can { CanServe loaded.now }
    ensures { EndsLoaded (AtEnd later) sizes.callers sizes.shards loaded.now
        (change O.held O.faults out.old out.new) result.status result.closed }
{
    match open_loaded(by.alloc, sizes, loaded, later) {
        Ok(ready) => {
            let (status, closed) = serve_open(by.rt, ready, loaded, later, out, by.gate);
            Outcome {
                status,
                closed: Some(closed),
            }
        }
        Err(_) => unserved(Status::NoMemory),
    }
}

// Serves an open session to its end, and writes what is asked of it. From here on nothing is given
// an allocator, and nothing can answer out of memory.
fn serve_open<'a, R: Threads + Wait + Sync, O: Sink, G: Gate + Sync>(
    rt: &R,
    ready: Ready<'a>,
    loaded: &Loaded,
    later: Later,
    out: &mut O,
    gate: &G,
) -> (Status, Closed)
    requires print { CanPrint loaded.now.names loaded.now.program.file
        (meaning ready.session.script) }
    requires room { HasCapacity later (meaning ready.session.script) (vec_capacity ready.entries) }
    requires places { ready.tables.items ≡ table_places loaded.now.program.file }
    requires callers { ready.session.callers ≤ max_callers }
    ensures { EndsAsServed (AtEnd later) loaded.now.names loaded.now.program.file
        (meaning ready.entry.session.script) ready.entry.session.callers ready.entry.session.shards
        (change O.held O.faults out.old out.new) result.0 result.1 }
{
    let (closed, mut spare) = serve_ready(rt, ready, gate);
    let status = write_session(out, &closed, loaded, &mut spare, later);
    (status, closed)
}
