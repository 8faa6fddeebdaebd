// Several clients: from the bytes of a session file to the replies that each of them has.

ghost use Rattle.std.specs.Prelude.{◌≤◌, length};
ghost use Rattle.session_values.specs.Limits.{max_input};
ghost use Rattle.client_feed.specs.Rounds.{AreServed};
ghost use Rattle.serve_words.specs.declared.command.Command.TheVariants.{Clients};
ghost use Rattle.byte_ends.specs.Changes.{change};
ghost use Rattle.serve_core.specs.Arriving.{CanServeClients, EndsClients};
ghost use Rattle.serve_core.specs.Runs.{AnswersTo};

use crate::outcome::{Outcome, unserved};
use byte_ends::{Sink, WriteBuffer};
use client_feed::{Resources, Served, Workload, serve_clients};
use hall_serving::Sizes;
use reply_sheet::write_clients;
use serve_faults::Status;
use serve_reading::{LoadedClients, load_clients};
use serve_single::ended;
use std::sync::Wait;
use std::thread::Threads;
use worker_gate::Gate;

/// Serves the requests of a file's bytes, which are several clients', in the order in which they
/// arrive, and writes for each client the replies that it has.
pub(crate) fn gather_bytes<R: Threads + Wait + Sync, O: Sink, G: Gate + Sync>(
    by: &Resources<'_, R, G>,
    sizes: Sizes,
    bytes: &[u8],
    out: &mut O,
) -> Outcome
    requires short { length bytes.now ≤ max_input }
    ensures { AnswersTo (Clients sizes.callers sizes.shards) bytes.now
        (change O.held O.faults out.old out.new) result.status result.closed }
{
    match load_clients(by.alloc, bytes) {
        Ok(loaded) => gather_loaded(by, sizes, &loaded, out),
        Err(e) => unserved(ended(e)),
    }
}

// Serves the requests of what was loaded in the order in which they arrive, and writes the replies.
// The room for writing is taken before the first request is served.
fn gather_loaded<R: Threads + Wait + Sync, O: Sink, G: Gate + Sync>(
    by: &Resources<'_, R, G>,
    sizes: Sizes,
    loaded: &LoadedClients,
    out: &mut O,
) -> Outcome
    requires can { CanServeClients loaded.now }
    ensures { EndsClients sizes.callers sizes.shards loaded.now
        (change O.held O.faults out.old out.new) result.status result.closed }
{
    let Ok(mut buffer) = WriteBuffer::new(by.alloc) else {
        return unserved(Status::NoMemory);
    };
    let work = Workload {
        program: &loaded.program,
        opening: &loaded.opening,
        clients: &loaded.clients,
    };
    match serve_clients(by, &work, sizes) {
        Ok(served) => write_served(loaded, sizes, served, &mut buffer, out),
        Err(_) => unserved(Status::NoMemory),
    }
}

// Writes the replies of what was served.
#[tactic(auto, using(crate::proofs::GatherLemmas::served_print, crate::proofs::GatherLemmas::served_long, crate::proofs::GatherLemmas::served_few, crate::proofs::GatherLemmas::lines_written, crate::proofs::GatherLemmas::lines_front))]
fn write_served<O: Sink>(
    loaded: &LoadedClients,
    sizes: Sizes,
    served: Served,
    buffer: &mut WriteBuffer,
    out: &mut O,
) -> Outcome
    requires can { CanServeClients loaded.now }
    requires served { AreServed loaded.now.program loaded.now.opening loaded.now.clients
        sizes.callers sizes.shards served }
    ensures { EndsClients sizes.callers sizes.shards loaded.now
        (change O.held O.faults out.old out.new) result.status result.closed }
{
    let clients = loaded.clients.clients();
    let whole = write_clients(
        out,
        &loaded.names,
        clients,
        served.arrivals(),
        served.replies(),
        buffer,
    );
    let status = if whole {
        Status::Fine
    } else {
        Status::WriteFault
    };
    Outcome {
        status,
        closed: served.into_closed(),
    }
}
