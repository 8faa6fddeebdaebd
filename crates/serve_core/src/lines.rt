// A session that was loaded, served while the lines of its replies are written.

ghost use Rattle.std.specs.Prelude.{◌≡◌, ◌≤◌, IfOk};
ghost use Rattle.session_values.specs.Limits.{max_requests};
ghost use Rattle.hall_writing.specs.Jobs.{replies_of};
ghost use Rattle.handler_machine.specs.Scripts.{meaning};
ghost use Rattle.reply_sheet.specs.Printable.{ArePrintableReplies};
ghost use Rattle.byte_ends.specs.Changes.{change};
ghost use Rattle.serve_core.specs.declared.writing.Writing.TheVariants.{Replies};
ghost use Rattle.serve_single.specs.Serving.{CanServe, script_of_loaded};
ghost use Rattle.serve_core.specs.Serving.{EndsAsServed};

use byte_ends::Sink;
use hall_serving::Sizes;
use hall_writing::{WritingSession, open_writing, serve_and_write};
use handler_machine::Scripts;
use serve_faults::Status;
use serve_reading::Loaded;
use session_hall::Closed;
use session_values::NoMemory;
use std::alloc::Global;
use std::sync::Wait;
use std::thread::Threads;
use worker_gate::Gate;

/// All that serving a session's requests and writing their replies takes: no memory is asked for
/// from here on.
#[derive(Drop)]
pub(crate) struct ReadyLines<'a> {
    pub(crate) session: WritingSession<Scripts<'a>>,
    /// The session's script again, by which each ticket is served.
    pub(crate) plan: Scripts<'a>,
    ghost same: { plan ≡ session.script },
}

/// Opens a hall of these sizes for the requests of a session that was loaded, and takes all memory
/// that serving and writing need.
pub(crate) fn open_lines<'a>(
    alloc: Global,
    sizes: Sizes,
    loaded: &'a Loaded,
) -> Result<ReadyLines<'a>, NoMemory>
    requires can { CanServe loaded.now }
    ensures script { IfOk result (λ r. r.session.script ≡ script_of_loaded loaded.now) }
    ensures callers { IfOk result (λ r. r.session.callers ≡ sizes.callers) }
    ensures shards { IfOk result (λ r. r.session.shards ≡ sizes.shards) }
{
    let script = Scripts::over(&loaded.program, &loaded.opening, &loaded.requests);
    let plan = Scripts::over(&loaded.program, &loaded.opening, &loaded.requests);
    let shape = loaded.program.checked().shape(alloc)?;
    let session = open_writing(alloc, script, shape.as_slice(), sizes)?;
    Ok(ReadyLines { session, plan })
}

/// Serves an open session to its end, and writes its replies while it is served. From here on
/// nothing is given an allocator, and nothing can return that memory ran out.
pub(crate) fn serve_ready_lines<'a, R: Threads + Wait + Sync, O: Sink, G: Gate + Sync>(
    rt: &R,
    ready: ReadyLines<'a>,
    loaded: &Loaded,
    out: &mut O,
    gate: &G,
) -> (Status, Closed)
    requires few { (meaning ready.session.script).requests ≤ max_requests }
    requires printable { ArePrintableReplies loaded.now.names
        (replies_of (meaning ready.session.script)) }
    ensures { EndsAsServed Replies loaded.now.names loaded.now.program.file
        (meaning ready.entry.session.script) ready.entry.session.callers ready.entry.session.shards
        (change O.held O.faults out.old out.new) result.0 result.1 }
{
    let ReadyLines { session, plan } = ready;
    let (closed, whole) = serve_and_write(rt, session, &plan, gate, &loaded.names, out);
    let status = if whole {
        Status::Fine
    } else {
        Status::WriteFault
    };
    (status, closed)
}
