// Running the handlers of all requests, one after another.

ghost use Rattle.std.specs.Prelude.{◌≡◌, ◌≤◌, [], IfOk, OnOk, vec_capacity};
ghost use Rattle.session_journal.specs.Script.{IsScript};
ghost use Rattle.handler_machine.specs.Scripts.{meaning};
ghost use Rattle.serve_single.specs.Serving.{AreServed};

use crate::opening::opened_tables;
use crate::tables::Answering;
use handler_machine::Scripts;
use session_journal::{Scratch, Script};
use session_values::{NoMemory, Reply};
use shard_tables::WholeTables;
use std::alloc::Global;

/// What serving the requests of a session leaves.
#[derive(Drop)]
pub(crate) struct Served {
    /// The replies, by ticket.
    pub(crate) replies: Vec<Reply>,
    pub(crate) tables: WholeTables,
}

// Runs the handlers of all tickets, one after another, and puts their replies behind one another.
fn run_tickets(
    scripts: &Scripts<'_>,
    scratch: &mut Scratch,
    tables: &mut Answering,
    replies: &mut Vec<Reply>,
) -> Result<(), NoMemory>
    requires script { IsScript (meaning scripts.now) }
    requires opening { tables.old.tables ≡ (meaning scripts.now).opening }
    requires none { replies.old.items ≡ [] }
    requires room { (meaning scripts.now).requests ≤ vec_capacity replies.old }
    ensures { OnOk result (AreServed (meaning scripts.now) (meaning scripts.now).requests
        replies.new.items tables.new.tables) }
{
    for t in 0..scripts.requests() {
        let reply = scripts.run_ticket(t, scratch, tables)?;
        replies.push_reserved(reply);
    }
    Ok(())
}

/// Serves the tickets of a script one at a time, in order. The room for all replies is taken once.
pub(crate) fn serve_tickets(alloc: Global, scripts: &Scripts<'_>) -> Result<Served, NoMemory>
    ensures { IfOk result (λ s. AreServed (meaning scripts.now) (meaning scripts.now).requests
        s.replies.items s.tables) }
{
    let count = scripts.requests();
    let shape = scripts.shape(alloc)?;
    let opened = opened_tables(alloc, scripts, shape.as_slice())?;
    let mut answering = Answering { tables: opened };
    let mut scratch = Scratch::new(alloc)?;
    let mut replies = Vec::with_capacity(alloc, count as usize)?;
    run_tickets(scripts, &mut scratch, &mut answering, &mut replies)?;
    let Answering { tables } = answering;
    Ok(Served { replies, tables })
}
