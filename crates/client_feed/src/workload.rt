// What is served.

ghost use Rattle.std.specs.Prelude.{◌≡◌, ◌+◌, ◌≤◌, length, IfOk};
ghost use Rattle.session_values.specs.Limits.{max_session_calls, max_tables};
ghost use Rattle.session_values.specs.OpeningLimits.{max_opening};
ghost use Rattle.session_values.specs.Opening.{IsOpening, count_all};
ghost use Rattle.handler_check.specs.Resolved.{shape_of};
ghost use Rattle.request_files.specs.Servable.{IsServable};
ghost use Rattle.client_feed.specs.Workloads.{opening_once, servable_once};

use declaration_insertion::Program;
use hall_serving::Script;
use handler_machine::Scripts;
use request_files::ClientRequests;
use session_values::{NoMemory, Opening, TableKind};
use std::alloc::Global;

/// A program, the entries with which its tables open, which leave room for all keys that requests
/// may add, and the requests of the clients.
#[derive(Drop)]
pub struct Workload<'a> {
    pub program: &'a Program,
    pub opening: &'a Opening,
    pub clients: &'a ClientRequests,
    ghost opens: { IsOpening (shape_of program.now.file) opening.now } by { opening_once _ _ },
    ghost room: { count_all opening.now + max_session_calls ≤ max_opening },
    ghost servable: { IsServable program.now.file clients.now.requests } by { servable_once _ _ },
}

impl Workload<'_> {
    /// The kinds of the tables, and the most keys that all requests together may add to each.
    pub(crate) fn tables(&self, alloc: Global) -> Result<(Vec<TableKind>, Vec<u32>), NoMemory>
        ensures kinds { IfOk result (λ r. r.0.items ≡ shape_of self.now.program.now.file) }
        ensures few { IfOk result (λ r. length r.0.items ≤ max_tables) }
        ensures adds { IfOk result (λ r. length r.1.items ≡ length r.0.items) }
    {
        let script = Scripts::over(self.program, self.opening, self.clients.requests());
        let shape = script.shape(alloc)?;
        let mut adds = Vec::with_capacity(alloc, shape.len())?;
        for table in 0..shape.len() as u32 {
            adds.push_reserved(script.room(table));
        }
        Ok((shape, adds))
    }
}
