// Tables on which a program drives tickets.

ghost use Rattle.std.specs.Prelude.{◌≡◌, ℕ, ◌≤◌, [], None, IfOk};
ghost use Rattle.session_values.specs.Tables.{start};

use crate::desk_tables::DeskTables;
use crate::open_tickets::OpenTickets;
use crate::origin::Origin;
use session_values::{NoMemory, TableKind};
use std::alloc::Global;
use std::marker::Model;

/// Tables, and the tickets that are open on them. A program that shares them between
/// threads gives them to one call at a time.
#[derive(Drop)]
pub struct DrivenTables {
    pub(crate) tables: DeskTables,
    pub(crate) tickets: OpenTickets,
    /// What the tables were, for proofs alone.
    pub(crate) origin: Origin,
}

impl Model for DrivenTables {
    ghost use Rattle.std.specs.Coded.{codes};
    ghost use Rattle.session_values.specs.Containers.{container_code};
    ghost use Rattle.driven_tickets.specs.Desk.{DeskView, IsDesk, desk_over};

    ghost Value = { DeskView };

    ghost coded = { Prim.hlevel (codes, container_code) };

    ghost view = { λ d. desk_over d.origin.opening d.tables d.tickets };

    ghost invariant = { λ d. IsDesk (desk_over d.origin.opening d.tables d.tickets) };
}

impl DrivenTables {
    ghost use Rattle.session_journal.specs.Journal.{Replays, by_ticket, run};
    ghost use Rattle.driven_tickets.specs.Acts.{done_in};
    ghost use Rattle.driven_tickets.specs.Desk.{IsDesk, declared};

    /// Tables of these kinds, all empty, on which no ticket has begun.
    pub fn open(alloc: Global, shape: &[TableKind]) -> Result<DrivenTables, NoMemory>
        ensures { IfOk result (λ d. d ≡ record {
          opening = start shape.now;
          tables = start shape.now;
          next = 0;
          tickets = [];
          acts = [];
        }) }
    {
        let tables = DeskTables::open(alloc, shape)?;
        let origin = Origin::of(&tables);
        Ok(DrivenTables {
            tables,
            tickets: OpenTickets::new(alloc),
            origin,
        })
    }

    /// What is known of them, whatever calls were made: what was done leads from the opening
    /// tables to what they hold, no ticket is open that hasn't begun, and the operations that were
    /// done, ticket after ticket in the order in which the tickets began, replay from the opening
    /// tables with the same replies, and give the tables as they are.
    pub fn regroups(&self)
        ensures desk { IsDesk self.now }
        ensures unborn { (t : ℕ) → self.now.next ≤ t → declared self.now t ≡ None }
        ensures replays { Replays self.now.opening
            (by_ticket self.now.next (done_in self.now.acts)) }
        ensures tables { run self.now.opening (by_ticket self.now.next (done_in self.now.acts))
            ≡ self.now.tables }
    {
        let _ = &self.tickets;
    }
}
