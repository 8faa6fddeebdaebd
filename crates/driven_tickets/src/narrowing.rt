// Narrowing what a ticket may still call.

ghost use Rattle.session_values.specs.Tables.{Tables};
ghost use Rattle.driven_tickets.specs.Desk.{NarrowedAs, desk_over};
ghost use Rattle.driven_tickets.specs.Tickets.{AreAscending};

use crate::answers::NarrowError;
use crate::driven_tables::DrivenTables;
use crate::open_tickets::OpenTickets;
use crate::place::place_of;
use symbolic_ops::{Foresight, covered};

impl OpenTickets {
    /// An open ticket declares this list in place of its own, which covers it. No memory is taken.
    pub fn narrow(&mut self, ticket: u64, declared: Foresight) -> Result<(), NarrowError>
        ensures narrowed { (opening tables : Tables) → NarrowedAs
            (desk_over opening tables self.old) (desk_over opening tables self.new) ticket
            declared.symbols result }
        ensures ascending { AreAscending 0 self.new.tickets self.new.next }
    {
        let Some(place) = place_of(self.list.as_slice(), ticket) else {
            return Err(NarrowError::NoTicket);
        };
        if !covered(&declared, &self.list[place].declared) {
            return Err(NarrowError::Undeclared);
        }
        self.history = self.history.narrowed(&ticket, &declared);
        self.list[place].declared = declared;
        Ok(())
    }
}

impl DrivenTables {
    /// An open ticket declares this list in place of its own, which covers it. No memory is taken.
    pub fn narrow(&mut self, ticket: u64, declared: Foresight) -> Result<(), NarrowError>
        ensures { NarrowedAs self.old self.new ticket declared.symbols result }
    {
        self.tickets.narrow(ticket, declared)
    }
}
