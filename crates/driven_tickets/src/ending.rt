// Ending a ticket.

ghost use Rattle.session_values.specs.Tables.{Tables};
ghost use Rattle.driven_tickets.specs.Desk.{EndedAs, desk_over};
ghost use Rattle.driven_tickets.specs.Tickets.{AreAscending};

use crate::answers::NoTicket;
use crate::driven_tables::DrivenTables;
use crate::open_tickets::OpenTickets;
use crate::place::place_of;

impl OpenTickets {
    /// Ends an open ticket. What it did stays, and it is in nobody's way any more.
    pub fn end(&mut self, ticket: u64) -> Result<(), NoTicket>
        ensures ended { (opening tables : Tables) → EndedAs (desk_over opening tables self.old)
            (desk_over opening tables self.new) ticket result }
        ensures ascending { AreAscending 0 self.new.tickets self.new.next }
    {
        let Some(place) = place_of(self.list.as_slice(), ticket) else {
            return Err(NoTicket);
        };
        self.history = self.history.ended(&ticket);
        self.list.remove(place);
        Ok(())
    }
}

impl DrivenTables {
    /// Ends an open ticket. What it did stays, and it is in nobody's way any more.
    pub fn end(&mut self, ticket: u64) -> Result<(), NoTicket>
        ensures { EndedAs self.old self.new ticket result }
    {
        self.tickets.end(ticket)
    }
}
