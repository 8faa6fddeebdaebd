// Beginning a ticket.

ghost use Rattle.session_values.specs.Tables.{Tables};
ghost use Rattle.driven_tickets.specs.Desk.{BegunAs, desk_over};
ghost use Rattle.driven_tickets.specs.Tickets.{AreAscending};

use crate::answers::BeginError;
use crate::driven_tables::DrivenTables;
use crate::open_ticket::OpenTicket;
use crate::open_tickets::OpenTickets;
use symbolic_ops::Foresight;

impl OpenTickets {
    /// Begins the next ticket, which declares this list, and answers its number.
    pub fn begin(&mut self, declared: Foresight) -> Result<u64, BeginError>
        ensures begun { (opening tables : Tables) → BegunAs (desk_over opening tables self.old)
            (desk_over opening tables self.new) declared.symbols result }
        ensures ascending { AreAscending 0 self.new.tickets self.new.next }
    {
        let ticket = self.next;
        if ticket == u64::MAX {
            return Err(BeginError::NoNumber);
        }
        let Ok(()) = self.list.reserve(1) else {
            return Err(BeginError::NoMemory);
        };
        self.history = self.history.begun(&declared);
        self.list.push_reserved(OpenTicket { ticket, declared });
        self.next = ticket + 1;
        Ok(ticket)
    }
}

impl DrivenTables {
    /// Begins the next ticket, which declares this list, and answers its number.
    pub fn begin(&mut self, declared: Foresight) -> Result<u64, BeginError>
        ensures { BegunAs self.old self.new declared.symbols result }
    {
        self.tickets.begin(declared)
    }
}
