// Forgetting what was done.

ghost use Rattle.std.specs.Prelude.{◌≡◌};
ghost use Rattle.driven_tickets.specs.Acts.{idle_tickets};
ghost use Rattle.driven_tickets.specs.Tickets.{AreAscending};

use crate::history::History;
use crate::open_tickets::OpenTickets;

impl OpenTickets {
    /// Forgets what was done: all tickets so far are as if they had done nothing. The numbers of
    /// tickets go on.
    pub fn forget(&mut self)
        ensures idle { self.new ≡ record {
          next = self.old.next;
          tickets = self.old.tickets;
          acts = idle_tickets self.old.next;
        } }
        ensures ascending { AreAscending 0 self.new.tickets self.new.next }
    {
        self.history = History::idle(&self.next);
    }
}
