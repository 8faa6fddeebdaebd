// What open tickets tell.

ghost use Rattle.std.specs.Prelude.{◌≡◌, [], MatchOption, None, Some, length};
ghost use Rattle.driven_tickets.specs.Tickets.{IsOldestOpen, declared_in};

use crate::open_tickets::OpenTickets;
use crate::place::place_of;
use symbolic_ops::Symbol;

impl OpenTickets {
    /// How many tickets are open.
    pub fn open(&self) -> usize
        ensures { result ≡ length self.now.tickets }
    {
        self.list.len()
    }

    /// The oldest open ticket.
    pub fn oldest(&self) -> Option<u64>
        ensures { MatchOption result (self.now.tickets ≡ []) (IsOldestOpen self.now.tickets) }
    {
        if self.list.is_empty() {
            return None;
        }
        Some(self.list[0].ticket)
    }

    /// What a ticket has declared, if it is open.
    pub fn declared(&self, ticket: u64) -> Option<&[Symbol]>
        ensures { MatchOption result (declared_in self.now.tickets ticket ≡ None)
            (λ list. declared_in self.now.tickets ticket ≡ Some list.now) }
    {
        match place_of(self.list.as_slice(), ticket) {
            Some(place) => Some(self.list[place].declared.symbols()),
            None => None,
        }
    }
}
