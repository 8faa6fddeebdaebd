// Where an open ticket is kept.

ghost use Rattle.std.specs.Prelude.{◌≡◌, MatchOption, None};
ghost use Rattle.driven_tickets.specs.Tickets.{IsAt, declared_in};

use crate::open_ticket::OpenTicket;

/// The place of a ticket among those that are open.
pub(crate) fn place_of(tickets: &[OpenTicket], ticket: u64) -> Option<usize>
    ensures { MatchOption result (declared_in tickets.now ticket ≡ None)
        (IsAt tickets.now ticket) }
{
    for i in 0..tickets.len() {
        if tickets[i].ticket == ticket {
            return Some(i);
        }
    }
    None
}
