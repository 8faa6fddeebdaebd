// The tickets that are open on some tables.

ghost use Rattle.std.specs.Prelude.{◌≡◌, ◌++◌, ◌<◌, ◌∷◌, [], suc, true};
ghost use Rattle.session_values.specs.Tables.{Tables};
ghost use Rattle.driven_tickets.specs.Acts.{Calls};
ghost use Rattle.driven_tickets.specs.Desk.{CheckedAs, desk_over, last_number};
ghost use Rattle.driven_tickets.specs.Tickets.{AreAscending};

use crate::answers::Called;
use crate::blocker::{blocker, is_declared};
use crate::history::History;
use crate::open_ticket::OpenTicket;
use crate::place::place_of;
use session_values::{Op, Value};
use std::alloc::Global;
use std::marker::Model;

/// The tickets that are open on some tables, which somebody else keeps: what each may still call,
/// and the number of the next one.
#[derive(Drop)]
pub struct OpenTickets {
    /// The open tickets, by number.
    pub(crate) list: Vec<OpenTicket>,
    /// The number of the next ticket.
    pub(crate) next: u64,
    /// What was done, for proofs alone.
    pub(crate) history: History,
}

impl Model for OpenTickets {
    ghost use Rattle.driven_tickets.specs.Desk.{TicketsView};
    ghost use Rattle.driven_tickets.specs.Tickets.{AreAscending};

    ghost Value = { TicketsView };

    ghost view = { λ k. record {
      next = k.next;
      tickets = k.list.items;
      acts = k.history.acts;
    } };

    ghost invariant = { λ k. AreAscending 0 k.list.items k.next };
}

impl OpenTickets {
    /// None are open, and none was.
    pub fn new(alloc: Global) -> OpenTickets
        ensures { result ≡ record { next = 0; tickets = []; acts = [] } }
    {
        let next = 0;
        let history = History::opened(&next);
        OpenTickets {
            list: Vec::new(alloc),
            next,
            history,
        }
    }

    /// Whether no ticket is open.
    pub fn is_empty(&self) -> bool
        ensures { result ≡ true → self.now.tickets ≡ [] }
    {
        self.list.is_empty()
    }

    /// The number of the next ticket.
    pub fn next(&self) -> u64
        ensures next { result ≡ self.now.next }
        ensures ascending { AreAscending 0 self.now.tickets self.now.next }
    {
        self.next
    }

    /// Why an operation of a ticket isn't done, if something is against it, where it is known whether
    /// it is one of the tables'.
    pub fn refusal(&self, ticket: u64, fits: bool, op: &Op) -> Option<Called>
        ensures { (opening tables : Tables)
            → CheckedAs (desk_over opening tables self.now) ticket fits op.now result }
    {
        let Some(place) = place_of(self.list.as_slice(), ticket) else {
            return Some(Called::NoTicket);
        };
        if !fits {
            return Some(Called::Misfit);
        }
        if !is_declared(self.list[place].declared.symbols(), op) {
            return Some(Called::Undeclared);
        }
        match blocker(self.list.as_slice(), ticket, op) {
            Some(older) => Some(Called::Delayed { older }),
            None => None,
        }
    }

    /// An operation of a ticket was done, with this reply.
    pub fn called(&mut self, ticket: &u64, op: &Op, reply: &Value)
        ensures { self.new ≡ record {
          next = self.old.next;
          tickets = self.old.tickets;
          acts = self.old.acts ++ Calls ticket.now op.now reply.now ∷ [];
        } }
    {
        self.history = self.history.called(ticket, op, reply);
    }

    /// These acts were done by a ticket that has the next number, and isn't open any more.
    pub fn passed(&mut self, acts: &History)
        requires { self.old.next < last_number }
        ensures after { self.new ≡ record {
          next = suc self.old.next;
          tickets = self.old.tickets;
          acts = self.old.acts ++ acts.now.acts;
        } }
        ensures ascending { AreAscending 0 self.new.tickets self.new.next }
    {
        self.history = self.history.joined(acts);
        self.next += 1;
    }
}
