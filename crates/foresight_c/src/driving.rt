// Acts of tickets on what a desk has: its tables, or the tables of its session.

ghost use Rattle.std.specs.Prelude.{◌≡◌};
ghost use Rattle.foresight_c.specs.Tickets.{HasBegun, HasCalled, HasEnded, HasNarrowed};

use crate::desk::Desk;
use driven_tickets::{BeginError, Called, NarrowError, NoTicket};
use session_values::Op;
use symbolic_ops::Foresight;

impl Desk {
    /// Begins the next ticket, which declares these symbols.
    pub(crate) fn begun(&mut self, declared: Foresight) -> Result<u64, BeginError>
        ensures { HasBegun self.old self.new declared.symbols result }
    {
        match self {
            Desk::Tables(desk) => desk.begin(declared),
            Desk::Session(desk) => desk.session.begin(declared),
        }
    }

    /// Does an operation of an open ticket, unless an older ticket is in the way.
    pub(crate) fn called(&mut self, ticket: u64, op: Op) -> Called
        ensures { HasCalled self.old self.new ticket op result }
    {
        match self {
            Desk::Tables(desk) => desk.call(ticket, op),
            Desk::Session(desk) => desk.session.call(ticket, op),
        }
    }

    /// An open ticket declares these symbols in place of its own.
    pub(crate) fn narrowed(&mut self, ticket: u64, declared: Foresight) -> Result<(), NarrowError>
        ensures { HasNarrowed self.old self.new ticket declared.symbols result }
    {
        match self {
            Desk::Tables(desk) => desk.narrow(ticket, declared),
            Desk::Session(desk) => desk.session.narrow(ticket, declared),
        }
    }

    /// Ends an open ticket.
    pub(crate) fn ended(&mut self, ticket: u64) -> Result<(), NoTicket>
        ensures { HasEnded self.old self.new ticket result }
    {
        match self {
            Desk::Tables(desk) => desk.end(ticket),
            Desk::Session(desk) => desk.session.end(ticket),
        }
    }
}
