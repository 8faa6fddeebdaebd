// Calling an operation of a ticket.

use crate::answers::Called;
use crate::driven_tables::DrivenTables;
use session_values::Op;

impl DrivenTables {
    ghost use Rattle.driven_tickets.specs.Desk.{CalledAs};

    /// Does an operation of an open ticket, which has declared it, unless an older ticket is in the
    /// way.
    pub fn call(&mut self, ticket: u64, op: Op) -> Called
        ensures { CalledAs self.old self.new ticket op result }
    {
        let fits = self.tables.fits(&op);
        if let Some(why) = self.tickets.refusal(ticket, fits, &op) {
            return why;
        }
        match self.tables.apply(op) {
            Ok(reply) => {
                self.tickets.called(&ticket, &op, &reply);
                Called::Done(reply)
            }
            Err(_) => Called::NoMemory,
        }
    }
}
