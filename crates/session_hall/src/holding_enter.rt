// An operation that was done in hand is entered in the book in hand.

ghost use Rattle.std.specs.Prelude.{length};
ghost use Rattle.session_journal.specs.Script.{HasSite, declared_with};
ghost use Rattle.session_hall.specs.HoldingCalls.{EnteredFrom, MayEnter};
ghost use Rattle.session_hall.specs.Holdings.{IsHoldingOf, IsKept, StaysHolding};
ghost use Rattle.session_hall.specs.Names.{script_of};

use crate::hall::Hall;
use crate::holding::Holding;
use crate::stage::{Stage, applied};
use session_journal::{Site, Tickets};
use session_values::Value;
use symbolic_ops::Foresight;

impl<S: Tickets + Drop> Holding<S> {
    /// Enters the operation that was done in hand, with its reply, and makes `next` the ticket's
    /// foresight.
    pub fn enter(&mut self, hall: &Hall<S>, next: &Foresight)
        requires holding { IsHoldingOf S.meaning hall.now self.old }
        requires kept { IsKept self.old.book }
        requires may { MayEnter (S.meaning (script_of hall.now)) self.old next.now.symbols }
        ensures holding { StaysHolding S.meaning hall.now self.old self.new }
        ensures entered { EnteredFrom (S.meaning (script_of hall.now)) self.old self.new
            next.now.symbols self.old.caller.stage }
    {
        let (t, op, reply) = applied(&self.caller.stage);
        let op = *op;
        let Some(book) = &mut self.book else {
            unreachable!();
        };
        book.enter(t, op, reply, next);
        self.caller.stage = Stage::Serving(t);
        self.entered = self.entered.saturating_add(1);
    }

    /// The same, where the list is what the script declares at a site with these values.
    pub fn enter_at(&mut self, hall: &Hall<S>, site: Site, values: &[Value])
        requires holding { IsHoldingOf S.meaning hall.now self.old }
        requires kept { IsKept self.old.book }
        requires site { HasSite (S.meaning (script_of hall.now)) site (length values.now) }
        requires may { MayEnter (S.meaning (script_of hall.now)) self.old
            (declared_with (S.meaning (script_of hall.now)) site values.now) }
        ensures holding { StaysHolding S.meaning hall.now self.old self.new }
        ensures entered { EnteredFrom (S.meaning (script_of hall.now)) self.old self.new
            (declared_with (S.meaning (script_of hall.now)) site values.now)
            self.old.caller.stage }
    {
        let (t, op, reply) = applied(&self.caller.stage);
        let op = *op;
        let Some(book) = &mut self.book else {
            unreachable!();
        };
        book.enter_at(t, op, reply, site, values);
        self.caller.stage = Stage::Serving(t);
        self.entered = self.entered.saturating_add(1);
    }
}
