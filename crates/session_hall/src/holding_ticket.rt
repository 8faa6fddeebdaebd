// The beginning of a ticket, its declarations and its end, in the book in hand.

ghost use Rattle.std.specs.Prelude.{length};
ghost use Rattle.session_journal.specs.Script.{HasSite, declared_with};
ghost use Rattle.session_hall.specs.Calls.{MayAnswer, MayDeclare};
ghost use Rattle.session_hall.specs.HoldingCalls.{BeginsKept, ByPresent, DeclaredKept, EndedKept};
ghost use Rattle.session_hall.specs.Holdings.{IsHoldingOf, IsKept, StaysHolding, foresight_at};
ghost use Rattle.session_hall.specs.Names.{script_of};
ghost use Rattle.session_hall.specs.Stages.{IsBetween, OnServing};

use crate::hall::Hall;
use crate::holding::Holding;
use session_journal::{Site, Tickets};
use session_values::{Reply, Value};
use symbolic_ops::Foresight;

impl<S: Tickets + Drop> Holding<S> {
    /// Begins the next ticket, or tells that all are begun.
    pub fn begin(&mut self, hall: &Hall<S>) -> Option<u32>
        requires holding { IsHoldingOf S.meaning hall.now self.old }
        requires kept { IsKept self.old.book }
        requires stage { IsBetween self.old.caller.stage }
        ensures holding { StaysHolding S.meaning hall.now self.old self.new }
        ensures began { BeginsKept (S.meaning (script_of hall.now)) self.old self.new result }
    {
        let Some(book) = &mut self.book else {
            unreachable!();
        };
        self.caller.begin_in(hall, book)
    }

    /// Makes a list that the ticket's foresight covers its foresight.
    pub fn declare(&mut self, hall: &Hall<S>, f: &Foresight)
        requires holding { IsHoldingOf S.meaning hall.now self.old }
        requires kept { IsKept self.old.book }
        requires may { ByPresent (S.meaning (script_of hall.now)) self.old
            (MayDeclare (foresight_at self.old) f.now.symbols) }
        ensures holding { StaysHolding S.meaning hall.now self.old self.new }
        ensures declared { OnServing self.old.caller.stage
            (DeclaredKept
            (S.meaning (script_of hall.now)) self.old self.new f.now.symbols) }
    {
        let Some(book) = &mut self.book else {
            unreachable!();
        };
        self.caller.declare_in(hall, book, f);
    }

    /// The same, where the list is what the script declares at a site with these values.
    pub fn declare_at(&mut self, hall: &Hall<S>, site: Site, values: &[Value])
        requires holding { IsHoldingOf S.meaning hall.now self.old }
        requires kept { IsKept self.old.book }
        requires site { HasSite (S.meaning (script_of hall.now)) site (length values.now) }
        requires may { ByPresent (S.meaning (script_of hall.now)) self.old
            (MayDeclare (foresight_at self.old)
            (declared_with (S.meaning (script_of hall.now)) site values.now)) }
        ensures holding { StaysHolding S.meaning hall.now self.old self.new }
        ensures declared { OnServing self.old.caller.stage (DeclaredKept
            (S.meaning (script_of hall.now)) self.old self.new
            (declared_with (S.meaning (script_of hall.now)) site values.now)) }
    {
        let Some(book) = &mut self.book else {
            unreachable!();
        };
        self.caller.declare_at_in(hall, book, site, values);
    }

    /// Ends the ticket with its reply.
    pub fn end(&mut self, hall: &Hall<S>, reply: Reply)
        requires holding { IsHoldingOf S.meaning hall.now self.old }
        requires kept { IsKept self.old.book }
        requires may { ByPresent (S.meaning (script_of hall.now)) self.old (MayAnswer reply) }
        ensures holding { StaysHolding S.meaning hall.now self.old self.new }
        ensures ended { OnServing self.old.caller.stage (EndedKept
            (S.meaning (script_of hall.now)) self.old self.new reply) }
    {
        let Some(book) = &mut self.book else {
            unreachable!();
        };
        self.caller.end_in(hall, book, reply);
        self.ends = self.ends.saturating_add(1);
    }
}
