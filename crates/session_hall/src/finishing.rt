// Entering in the book what was done on its shards.

ghost use Rattle.std.specs.Prelude.{length};
ghost use Rattle.session_journal.specs.Script.{HasSite, declared_with};
ghost use Rattle.session_hall.specs.Callers.{IsCallerOf, StaysCaller};
ghost use Rattle.session_hall.specs.Calls.{MayFinish, FinishedAs};
ghost use Rattle.session_hall.specs.Names.{script_of};

use crate::answers::Finishing;
use crate::caller::Caller;
use crate::hall::Hall;
use crate::stage::{Stage, applied};
use hall_rule::Held;
use session_journal::{Site, Tickets};
use session_values::Value;
use symbolic_ops::Foresight;

impl<S: Tickets + Drop> Caller<S> {
    /// Enters the operation that was done on its shards, with its reply, makes `next` the ticket's
    /// foresight, and gives the shards back with the book.
    pub fn try_finish(&mut self, hall: &Hall<S>, next: &Foresight) -> Finishing
        requires caller { IsCallerOf S.meaning hall.now self.old }
        requires may { MayFinish (S.meaning (script_of hall.now)) self.old next.now.symbols }
        ensures caller { StaysCaller S.meaning hall.now self.old self.new }
        ensures finished { FinishedAs (S.meaning (script_of hall.now)) self.old self.new
            next.now.symbols result }
    {
        let (t, _, reply) = applied(&self.stage);
        let mut book = match hall.take_book(&mut self.seat) {
            Some(book) => book,
            None => return Finishing::Busy { turn: 0 },
        };
        book.done(t, reply, next);
        hall.board
            .give_all(&mut self.seat, Held::Register(book), &mut self.hands);
        self.stage = Stage::Serving(t);
        Finishing::Done
    }

    /// The same, where the list is what the script declares at a site with these values.
    pub fn try_finish_at(&mut self, hall: &Hall<S>, site: Site, values: &[Value]) -> Finishing
        requires caller { IsCallerOf S.meaning hall.now self.old }
        requires site { HasSite (S.meaning (script_of hall.now)) site (length values.now) }
        requires may { MayFinish (S.meaning (script_of hall.now)) self.old
            (declared_with (S.meaning (script_of hall.now)) site values.now) }
        ensures caller { StaysCaller S.meaning hall.now self.old self.new }
        ensures finished { FinishedAs (S.meaning (script_of hall.now)) self.old self.new
            (declared_with (S.meaning (script_of hall.now)) site values.now) result }
    {
        let (t, _, reply) = applied(&self.stage);
        let mut book = match hall.take_book(&mut self.seat) {
            Some(book) => book,
            None => return Finishing::Busy { turn: 0 },
        };
        book.done_at(t, reply, site, values);
        hall.board
            .give_all(&mut self.seat, Held::Register(book), &mut self.hands);
        self.stage = Stage::Serving(t);
        Finishing::Done
    }
}
