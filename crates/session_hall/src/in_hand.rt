// What a caller does with the book in hand. A try call does it between taking the book and giving
// it back, and a holding from one call to the next.

ghost use Rattle.std.specs.Prelude.{◌≡◌, Some, None, length};
ghost use Rattle.session_journal.specs.Script.{HasSite, declared_with};
ghost use Rattle.admission_book.specs.Book.{IsFree};
ghost use Rattle.admission_book.specs.Methods.{Judges};
ghost use Rattle.session_hall.specs.declared.stage.Stage.TheVariants.{Serving};
ghost use Rattle.session_hall.specs.Callers.{IsCallerOf};
ghost use Rattle.session_hall.specs.Calls.{MayAnswer, MayCall, MayDeclare};
ghost use Rattle.session_hall.specs.HoldingCalls.{AdmitsKept, BeginsKept, DeclaredKept};
ghost use Rattle.session_hall.specs.HoldingCalls.{EndedKept, GaveKept, IsQuiet, LaunchedKept};
ghost use Rattle.session_hall.specs.InHand.{AsksBook, Becomes, IsKeeperOf, OnBook, list_in};
ghost use Rattle.session_hall.specs.Names.{script_of};
ghost use Rattle.session_hall.specs.Stages.{IsBetween, OnServing};

use crate::caller::Caller;
use crate::hall::Hall;
use crate::stage::{Stage, serving};
use admission_book::{Admission, Book};
use hall_rule::Held;
use session_journal::{Site, Tickets};
use session_values::{Op, Reply, Value};
use symbolic_ops::Foresight;

impl<S: Tickets + Drop> Caller<S> {
    // Takes the book, if no other caller has it.
    pub(crate) fn take_book(&mut self, hall: &Hall<S>) -> Option<Book<S>>
        requires caller { IsCallerOf S.meaning hall.now self.old }
        requires stage { IsQuiet self.old.stage }
        ensures number { self.new.number ≡ self.old.number }
        ensures asked { AsksBook S.meaning hall.now self.old self.new result }
    {
        hall.take_book(&mut self.seat)
    }

    // Gives back the book in hand, and with it all shards that it took, in one step.
    pub(crate) fn give_book(&mut self, hall: &Hall<S>, book: Book<S>)
        requires keeper { IsKeeperOf S.meaning hall.now self.old book }
        requires stage { IsQuiet self.old.stage }
        ensures number { self.new.number ≡ self.old.number }
        ensures caller { IsCallerOf S.meaning hall.now self.new }
        ensures gave { Becomes (λ h k. GaveKept (S.meaning (script_of hall.now)) h k)
            self.old (Some book) self.new None }
    {
        hall.board
            .give_all(&mut self.seat, Held::Register(book), &mut self.hands);
    }

    // Whether an older open ticket delays an operation, by the book in hand. The first such answer
    // about an operation is noted in it.
    #[inline(always)]
    pub(crate) fn admit_in(&self, hall: &Hall<S>, book: &mut Book<S>, op: Op) -> Admission
        requires keeper { IsKeeperOf S.meaning hall.now self.now book.old }
        requires may { OnBook (S.meaning (script_of hall.now)) self.now book.old
            (MayCall (list_in self.now book.old) op) }
        ensures keeper { IsKeeperOf S.meaning hall.now self.now book.new }
        ensures admits { OnServing self.now.stage (λ t. Becomes
            (λ h k. AdmitsKept (S.meaning (script_of hall.now)) h k op result t)
            self.now (Some book.old) self.now (Some book.new)) }
    {
        let t = serving(&self.stage);
        match self.judge_in(hall, book, t, &op) {
            Admission::Admitted => Admission::Admitted,
            Admission::Delayed { .. } => book.admit(t, op),
        }
    }

    // Puts an operation that nobody delays in flight, and gives back the book in hand, and with it
    // all shards that it took, in one step.
    pub(crate) fn launch_in(&mut self, hall: &Hall<S>, mut book: Book<S>, op: Op)
        requires keeper { IsKeeperOf S.meaning hall.now self.old book }
        requires may { OnBook (S.meaning (script_of hall.now)) self.old book
            (MayCall (list_in self.old book) op) }
        requires free { OnBook (S.meaning (script_of hall.now)) self.old book
            (λ m b t. IsFree b t op) }
        ensures number { self.new.number ≡ self.old.number }
        ensures caller { IsCallerOf S.meaning hall.now self.new }
        ensures launched { OnServing self.old.stage (λ t. Becomes
            (λ h k. LaunchedKept (S.meaning (script_of hall.now)) h k op t)
            self.old (Some book) self.new None) }
    {
        let t = serving(&self.stage);
        match book.admit(t, op) {
            Admission::Admitted => {}
            Admission::Delayed { .. } => unreachable!(),
        }
        hall.board
            .give_all(&mut self.seat, Held::Register(book), &mut self.hands);
        self.stage = Stage::InFlight(t, op);
    }

    // Begins the next ticket, or tells that all are begun.
    pub(crate) fn begin_in(&mut self, hall: &Hall<S>, book: &mut Book<S>) -> Option<u32>
        requires keeper { IsKeeperOf S.meaning hall.now self.old book.old }
        requires stage { IsBetween self.old.stage }
        ensures number { self.new.number ≡ self.old.number }
        ensures keeper { IsKeeperOf S.meaning hall.now self.new book.new }
        ensures began { Becomes (λ h k. BeginsKept (S.meaning (script_of hall.now)) h k result)
            self.old (Some book.old) self.new (Some book.new) }
    {
        match book.begin_next(self.number) {
            Some(t) => {
                self.stage = Stage::Serving(t);
                Some(t)
            }
            None => {
                self.stage = Stage::Out;
                None
            }
        }
    }

    // Who delays the operation of the ticket that is served, by the book in hand. Where one caller
    // serves, no other ticket is open.
    #[inline(always)]
    pub(crate) fn judge_in(&self, hall: &Hall<S>, book: &Book<S>, t: u32, op: &Op) -> Admission
        requires keeper { IsKeeperOf S.meaning hall.now self.now book.now }
        requires stage { self.now.stage ≡ Serving t }
        ensures judges { Judges book.now.book t op.now result }
    {
        if hall.sizes.callers == 1 {
            Admission::Admitted
        } else {
            book.judge(t, op)
        }
    }

    // Makes a list that the ticket's foresight covers its foresight.
    pub(crate) fn declare_in(&self, hall: &Hall<S>, book: &mut Book<S>, f: &Foresight)
        requires keeper { IsKeeperOf S.meaning hall.now self.now book.old }
        requires may { OnBook (S.meaning (script_of hall.now)) self.now book.old
            (MayDeclare (list_in self.now book.old) f.now.symbols) }
        ensures keeper { IsKeeperOf S.meaning hall.now self.now book.new }
        ensures declared { OnServing self.now.stage (λ t. Becomes
            (λ h k. DeclaredKept (S.meaning (script_of hall.now)) h k f.now.symbols t)
            self.now (Some book.old) self.now (Some book.new)) }
    {
        book.narrow(serving(&self.stage), f);
    }

    // The same, where the list is what the script declares at a site with these values.
    pub(crate) fn declare_at_in(
        &self,
        hall: &Hall<S>,
        book: &mut Book<S>,
        site: Site,
        values: &[Value],
    )
        requires keeper { IsKeeperOf S.meaning hall.now self.now book.old }
        requires site { HasSite (S.meaning (script_of hall.now)) site (length values.now) }
        requires may { OnBook (S.meaning (script_of hall.now)) self.now book.old
            (MayDeclare (list_in self.now book.old)
            (declared_with (S.meaning (script_of hall.now)) site values.now)) }
        ensures keeper { IsKeeperOf S.meaning hall.now self.now book.new }
        ensures declared { OnServing self.now.stage (λ t. Becomes
            (λ h k. DeclaredKept (S.meaning (script_of hall.now)) h k
            (declared_with (S.meaning (script_of hall.now)) site values.now) t)
            self.now (Some book.old) self.now (Some book.new)) }
    {
        book.narrow_at(serving(&self.stage), site, values);
    }

    // Ends the ticket with its reply.
    pub(crate) fn end_in(&mut self, hall: &Hall<S>, book: &mut Book<S>, reply: Reply)
        requires keeper { IsKeeperOf S.meaning hall.now self.old book.old }
        requires may { OnBook (S.meaning (script_of hall.now)) self.old book.old
            (MayAnswer reply) }
        ensures number { self.new.number ≡ self.old.number }
        ensures keeper { IsKeeperOf S.meaning hall.now self.new book.new }
        ensures ended { OnServing self.old.stage (λ t. Becomes
            (λ h k. EndedKept (S.meaning (script_of hall.now)) h k reply t)
            self.old (Some book.old) self.new (Some book.new)) }
    {
        book.end(serving(&self.stage), reply);
        self.stage = Stage::Idle;
    }
}
