// The try calls that take the book alone: begin, declare, admit and end.

ghost use Rattle.std.specs.Prelude.{◌≡◌, length};
ghost use Rattle.session_journal.specs.Script.{HasSite, declared_with};
ghost use Rattle.session_hall.specs.Callers.{IsCallerOf, StaysCaller, foresight_of};
ghost use Rattle.session_hall.specs.Calls.{ByNote, MayDeclare, MayCall, MayAnswer};
ghost use Rattle.session_hall.specs.Calls.{BeganAs, DeclaredAs, AdmittedAs, EndedAs};
ghost use Rattle.session_hall.specs.Names.{script_of};
ghost use Rattle.session_hall.specs.Stages.{IsBetween};

use crate::answers::{Admitting, Began, Declared, Ending};
use crate::caller::Caller;
use crate::hall::Hall;
use crate::stage::Stage;
use admission_book::Admission;
use hall_rule::Held;
use session_journal::{Site, Tickets};
use session_values::{Op, Reply, Value};
use symbolic_ops::Foresight;

impl<S: Tickets + Drop> Caller<S> {
    /// Begins the next ticket, or tells that all are begun.
    pub fn try_begin(&mut self, hall: &Hall<S>) -> Began
        requires caller { IsCallerOf S.meaning hall.now self.old }
        requires stage { IsBetween self.old.stage }
        ensures caller { StaysCaller S.meaning hall.now self.old self.new }
        ensures began { BeganAs (S.meaning (script_of hall.now)) self.old self.new result }
    {
        let mut book = match self.take_book(hall) {
            Some(book) => book,
            None => return Began::Busy { turn: 0 },
        };
        let begun = self.begin_in(hall, &mut book);
        self.give_book(hall, book);
        match begun {
            Some(t) => Began::Ticket(t),
            None => Began::AllBegun,
        }
    }

    /// Makes a list that the ticket's foresight covers its foresight.
    pub fn try_declare(&mut self, hall: &Hall<S>, f: &Foresight) -> Declared
        requires caller { IsCallerOf S.meaning hall.now self.old }
        requires may { ByNote (S.meaning (script_of hall.now)) self.old
            (MayDeclare (foresight_of self.old) f.now.symbols) }
        ensures caller { StaysCaller S.meaning hall.now self.old self.new }
        ensures declared { DeclaredAs (S.meaning (script_of hall.now)) self.old self.new
            f.now.symbols result }
    {
        let mut book = match self.take_book(hall) {
            Some(book) => book,
            None => return Declared::Busy { turn: 0 },
        };
        self.declare_in(hall, &mut book, f);
        self.give_book(hall, book);
        Declared::Yes
    }

    /// The same, where the list is what the script declares at a site with these values.
    pub fn try_declare_at(&mut self, hall: &Hall<S>, site: Site, values: &[Value]) -> Declared
        requires caller { IsCallerOf S.meaning hall.now self.old }
        requires site { HasSite (S.meaning (script_of hall.now)) site (length values.now) }
        requires may { ByNote (S.meaning (script_of hall.now)) self.old
            (MayDeclare (foresight_of self.old)
            (declared_with (S.meaning (script_of hall.now)) site values.now)) }
        ensures caller { StaysCaller S.meaning hall.now self.old self.new }
        ensures declared { DeclaredAs (S.meaning (script_of hall.now)) self.old self.new
            (declared_with (S.meaning (script_of hall.now)) site values.now) result }
    {
        let mut book = match self.take_book(hall) {
            Some(book) => book,
            None => return Declared::Busy { turn: 0 },
        };
        self.declare_at_in(hall, &mut book, site, values);
        self.give_book(hall, book);
        Declared::Yes
    }

    /// Puts an operation in flight, or tells what delays it.
    pub fn try_admit(&mut self, hall: &Hall<S>, op: Op) -> Admitting
        requires caller { IsCallerOf S.meaning hall.now self.old }
        requires may { ByNote (S.meaning (script_of hall.now)) self.old
            (MayCall (foresight_of self.old) op) }
        ensures caller { StaysCaller S.meaning hall.now self.old self.new }
        ensures admitted { AdmittedAs (S.meaning (script_of hall.now)) self.old self.new op result }
    {
        let t = match self.stage {
            Stage::Serving(t) => t,
            _ => unreachable!(),
        };
        let mut book = match hall.take_book(&mut self.seat) {
            Some(book) => book,
            None => return Admitting::Busy { turn: 0 },
        };
        match book.admit(t, op) {
            Admission::Admitted => {
                hall.board
                    .give_all(&mut self.seat, Held::Register(book), &mut self.hands);
                self.stage = Stage::InFlight(t, op);
                Admitting::Admitted
            }
            Admission::Delayed { older, symbol } => {
                hall.board
                    .give_all(&mut self.seat, Held::Register(book), &mut self.hands);
                Admitting::Delayed { older, symbol }
            }
        }
    }

    /// Ends the ticket with its reply.
    pub fn try_end(&mut self, hall: &Hall<S>, reply: Reply) -> Ending
        requires caller { IsCallerOf S.meaning hall.now self.old }
        requires may { ByNote (S.meaning (script_of hall.now)) self.old (MayAnswer reply) }
        ensures caller { StaysCaller S.meaning hall.now self.old self.new }
        ensures ended { EndedAs (S.meaning (script_of hall.now)) self.old self.new reply result }
    {
        let mut book = match self.take_book(hall) {
            Some(book) => book,
            None => return Ending::Busy { turn: 0 },
        };
        self.end_in(hall, &mut book, reply);
        self.give_book(hall, book);
        Ending::Ended
    }
}
