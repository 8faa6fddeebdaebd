// What a book keeps of one caller.

ghost use Rattle.std.specs.Prelude.{◌≡◌, ◌<◌, ◌≤◌, None, Some, IsSome, IfOk, false, length};
ghost use Rattle.std.specs.Bool.{Decides};
ghost use Rattle.session_values.specs.Limits.{max_symbols, max_variables};
ghost use Rattle.session_journal.specs.Script.{Meaning};
ghost use Rattle.admission_book.specs.CallerRecord.{IsRecord, idle_record, with_flight, with_site, after_flight_at, after_ticket};

use crate::marked_foresight::MarkedForesight;
use session_journal::{Site, Tickets};
use session_values::{NoMemory, Op, Value};
use std::alloc::Global;
use symbolic_ops::Foresight;

/// The ticket that a caller serves, if any, with its foresight and the operation in flight.
#[derive(Drop)]
pub(crate) struct CallerRecord {
    /// The open ticket, or None while the caller serves none.
    pub(crate) ticket: Option<u32>,
    /// What the ticket may still call. Without a ticket it says nothing.
    pub(crate) foresight: MarkedForesight,
    /// The operation that was admitted and isn't done yet.
    pub(crate) flight: Option<Op>,
    /// Whether the last event of the ticket is a Delay, so that a delay is noted once.
    pub(crate) delayed: bool,
}

impl CallerRecord {
    /// One of a caller that serves no ticket, with room for any foresight.
    pub(crate) fn idle(alloc: Global) -> Result<CallerRecord, NoMemory>
        ensures { IfOk result (λ r. r ≡ idle_record) }
    {
        let foresight = MarkedForesight::empty(alloc)?;
        Ok(CallerRecord {
            ticket: None,
            foresight,
            flight: None,
            delayed: false,
        })
    }

    /// Whether it serves this ticket.
    pub(crate) fn serves(&self, t: u32) -> bool
        ensures { Decides result (self.now.ticket ≡ Some t) }
    {
        match self.ticket {
            Some(u) => u == t,
            None => false,
        }
    }

    /// Takes over a ticket with what it declares at its beginning.
    pub(crate) fn begin(&mut self, t: u32, entry: &Foresight)
        requires room { max_symbols ≤ self.old.foresight.list.room }
        requires few { length entry.now.symbols ≤ max_symbols }
        ensures { (m : Meaning) → IsRecord m self.new (Some t) entry.now.symbols None false }
    {
        self.ticket = Some(t);
        self.flight = None;
        self.delayed = false;
        self.foresight.take(entry);
    }

    /// Takes over a ticket of a script with what it declares at its beginning.
    pub(crate) fn begin_entry<S: Tickets>(&mut self, script: &S, t: u32)
        requires ticket { t < (S.meaning script.now).requests }
        requires room { max_symbols ≤ self.old.foresight.list.room }
        ensures { IsRecord (S.meaning script.now)
            self.new (Some t) ((S.meaning script.now).entry t) None false }
    {
        self.ticket = Some(t);
        self.flight = None;
        self.delayed = false;
        self.foresight.take_entry(script, t);
    }

    /// Makes a list the ticket's foresight.
    pub(crate) fn narrow(&mut self, f: &Foresight)
        requires room { max_symbols ≤ self.old.foresight.list.room }
        requires few { length f.now.symbols ≤ max_symbols }
        ensures { (m : Meaning) → IsRecord m
            self.new self.old.ticket f.now.symbols self.old.flight self.old.delayed }
    {
        self.foresight.take(f);
    }

    /// Makes what is declared at a site with these values, which its own covers, the ticket's
    /// foresight.
    pub(crate) fn narrow_at(&mut self, site: Site, values: &[Value])
        requires { length values.now ≤ max_variables }
        ensures { self.new ≡ with_site self.old site values.now }
    {
        self.foresight.narrow_at(site, values);
    }

    /// Puts an operation in flight.
    pub(crate) fn launch(&mut self, op: Op)
        ensures { self.new ≡ with_flight self.old op }
    {
        self.flight = Some(op);
    }

    /// Takes the operation out of flight, and makes a list the ticket's foresight.
    pub(crate) fn finish(&mut self, next: &Foresight) -> Op
        requires flight { IsSome self.old.flight }
        requires room { max_symbols ≤ self.old.foresight.list.room }
        requires few { length next.now.symbols ≤ max_symbols }
        ensures op { self.old.flight ≡ Some result }
        ensures finished { (m : Meaning) →
            IsRecord m self.new self.old.ticket next.now.symbols None false }
    {
        let op = self.flight.unwrap();
        self.flight = None;
        self.delayed = false;
        self.foresight.take(next);
        op
    }

    /// The same, where the list is what is declared at a site with these values, which its own
    /// covers.
    pub(crate) fn finish_at(&mut self, site: Site, values: &[Value]) -> Op
        requires flight { IsSome self.old.flight }
        requires few { length values.now ≤ max_variables }
        ensures op { self.old.flight ≡ Some result }
        ensures finished { self.new ≡ after_flight_at self.old site values.now }
    {
        let op = self.flight.unwrap();
        self.flight = None;
        self.delayed = false;
        self.foresight.narrow_at(site, values);
        op
    }

    /// Notes that an operation was done that was never in flight, and makes a list the ticket's
    /// foresight.
    pub(crate) fn enter(&mut self, next: &Foresight)
        requires room { max_symbols ≤ self.old.foresight.list.room }
        requires few { length next.now.symbols ≤ max_symbols }
        ensures { (m : Meaning) →
            IsRecord m self.new self.old.ticket next.now.symbols None false }
    {
        self.flight = None;
        self.delayed = false;
        self.foresight.take(next);
    }

    /// The same, where the list is what is declared at a site with these values, which its own
    /// covers.
    pub(crate) fn enter_at(&mut self, site: Site, values: &[Value])
        requires { length values.now ≤ max_variables }
        ensures { self.new ≡ after_flight_at self.old site values.now }
    {
        self.flight = None;
        self.delayed = false;
        self.foresight.narrow_at(site, values);
    }

    /// Gives the ticket up.
    pub(crate) fn end(&mut self)
        ensures { self.new ≡ after_ticket self.old }
    {
        self.ticket = None;
        self.flight = None;
        self.delayed = false;
    }
}
