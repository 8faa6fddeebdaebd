// Desks over a caller that may keep the book.

ghost use Rattle.std.specs.Prelude.{◌≡◌, ◌↔◌, None, false};
ghost use Rattle.session_hall.specs.Holdings.{IsHoldingOf};
ghost use Rattle.session_hall.specs.Names.{script_of};
ghost use Rattle.hall_serving.specs.Desks.{IsServing, ticket_of};
ghost use Rattle.hall_serving.specs.KeptDesks.{IsHoldingOfDesk, kept_desk_at};

use crate::keeping::give_back;
use crate::kept_calls::{call, declare, declare_at, end};
use session_hall::{Hall, Holding, Stage, Waits};
use session_journal::{Desk, Site, Tickets};
use session_values::{NoMemory, Op, Reply, Value};
use std::marker::Model;
use std::sync::Wait;
use std::thread::Threads;
use symbolic_ops::Foresight;
use worker_gate::{Gate, Place};

/// After so many operations that were entered in the book in hand, or so many tickets without one
/// that were ended, it is given back, if a caller waits: within a ticket as between two tickets.
const MOST_IN_HAND: u32 = 512;

/// A desk at which a caller of a hall serves its ticket, with the book in hand wherever its gate
/// holds nobody and no older ticket delays it. It never wants memory.
#[derive(Drop)]
pub struct HoldingDesk<'a, S: Tickets + Drop, G: Gate> {
    pub(crate) hall: &'a Hall<S>,
    pub(crate) holding: &'a mut Holding<S>,
    pub(crate) gate: &'a G,
    /// The ticket that the caller serves, or served.
    pub(crate) ticket: u32,
    /// How many operations were entered at this desk.
    pub(crate) done: u32,
    /// What the ticket was ended with.
    pub(crate) reply: Option<Reply>,
    /// How often its caller had to wait.
    pub(crate) waits: Waits,
    /// Whether the ticket may compute for long between two calls. The book isn't kept meanwhile.
    pub(crate) computes: bool,
}

impl<'a, S: Tickets + Drop, G: Gate> Model for HoldingDesk<'a, S, G> {
    ghost use Rattle.session_hall.specs.Names.{script_of};
    ghost use Rattle.hall_serving.specs.Desks.{HallView};
    ghost use Rattle.hall_serving.specs.KeptDesks.{KeptStands, kept_desk_at};

    ghost Value = { HallView S };

    ghost view = { λ d. record {
      script = script_of d.hall.now;
      desk = kept_desk_at d.hall.now d.holding.now d.ticket d.holding.ghost_name;
      reply = d.reply;
    } };

    ghost invariant = { λ d. KeptStands S.meaning d.hall.now d.holding.now d.ticket d.reply };
}

impl<'a, S: Tickets + Drop, G: Gate> HoldingDesk<'a, S, G> {
    /// The desk of a caller that serves a ticket.
    pub fn over(
        hall: &'a Hall<S>,
        holding: &'a mut Holding<S>,
        gate: &'a G,
        computes: bool,
    ) -> HoldingDesk<'a, S, G>
        requires holding { IsHoldingOf S.meaning hall.now holding.old }
        requires stage { IsServing holding.old.caller.stage }
        ensures script { result.script ≡ script_of hall.now }
        ensures desk { result.desk ≡ kept_desk_at hall.now holding.old
            (ticket_of holding.old.caller.stage) holding.entry.ghost_name }
        ensures reply { result.reply ≡ None }
    {
        let Stage::Serving(ticket) = holding.caller.stage() else {
            unreachable!();
        };
        HoldingDesk {
            hall,
            holding,
            gate,
            ticket,
            done: 0,
            reply: None,
            waits: Waits::none(),
            computes,
        }
    }

    /// Gives the holding back, so that it can go on.
    pub fn into_holding(self) -> &'a mut Holding<S>
        ensures { IsHoldingOfDesk S.meaning self.entry result.now result.ghost_name }
    {
        let HoldingDesk {
            hall: _,
            holding,
            gate: _,
            ticket: _,
            done: _,
            reply: _,
            waits: _,
            computes: _,
        } = self;
        holding
    }

    // How often its caller had to wait.
    pub(crate) fn waits(&self) -> u32 {
        self.waits.count()
    }

    /// The Reply with which the ticket was ended.
    pub fn reply(&self) -> Option<Reply>
        ensures is { result ≡ self.now.reply }
        ensures none { (result ≡ None) ↔ (self.now.desk.ended ≡ false) }
    {
        self.reply
    }

    // Whether a caller waits and so many operations were entered, or tickets ended, that the book is
    // to be given back.
    fn is_to_be_left(&self) -> bool {
        let most = self.holding.entered().max(self.holding.ended());
        most >= MOST_IN_HAND && self.hall.is_wanted()
    }

    // Gives the book back at this place, if it is left to others or the gate may hold its caller
    // here.
    pub(crate) fn come_to(&mut self, place: Place, left: bool)
        requires quiet { self.old.desk.waiting ≡ None }
        ensures still { self.new ≡ self.old }
    {
        if left || self.gate.may_hold(place) {
            give_back(self.hall, self.holding);
        }
    }

    // Counts an operation that was entered, and answers the place to which its caller has come.
    fn come_to_done(&mut self) -> Place
        requires quiet { self.old.desk.waiting ≡ None }
        ensures still { self.new ≡ self.old }
    {
        self.done = self.done.wrapping_add(1);
        let place = Place::Done(self.ticket, self.done);
        let wanted = self.is_to_be_left();
        self.come_to(place, self.computes || wanted);
        if wanted {
            self.hall.until_taken();
        }
        place
    }
}

impl<'a, S: Tickets + Drop, G: Gate> Desk for HoldingDesk<'a, S, G> {
    type Served = S;

    ghost script = { λ d. d.script };

    ghost at = { λ d. d.desk };

    fn call<R: Threads + Wait + Sync>(&mut self, rt: &R, op: Op) -> Result<Value, NoMemory> {
        Ok(call(
            rt,
            self.hall,
            self.holding,
            (self.gate, self.ticket),
            op,
            &mut self.waits,
        ))
    }

    fn finish<R: Threads + Wait + Sync>(&mut self, rt: &R, next: &Foresight) {
        if self.holding.is_kept() {
            self.holding.enter(self.hall, next);
        } else {
            self.holding
                .caller
                .finish_with(rt, self.hall, next, &mut self.waits);
        }
        let place = self.come_to_done();
        self.gate.pass(rt, place);
    }

    fn finish_at<R: Threads + Wait + Sync>(&mut self, rt: &R, site: Site, values: &[Value]) {
        if self.holding.is_kept() {
            self.holding.enter_at(self.hall, site, values);
        } else {
            self.holding
                .caller
                .finish_at(rt, self.hall, site, values, &mut self.waits);
        }
        let place = self.come_to_done();
        self.gate.pass(rt, place);
    }

    fn declare<R: Threads + Wait + Sync>(&mut self, rt: &R, f: &Foresight) {
        declare(rt, self.hall, self.holding, f, &mut self.waits);
    }

    fn declare_at<R: Threads + Wait + Sync>(&mut self, rt: &R, site: Site, values: &[Value]) {
        declare_at(rt, self.hall, self.holding, site, values, &mut self.waits);
    }

    fn end<R: Threads + Wait + Sync>(&mut self, rt: &R, reply: Reply) {
        let (ending, ended) = (Place::Ending(self.ticket), Place::Ended(self.ticket));
        self.come_to(ending, false);
        self.gate.pass(rt, ending);
        end(rt, self.hall, self.holding, reply, &mut self.waits);
        self.reply = Some(reply);
        let left = self.is_to_be_left() || self.hall.is_delaying();
        self.come_to(ended, left);
        self.gate.pass(rt, ended);
    }
}
