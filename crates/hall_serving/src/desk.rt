// Desks over a caller of a hall.

ghost use Rattle.std.specs.Prelude.{◌≡◌, ◌↔◌, None, false};
ghost use Rattle.session_hall.specs.Callers.{IsCallerOf};
ghost use Rattle.session_hall.specs.Names.{script_of};
ghost use Rattle.hall_serving.specs.Desks.{IsCallerOfDesk, IsServing, desk_at, ticket_of};

use session_hall::{Caller, Hall, Stage, Waits};
use session_journal::{Desk, Site, Tickets};
use session_values::{NoMemory, Op, Reply, Value};
use std::marker::Model;
use std::sync::Wait;
use std::thread::Threads;
use symbolic_ops::Foresight;
use worker_gate::{Gate, Place};

/// A desk at which a caller of a hall serves its ticket. It never wants memory.
#[derive(Drop)]
pub struct HallDesk<'a, S: Tickets + Drop, G: Gate> {
    pub(crate) hall: &'a Hall<S>,
    pub(crate) caller: &'a mut Caller<S>,
    pub(crate) gate: &'a G,
    /// The ticket that the caller serves, or served.
    pub(crate) ticket: u32,
    /// How many operations were entered at this desk.
    pub(crate) done: u32,
    /// What the ticket was ended with.
    pub(crate) reply: Option<Reply>,
    /// How often its caller had to wait.
    pub(crate) waits: Waits,
}

impl<'a, S: Tickets + Drop, G: Gate> Model for HallDesk<'a, S, G> {
    ghost use Rattle.session_hall.specs.Names.{script_of};
    ghost use Rattle.hall_serving.specs.Desks.{HallView, DeskStands, desk_at};

    ghost Value = { HallView S };

    ghost view = { λ d. record {
      script = script_of d.hall.now;
      desk = desk_at d.hall.now d.caller.now d.ticket d.caller.ghost_name;
      reply = d.reply;
    } };

    ghost invariant = { λ d. DeskStands S.meaning d.hall.now d.caller.now d.ticket d.reply };
}

impl<'a, S: Tickets + Drop, G: Gate> HallDesk<'a, S, G> {
    /// The desk of a caller that serves a ticket.
    pub fn over(hall: &'a Hall<S>, caller: &'a mut Caller<S>, gate: &'a G) -> HallDesk<'a, S, G>
        requires caller { IsCallerOf S.meaning hall.now caller.old }
        requires stage { IsServing caller.old.stage }
        ensures script { result.script ≡ script_of hall.now }
        ensures desk { result.desk ≡ desk_at hall.now caller.old (ticket_of caller.old.stage)
            caller.entry.ghost_name }
        ensures reply { result.reply ≡ None }
    {
        let Stage::Serving(ticket) = caller.stage() else {
            unreachable!();
        };
        HallDesk {
            hall,
            caller,
            gate,
            ticket,
            done: 0,
            reply: None,
            waits: Waits::none(),
        }
    }

    /// Gives the caller back, so that it can go on.
    pub fn into_caller(self) -> &'a mut Caller<S>
        ensures { IsCallerOfDesk S.meaning self.entry result.now result.ghost_name }
    {
        let HallDesk {
            hall: _,
            caller,
            gate: _,
            ticket: _,
            done: _,
            reply: _,
            waits: _,
        } = self;
        caller
    }

    // How often its caller had to wait.
    pub(crate) fn waits(&self) -> u32 {
        self.waits.count()
    }

    /// The Reply with which the ticket was ended.
    pub fn reply(&self) -> Option<Reply>
        ensures is { result ≡ self.now.reply }
        ensures none { (result ≡ None) ↔ (self.now.desk.ended ≡ false) }
    {
        self.reply
    }
}

impl<'a, S: Tickets + Drop, G: Gate> Desk for HallDesk<'a, S, G> {
    type Served = S;

    ghost script = { λ d. d.script };

    ghost at = { λ d. d.desk };

    fn call<R: Threads + Wait + Sync>(&mut self, rt: &R, op: Op) -> Result<Value, NoMemory> {
        self.caller.admit_with(rt, self.hall, op, &mut self.waits);
        self.gate.pass(rt, Place::Admitted(self.ticket));
        let reply = self.caller.apply_with(rt, self.hall, &mut self.waits);
        self.gate.pass(rt, Place::Applied(self.ticket));
        Ok(reply)
    }

    fn finish<R: Threads + Wait + Sync>(&mut self, rt: &R, next: &Foresight) {
        self.caller
            .finish_with(rt, self.hall, next, &mut self.waits);
        self.done = self.done.wrapping_add(1);
        self.gate.pass(rt, Place::Done(self.ticket, self.done));
    }

    fn finish_at<R: Threads + Wait + Sync>(&mut self, rt: &R, site: Site, values: &[Value]) {
        self.caller
            .finish_at(rt, self.hall, site, values, &mut self.waits);
        self.done = self.done.wrapping_add(1);
        self.gate.pass(rt, Place::Done(self.ticket, self.done));
    }

    fn declare<R: Threads + Wait + Sync>(&mut self, rt: &R, f: &Foresight) {
        self.caller.declare_with(rt, self.hall, f, &mut self.waits);
    }

    fn declare_at<R: Threads + Wait + Sync>(&mut self, rt: &R, site: Site, values: &[Value]) {
        self.caller
            .declare_at(rt, self.hall, site, values, &mut self.waits);
    }

    fn end<R: Threads + Wait + Sync>(&mut self, rt: &R, reply: Reply) {
        self.gate.pass(rt, Place::Ending(self.ticket));
        self.caller.end_with(rt, self.hall, reply, &mut self.waits);
        self.reply = Some(reply);
        self.gate.pass(rt, Place::Ended(self.ticket));
    }
}
