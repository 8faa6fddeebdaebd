// One ticket, from its beginning to its end, by a caller that may keep the book.

ghost use Rattle.std.specs.Prelude.{◌≡◌, ◌<◌, [], Some};
ghost use Rattle.session_values.specs.Serial.{serial_replies};
ghost use Rattle.session_journal.specs.Journal.{begun, ended};
ghost use Rattle.session_journal.specs.Script.{session_of};
ghost use Rattle.session_hall.specs.Holdings.{IsHoldingOf, StaysHolding, begun_at, entries_at, foresight_at, present_book};
ghost use Rattle.session_hall.specs.Names.{script_of};
ghost use Rattle.session_hall.specs.Stages.{IsBetween};
ghost use Rattle.session_hall.specs.declared.stage.Stage.TheVariants.{Idle, Serving};
ghost use Rattle.hall_serving.specs.KeptJobs.{ServesNextKept};

use crate::crew::Crew;
use crate::keeping::{give_back, keep};
use crate::kept_desk::HoldingDesk;
use crate::pause::Pause;
use admission_book::laws::{answering, foreknowing};
use session_hall::{Holding, Waits};
use session_journal::{Scratch, Script, Serves};
use session_values::Reply;
use std::sync::Wait;
use std::thread::Threads;
use worker_gate::{Gate, Place};

/// Begins the next ticket and serves it alone, to its end, in the book in hand wherever that is
/// possible: it answers the ticket and its reply, which is its serial one. It pauses first where
/// the book isn't in hand. None comes where all tickets are begun; the caller is out then, and
/// the book isn't in hand.
pub fn serve_next_kept<R: Threads + Wait + Sync, S: Serves + Drop, G: Gate>(
    crew: Crew<'_, R, S, G>,
    holding: &mut Holding<S>,
    scratch: &mut Scratch,
    pause: &mut Pause,
) -> Option<(u32, Reply)>
    requires holding { IsHoldingOf S.meaning crew.hall.now holding.old }
    requires between { IsBetween holding.old.caller.stage }
    ensures holding { StaysHolding S.meaning crew.entry.hall.now holding.old holding.new }
    ensures served { ServesNextKept
        (serial_replies (session_of (S.meaning crew.entry.plan.now))
        (S.meaning crew.entry.plan.now).requests) holding.old holding.new result }
{
    answering();
    foreknowing();
    let Crew {
        rt,
        plan,
        hall,
        gate: _,
    } = crew;
    if !holding.is_kept() {
        pause.wait(hall, plan.requests());
    }
    keep(rt, hall, holding, &mut Waits::none());
    let Some(ticket) = holding.begin(hall) else {
        give_back(hall, holding);
        return None;
    };
    let reply = serve_kept(crew, ticket, holding, scratch, pause);
    Some((ticket, reply))
}

// Serves the ticket that the caller has begun, to its end.
fn serve_kept<R: Threads + Wait + Sync, S: Serves + Drop, G: Gate>(
    crew: Crew<'_, R, S, G>,
    ticket: u32,
    holding: &mut Holding<S>,
    scratch: &mut Scratch,
    pause: &mut Pause,
) -> Reply
    requires holding { IsHoldingOf S.meaning crew.hall.now holding.old }
    requires stage { holding.old.caller.stage ≡ Serving ticket }
    requires within { ticket < (S.meaning crew.plan.now).requests }
    requires fresh { entries_at holding.old ticket ≡ [] }
    requires entry { foresight_at holding.old ≡ (S.meaning crew.plan.now).entry ticket }
    ensures holding { StaysHolding S.meaning crew.entry.hall.now holding.old holding.new }
    ensures begun { begun_at holding.new ≡ begun_at holding.old }
    ensures idle { holding.new.caller.stage ≡ Idle }
    ensures known { (ticket < begun (present_book holding.new).journal)
        × (ended (present_book holding.new).journal ticket ≡ Some result) }
{
    let Crew {
        rt,
        plan,
        hall,
        gate,
    } = crew;
    let computes = hall.callers() > 1 && plan.computes(ticket);
    let mut desk = HoldingDesk::over(hall, holding, gate, computes);
    desk.come_to(Place::Begun(ticket), computes);
    gate.pass(rt, Place::Begun(ticket));
    match plan.serve(rt, ticket, scratch, &mut desk) {
        Ok(()) => {}
        Err(_) => unreachable!(),
    }
    let Some(reply) = desk.reply() else {
        unreachable!();
    };
    pause.after(desk.waits());
    let HoldingDesk {
        holding: _served,
        ..
    } = desk;
    reply
}
