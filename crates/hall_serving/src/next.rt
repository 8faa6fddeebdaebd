// One ticket, from its beginning to its end.

ghost use Rattle.std.specs.Prelude.{◌≡◌, ◌<◌, [], Some};
ghost use Rattle.session_values.specs.Serial.{serial_replies};
ghost use Rattle.session_journal.specs.Journal.{begun, ended};
ghost use Rattle.session_journal.specs.Script.{session_of};
ghost use Rattle.session_hall.specs.Callers.{IsCallerOf, StaysCaller, book_of, entries_of, foresight_of};
ghost use Rattle.session_hall.specs.Stages.{IsBetween};
ghost use Rattle.session_hall.specs.declared.stage.Stage.TheVariants.{Idle, Out, Serving};
ghost use Rattle.hall_serving.specs.Jobs.{HasBegunNone, ServesNext};

use crate::crew::Crew;
use crate::desk::HallDesk;
use crate::pause::Pause;
use admission_book::laws::answering;
use session_hall::Caller;
use session_journal::{Scratch, Script, Serves};
use session_values::Reply;
use std::sync::Wait;
use std::thread::Threads;
use worker_gate::{Gate, Place};

/// Begins the next ticket, after the pause, and serves it alone, to its end: it answers the
/// ticket and its reply, which is its serial one. None comes where all tickets are begun; the
/// caller is out then.
pub fn serve_next<R: Threads + Wait + Sync, S: Serves + Drop, G: Gate>(
    crew: Crew<'_, R, S, G>,
    caller: &mut Caller<S>,
    scratch: &mut Scratch,
    pause: &mut Pause,
) -> Option<(u32, Reply)>
    requires caller { IsCallerOf S.meaning crew.hall.now caller.old }
    requires between { IsBetween caller.old.stage }
    ensures caller { StaysCaller S.meaning crew.entry.hall.now caller.old caller.new }
    ensures served { ServesNext
        (serial_replies (session_of (S.meaning crew.entry.plan.now))
        (S.meaning crew.entry.plan.now).requests) caller.old caller.new result }
{
    answering();
    let Crew {
        rt,
        plan,
        hall,
        gate,
    } = crew;
    pause.wait(hall, plan.requests());
    let Some(ticket) = caller.begin(rt, hall) else {
        return None;
    };
    gate.pass(rt, Place::Begun(ticket));
    let reply = serve_ticket(crew, ticket, caller, scratch, pause);
    Some((ticket, reply))
}

// Serves the ticket that the caller has begun, to its end.
fn serve_ticket<R: Threads + Wait + Sync, S: Serves + Drop, G: Gate>(
    crew: Crew<'_, R, S, G>,
    ticket: u32,
    caller: &mut Caller<S>,
    scratch: &mut Scratch,
    pause: &mut Pause,
) -> Reply
    requires caller { IsCallerOf S.meaning crew.hall.now caller.old }
    requires stage { caller.old.stage ≡ Serving ticket }
    requires within { ticket < (S.meaning crew.plan.now).requests }
    requires fresh { entries_of caller.old ticket ≡ [] }
    requires entry { foresight_of caller.old ≡ (S.meaning crew.plan.now).entry ticket }
    ensures caller { StaysCaller S.meaning crew.entry.hall.now caller.old caller.new }
    ensures begun { HasBegunNone caller.old caller.new }
    ensures idle { caller.new.stage ≡ Idle }
    ensures known { (ticket < begun (book_of caller.new).journal)
        × (ended (book_of caller.new).journal ticket ≡ Some result) }
{
    let Crew {
        rt,
        plan,
        hall,
        gate,
    } = crew;
    let mut desk = HallDesk::over(hall, caller, gate);
    match plan.serve(rt, ticket, scratch, &mut desk) {
        Ok(()) => {}
        Err(_) => unreachable!(),
    }
    let Some(reply) = desk.reply() else {
        unreachable!();
    };
    pause.after(desk.waits());
    let HallDesk {
        hall: _,
        caller: _served,
        gate: _,
        ticket: _,
        done: _,
        reply: _,
        waits: _,
    } = desk;
    reply
}
