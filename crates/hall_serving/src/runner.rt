// How a caller serves tickets until none is left.

ghost use Rattle.std.specs.Prelude.{◌≡◌, List, None};
ghost use Rattle.session_values.specs.declared.reply.Reply.{Reply};
ghost use Rattle.session_values.specs.Serial.{serial_replies};
ghost use Rattle.session_journal.specs.Script.{session_of};
ghost use Rattle.session_hall.specs.HoldingCalls.{IsQuiet};
ghost use Rattle.session_hall.specs.Holdings.{IsHoldingOf, IsKept, StaysHolding};
ghost use Rattle.session_hall.specs.Stages.{IsBetween};
ghost use Rattle.session_hall.specs.declared.stage.Stage.TheVariants.{Out};
ghost use Rattle.hall_serving.specs.KeptCalls.{SameTicket};
ghost use Rattle.hall_serving.specs.KeptJobs.{HasSeenAndGiven, HasWaited};

use crate::after::AfterEnd;
use crate::crew::Crew;
use crate::keeping::give_back;
use crate::kept_next::serve_next_kept;
use crate::pause::Pause;
use session_hall::{Hall, Holding, Waits};
use session_journal::{Scratch, Script, Serves, Tickets};
use std::sync::Wait;
use std::thread::Threads;
use worker_gate::Gate;

/// Serves tickets until all are begun. Before each of them, and when none is left, `after` sees the
/// book in hand. After each end it gives the reply to `after`, which asks that no other ticket is
/// begun by then, and that the book isn't in hand if that may take long. While this caller waits for
/// the book, `after` does what it does meanwhile. At the end the caller is out, and the book isn't in
/// hand.
pub fn serve_tickets<R: Threads + Wait + Sync, S: Serves + Drop, G: Gate, A: AfterEnd>(
    crew: Crew<'_, R, S, G>,
    holding: &mut Holding<S>,
    scratch: &mut Scratch,
    after: &mut A,
)
    requires holding { IsHoldingOf S.meaning crew.hall.now holding.old }
    requires between { IsBetween holding.old.caller.stage }
    requires takes { A.Takes (serial_replies (session_of (S.meaning crew.plan.now))
        (S.meaning crew.plan.now).requests) after.old }
    ensures holding { StaysHolding S.meaning crew.entry.hall.now holding.old holding.new }
    ensures out { holding.new.caller.stage ≡ Out }
    ensures unkept { holding.new.book ≡ None }
    ensures given { HasSeenAndGiven A.Seen A.Given holding.old holding.new after.old after.new }
{
    let mut pause = Pause::none();
    for _ in crew.rt.forever() {
        hold_meanwhile(crew, holding, &pause, after);
        after.see(crew.hall, holding);
        let Some((ticket, reply)) = serve_next_kept(crew, holding, scratch, &mut pause) else {
            after.meanwhile(crew.rt, holding);
            return;
        };
        if after.takes_long() {
            give_back(crew.hall, holding);
        }
        after.after(crew.rt, holding, ticket, reply);
        give_way(crew.hall, holding);
    }
    unreachable!()
}

// Lets others go first, unless the book is in hand.
fn give_way<S: Tickets + Drop>(hall: &Hall<S>, holding: &Holding<S>) {
    if !holding.is_kept() {
        hall.give_way();
    }
}

// Takes the book, unless it is in hand, after the pause and however often it is found taken, and
// does meanwhile what can be done.
fn hold_meanwhile<R: Threads + Wait + Sync, S: Serves + Drop, G: Gate, A: AfterEnd>(
    crew: Crew<'_, R, S, G>,
    holding: &mut Holding<S>,
    pause: &Pause,
    after: &mut A,
)
    requires holding { IsHoldingOf S.meaning crew.hall.now holding.old }
    requires stage { IsQuiet holding.old.caller.stage }
    requires takes { (replies : List Reply) × A.Takes replies after.old }
    ensures holding { StaysHolding S.meaning crew.entry.hall.now holding.old holding.new }
    ensures kept { IsKept holding.new.book }
    ensures still { SameTicket holding.old holding.new }
    ensures takes { (replies : List Reply) → A.Takes replies after.old → A.Takes replies after.new }
    ensures waited { HasWaited A.Given after.old after.new }
{
    if holding.is_kept() {
        return;
    }
    pause.wait(crew.hall, crew.plan.requests());
    let mut waits = Waits::none();
    for _ in crew.rt.forever() {
        if holding.hold(crew.hall) {
            return;
        }
        after.meanwhile(crew.rt, holding);
        waits.until_free(crew.hall, 0);
    }
    unreachable!()
}
