// Taking the book and giving it back, where it may be in hand.

ghost use Rattle.session_hall.specs.HoldingCalls.{IsQuiet};
ghost use Rattle.session_hall.specs.Holdings.{IsHoldingOf, IsKept, StaysHolding};
ghost use Rattle.hall_serving.specs.KeptCalls.{GivesBack, SameTicket};

use session_hall::{Hall, Holding, Waits};
use session_journal::Tickets;
use std::sync::Wait;

// Takes the book, unless it is in hand.
#[inline(always)]
pub(crate) fn keep<R: Wait, S: Tickets + Drop>(
    rt: &R,
    hall: &Hall<S>,
    holding: &mut Holding<S>,
    waits: &mut Waits,
)
    requires holding { IsHoldingOf S.meaning hall.now holding.old }
    requires stage { IsQuiet holding.old.caller.stage }
    ensures holding { StaysHolding S.meaning hall.now holding.old holding.new }
    ensures kept { IsKept holding.new.book }
    ensures still { SameTicket holding.old holding.new }
{
    if holding.is_kept() {
        return;
    }
    holding.hold_with(rt, hall, waits);
}

// Gives back the book, if it is in hand.
#[inline(always)]
pub(crate) fn give_back<S: Tickets + Drop>(hall: &Hall<S>, holding: &mut Holding<S>)
    requires holding { IsHoldingOf S.meaning hall.now holding.old }
    requires stage { IsQuiet holding.old.caller.stage }
    ensures holding { StaysHolding S.meaning hall.now holding.old holding.new }
    ensures gave { GivesBack holding.old holding.new }
{
    if holding.is_kept() {
        holding.release(hall);
    }
}
