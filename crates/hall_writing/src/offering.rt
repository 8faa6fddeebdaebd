// Handing a reply over to the caller that writes.

ghost use Rattle.hall_writing.specs.Ends.{IsEndOf, state_of};
ghost use Rattle.hall_writing.specs.Lanes.{IsSpoken, Offered};

use crate::{End, Lane, Spoken};
use hall_serving::AfterEnd;
use session_hall::{Hall, Holding};
use session_journal::Tickets;
use session_values::Reply;
use std::sync::Wait;

/// How often a reply that finds the lane full is offered again: some 0.2 milliseconds. The thread
/// isn't yielded meanwhile, since beside other work each yield may take many times as long.
pub(crate) const MOST_OFFERS: u32 = 10_000;

/// Each reply is offered to the lane.
#[derive(Drop)]
pub(crate) struct Offering<'a> {
    pub(crate) lane: &'a Lane,
    pub(crate) end: &'a mut End,
    /// How often a reply that finds the lane full is offered again: not at all after one of them
    /// wasn't put in, so that an output that is blocked doesn't slow all serving.
    pub(crate) patience: u32,
}

impl<'a> AfterEnd for Offering<'a> {
    ghost use Rattle.std.specs.Prelude.{◌≡◌};
    ghost use Rattle.hall_writing.specs.Ends.{IsEndOf};
    ghost use Rattle.hall_writing.specs.Steps.{HasOfferedAt};

    ghost Takes = { λ replies o. IsEndOf o.lane.now replies o.end.now };

    ghost Given = { λ o t p. HasOfferedAt o t p };

    ghost Seen = { λ o e p. p ≡ o };

    // A full lane is waited for some 0.2 milliseconds, and then never again.
    ghost IsLong = { λ o. ⊥ };

    fn takes_long(&self) -> bool {
        false
    }

    fn see<S: Tickets + Drop>(&mut self, _hall: &Hall<S>, _holding: &Holding<S>) {}

    fn after<R: Wait, S: Tickets + Drop>(
        &mut self,
        rt: &R,
        _holding: &Holding<S>,
        ticket: u32,
        reply: Reply,
    ) {
        let message = Spoken { ticket, reply };
        if !offer_patiently(rt, self.lane, self.end, &message, self.patience) {
            self.patience = 0;
        }
    }

    fn meanwhile<R: Wait, S: Tickets + Drop>(&mut self, _rt: &R, _holding: &Holding<S>) {}
}

// Offers the message, and again so many times at most as long as the lane is full: a failed attempt
// changes nothing.
fn offer_patiently<R: Wait>(
    rt: &R,
    lane: &Lane,
    end: &mut End,
    message: &Spoken,
    patience: u32,
) -> bool
    requires end { IsEndOf lane.now (state_of end.old).known end.old }
    requires spoken { IsSpoken (state_of end.old).known message.now }
    ensures end { IsEndOf lane.now (state_of end.old).known end.new }
    ensures offered { Offered (state_of end.old) message.now (state_of end.new) result }
{
    for _ in 0..patience {
        if lane.offer(rt, end, *message) {
            return true;
        }
    }
    lane.offer(rt, end, *message)
}
