// The calls of a lane.

ghost use Rattle.std.specs.Prelude.{MatchOption};
ghost use Rattle.hall_writing.specs.Lanes.{Found, HasTaken, IsSpoken, Offered};
ghost use Rattle.hall_writing.specs.Ends.{IsEndOf, state_of};

use crate::lane::{End, Lane};
use crate::rule::{PutIn, Spoken, TookOut};
use std::sync::Wait;

impl Lane {
    /// Puts the message in; false where the lane was full at some moment of the call, and the
    /// message is dropped.
    pub fn offer<R: Wait>(&self, rt: &R, end: &mut End, m: Spoken) -> bool
        requires end { IsEndOf self.now (state_of end.old).known end.old }
        requires spoken { IsSpoken (state_of end.old).known m }
        ensures end { IsEndOf self.now (state_of end.old).known end.new }
        ensures offered { Offered (state_of end.old) m (state_of end.new) result }
    {
        self.queue.push_as::<PutIn, R>(rt, &mut end.pass, m).is_ok()
    }

    /// Takes the oldest message out; none where the lane was empty at some moment of the call.
    pub fn next<R: Wait>(&self, rt: &R, end: &mut End) -> Option<Spoken>
        requires end { IsEndOf self.now (state_of end.old).known end.old }
        ensures end { IsEndOf self.now (state_of end.old).known end.new }
        ensures took { MatchOption result (Found 0 (state_of end.old) (state_of end.new))
            (λ m. HasTaken (state_of end.old) m (state_of end.new)) }
    {
        self.queue.pop_as::<TookOut, R>(rt, &mut end.pass)
    }
}
