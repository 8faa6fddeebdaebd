// Lanes and their ends.

ghost use Rattle.std.specs.Prelude.{◌≡◌};
ghost use Rattle.crossbeam_queue.specs.Passes.{ruled_capacity};
ghost use Rattle.hall_writing.specs.Lanes.{lane_room};

use crate::rule::{EndState, LaneRule, Spoken};
use crossbeam_queue::{Pass, RuledArrayQueue};
use session_values::Listed;

/// A lane of messages, each of which is spoken for one list of replies.
#[derive(Drop)]
pub struct Lane {
    pub(crate) queue: RuledArrayQueue<Spoken, EndState, LaneRule>,
    ghost room: { ruled_capacity queue ≡ lane_room },
}

/// What a caller puts messages in by, and takes them out by.
#[derive(Drop)]
pub struct End {
    pub(crate) pass: Pass<Spoken, EndState>,
}

/// The ends of a lane, one for each caller.
pub type Ends = Listed<End>;
