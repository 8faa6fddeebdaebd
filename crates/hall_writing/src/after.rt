// Taking the replies that other callers handed over.

ghost use Rattle.std.specs.Prelude.{◌≡◌, ◌<◌, ℕ, [], false};
ghost use Rattle.hall_writing.specs.Ends.{IsEndOf, state_of};
ghost use Rattle.hall_writing.specs.Lanes.{IsMoment, times};
ghost use Rattle.hall_writing.specs.Sheets.{IsKept, Keeps};

use crate::{End, Lane};
use reply_sheet::Pending;
use std::sync::Wait;

// Takes messages until the lane has none, and keeps their replies. With one caller it has none.
pub(crate) fn take_all<R: Wait>(
    rt: &R,
    lane: &Lane,
    end: &mut End,
    alone: bool,
    pending: &mut Pending,
)
    requires end { IsEndOf lane.now (state_of end.old).known end.old }
    requires keeps { Keeps (state_of end.old).known pending.old }
    ensures end { IsEndOf lane.now (state_of end.old).known end.new }
    ensures keeps { Keeps (state_of end.old).known pending.new }
    ensures still { (t : ℕ) → IsKept pending.old t → IsKept pending.new t }
    ensures next { pending.new.next ≡ pending.old.next }
    ensures taken { (t : ℕ) → times t (state_of end.old).taken < times t (state_of end.new).taken
        → IsKept pending.new t }
    ensures empty { alone ≡ false → IsMoment (state_of end.new) [] }
{
    if alone {
        return;
    }
    for _ in rt.forever() {
        let Some(m) = lane.next(rt, end) else {
            return;
        };
        pending.keep(m.ticket, m.reply);
    }
    unreachable!()
}
