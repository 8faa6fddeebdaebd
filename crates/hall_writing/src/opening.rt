// Opening a lane.

ghost use Rattle.std.specs.Prelude.{◌≡◌, ◌≤◌, IfOk, length};
ghost use Rattle.std.specs.List.{AllByRecursion};
ghost use Rattle.session_values.specs.Limits.{max_callers};
ghost use Rattle.session_values.specs.Serial.{serial_replies};
ghost use Rattle.session_journal.specs.Script.{session_of};
ghost use Rattle.hall_writing.specs.Ends.{IsNewEnd};

use crate::lane::{End, Ends, Lane};
use crate::rule::{Another, LaneRule, Reported, Served};
use crossbeam_queue::RuledArrayQueue;
use session_journal::Script;
use session_values::{Listed, NoMemory};
use std::alloc::Global;
use std::marker::Brand;

// How many messages a lane has room for; the definition is `lane_room`.
const ROOM: usize = 1024;

impl Lane {
    /// A lane that holds nothing, and an end for each caller, for the serial replies of a script.
    pub fn open<S: Script>(alloc: Global, plan: &S, callers: u32) -> Result<(Lane, Ends), NoMemory>
        requires callers { (1 ≤ callers) × (callers ≤ max_callers) }
        ensures count { IfOk result (λ r. length r.1 ≡ callers) }
        ensures ends { IfOk result (λ r. AllByRecursion (IsNewEnd r.0 callers
            (serial_replies (session_of (S.meaning plan.now)) (S.meaning plan.now).requests)) r.1) }
    {
        opened::<S, Brand>(alloc, plan, callers)
    }
}

// The same, where a type names the replies and the number of callers.
fn opened<S: Script, K: Served>(
    alloc: Global,
    plan: &S,
    callers: u32,
) -> Result<(Lane, Ends), NoMemory>
    requires told { K.replies ≡ serial_replies (session_of (S.meaning plan.now))
        (S.meaning plan.now).requests }
    requires many { K.callers ≡ callers }
    requires callers { (1 ≤ callers) × (callers ≤ max_callers) }
    ensures count { IfOk result (λ r. length r.1 ≡ callers) }
    ensures ends { IfOk result (λ r. AllByRecursion (IsNewEnd r.0 callers
        (serial_replies (session_of (S.meaning plan.now)) (S.meaning plan.now).requests)) r.1) }
{
    let mut ends = Vec::with_capacity(alloc, callers as usize)?;
    let (queue, mut pass) = RuledArrayQueue::<_, _, LaneRule>::ruled(alloc, ROOM)?;
    let _spare = queue.another::<Reported<K>>(&mut pass);
    for made in 1..callers {
        let other = queue.another::<Another>(&mut pass);
        ends.push_reserved(End { pass: other });
    }
    ends.push_reserved(End { pass });
    Ok((Lane { queue }, Listed::from_vec(ends)))
}
