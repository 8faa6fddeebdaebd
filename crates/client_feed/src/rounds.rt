// Rounds, one after another.

ghost use Rattle.std.specs.Prelude.{◌≡◌, ◌+◌, ◌≤◌, [], ◌++◌, length, IfOk, vec_capacity};
ghost use Rattle.client_feed.specs.Rounds.{AreServed};

use crate::plan::Plan;
use crate::resources::Resources;
use crate::served::Served;
use crate::serving::serve_behind;
use crate::workload::Workload;
use crate::{Arrivals, Gatherer};
use session_hall::{Closed, Sizes};
use session_values::{NoMemory, Reply};
use std::sync::Wait;
use std::thread::Threads;
use worker_gate::Gate;

/// How many requests each round serves but the last, which serves what is left.
pub const ROUND: u32 = 256;

/// Serves all requests in the order in which they arrive, in rounds of 256, or of what is left. The
/// hall of a round takes over the tables that the round before left, so that nothing is entered
/// again. The room of all arrivals and replies is taken before the first round, and each round
/// gives back what it takes beside it and the room of its keys.
pub fn serve_rounds<R: Threads + Wait + Sync, G: Gate + Sync>(
    by: &Resources<'_, R, G>,
    work: &Workload<'_>,
    sizes: Sizes,
    gatherer: &mut Gatherer,
) -> Result<Served, NoMemory>
    requires gatherer { gatherer.old ≡ record { counts = work.now.clients.now.counts; got = [] } }
    ensures served { IfOk result (AreServed work.now.program.now work.now.opening.now
        work.now.clients.now sizes.callers sizes.shards) }
    ensures took { IfOk result (λ v. v.arrivals ≡ gatherer.new.got) }
{
    let (shape, mut later) = work.tables(by.alloc)?;
    let plan = Plan {
        work,
        shape: shape.as_slice(),
        sizes,
    };
    // The counts add up to the number of requests.
    let _clients = work.clients.clients();
    let requests = gatherer.left();
    let mut arrivals = Arrivals::with_room(by.alloc, requests)?;
    let mut replies = Vec::with_capacity(by.alloc, requests as usize)?;
    let mut closed = None;
    'rounds: while gatherer.left() > 0 {
        let left = gatherer.left();
        let before = requests - left;
        gatherer.gather(by.rt, fewer(ROUND, left), &mut arrivals);
        let came = &arrivals.list()[before as usize..];
        let hall = serve_behind(by, &plan, closed, later.as_mut_slice(), came)?;
        push_replies(&hall, &mut replies);
        closed = Some(hall);
    }
    Ok(Served::over(arrivals, replies, closed))
}

// The smaller of two numbers.
fn fewer(a: u32, b: u32) -> u32
    ensures first { result ≤ a }
    ensures second { result ≤ b }
    ensures either { (a ≤ b → result ≡ a) × (b ≤ a → result ≡ b) }
{
    if a < b { a } else { b }
}

// Appends the replies of a round, in room that is left for them.
fn push_replies(closed: &Closed, replies: &mut Vec<Reply>)
    requires { length replies.old.items + length closed.now.replies ≤ vec_capacity replies.old }
    ensures replies { replies.new.items ≡ replies.old.items ++ closed.now.replies }
    ensures room { vec_capacity replies.new ≡ vec_capacity replies.old }
{
    for reply in closed.replies().as_slice() {
        replies.push_reserved(*reply);
    }
}
