// All feeders beside each other.

ghost use Rattle.std.specs.Prelude.{◌≡◌, ◌<◌, ℕ, length, slice_index_or, vec_len};
ghost use Rattle.client_feed.specs.Ends.{FeederView, all_sent};

use crate::feeder::Feeder;
use std::sync::Wait;
use std::thread;
use std::thread::Threads;
use worker_gate::Gate;

/// Each feeder sends its client's requests, in a thread of its own where one can be made.
pub fn feed_all<R: Threads + Wait + Sync, G: Gate + Sync>(
    rt: &R,
    gate: &G,
    feeders: &mut Vec<Feeder>,
)
    requires { 0 < vec_len feeders.old }
    ensures count { length feeders.new.items ≡ length feeders.old.items }
    ensures sent { (i : ℕ) (d : FeederView) → i < length feeders.old.items
        → slice_index_or feeders.new.items i d ≡ all_sent (slice_index_or feeders.old.items i d) }
{
    let threads = feeders.len();
    thread::for_each_mut(
        rt,
        feeders.as_mut_slice(),
        threads,
        &|_: usize, feeder: &mut Feeder|
            ensures { feeder.new ≡ all_sent feeder.old }
        { feeder.send_all(rt, gate) },
    );
}
