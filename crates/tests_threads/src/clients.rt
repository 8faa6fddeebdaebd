// Feeders in threads, and the gatherer beside them.

ghost use Rattle.std.specs.Prelude.{◌<◌, ◌≤◌, ◌+◌, length, sum, vec_len};
ghost use denote.Param.Send.{IsSync};

use client_feed::{Arrivals, Feed, Feeder, Gatherer, feed_all};
use session_values::NoMemory;
use std::process::Abort;
use std::sync::Wait;
use std::thread::{Threads, join};
use worker_gate::{Gate, HoldGate, OpenGate, Place};

/// Sends all requests.
fn fed<R: Threads + Wait + Sync, G: Gate + Sync>(
    rt: &R,
    gate: &G,
    mut feeders: Vec<Feeder>,
) -> Vec<Feeder>
    requires { 0 < vec_len feeders }
{
    feed_all(rt, gate, &mut feeders);
    feeders
}

/// Gathers all that is left.
fn gathered<R: Wait>(rt: &R, mut gatherer: Gatherer, mut out: Arrivals) -> (Gatherer, Arrivals)
    requires { length out.list + sum gatherer.counts ≤ out.room }
{
    let left = gatherer.left();
    gatherer.gather(rt, left, &mut out);
    (gatherer, out)
}

/// The feeders send while the gatherer takes.
fn fed_and_gathered<R: Threads + Wait + Sync, G: Gate + Sync>(
    rt: &R,
    gate: &G,
    feeders: Vec<Feeder>,
    gatherer: Gatherer,
    out: Arrivals,
) -> (Vec<Feeder>, (Gatherer, Arrivals))
    requires some { 0 < vec_len feeders }
    requires room { length out.list + sum gatherer.counts ≤ out.room }
{
    join(
        rt,
        move || -> Vec<Feeder>
            requires { IsSync R.row × IsSync G.row × (0 < vec_len feeders) }
        { fed(rt, gate, feeders) },
        move ||
            requires { length out.list + sum gatherer.counts ≤ out.room }
        { gathered(rt, gatherer, out) },
    )
}

#[test]
fn each_client_comes_in_order(rt: HostRuntime) -> Result<(), NoMemory> {
    let counts = [200, 0, 300, 100];
    let out = Arrivals::with_room(rt.alloc(), 600)?;
    let (feeders, gatherer) = Feed::open(rt.alloc(), &counts)?;
    let (_feeders, (gatherer, out)) = fed_and_gathered(
        &rt,
        &OpenGate,
        feeders.into_vec(),
        gatherer,
        out,
    );
    assert!(&rt; gatherer.left() == 0);
    assert!(&rt; out.list().len() == 600);
    for client in 0..4u32 {
        let mut next = 0;
        for x in out.list() {
            if x.client == client {
                assert!(&rt; x.place == next);
                next = next.wrapping_add(1);
            }
        }
        assert!(&rt; next == counts[client as usize]);
    }
    Ok(())
}

#[test]
fn feeders_run_beside_each_other(rt: HostRuntime) -> Result<(), NoMemory> {
    let out = Arrivals::with_room(rt.alloc(), 3)?;
    let (feeders, gatherer) = Feed::open(rt.alloc(), &[2, 1])?;
    let gate = HoldGate::new(Place::Sent(0, 0), Place::Sent(1, 0), 10_000_000);
    let (_feeders, (_gatherer, out)) = fed_and_gathered(
        &rt,
        &gate,
        feeders.into_vec(),
        gatherer,
        out,
    );
    assert!(&rt; !gate.broken());
    assert!(&rt; out.list().len() == 3);
    Ok(())
}
