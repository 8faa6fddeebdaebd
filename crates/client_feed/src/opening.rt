// Opening a feed.

ghost use Rattle.std.specs.Prelude.{◌≡◌, ◌<◌, ◌≤◌, [], length, sum, IfOk};
ghost use Rattle.session_values.specs.Limits.{max_requests};
ghost use Rattle.reply_sheet.specs.Arrivals.{max_clients};
ghost use Rattle.client_feed.specs.Ends.{AreFeeders};

use crate::feeder::{Feeder, Feeders};
use crate::gatherer::Gatherer;
use crate::rule::{Counted, Hand, InOrder, NextClient, Reported};
use crossbeam_channel::bounded_with;
use reply_sheet::Arrival;
use session_values::{Listed, NoMemory};
use std::alloc::Global;
use std::marker::Brand;

/// The channel between clients and the one who gathers their requests.
pub struct Feed;

impl Feed {
    /// A feeder for each client, and the gatherer, of clients with so many requests each.
    pub fn open(alloc: Global, counts: &[u32]) -> Result<(Feeders, Gatherer), NoMemory>
        requires clients { (1 ≤ length counts.now) × (length counts.now ≤ max_clients) }
        requires requests { sum counts.now ≤ max_requests }
        ensures feeders { IfOk result (λ r. AreFeeders counts.now r.0) }
        ensures gatherer { IfOk result (λ r. r.1 ≡ record { counts = counts.now; got = [] }) }
    {
        opened::<Brand>(alloc, counts)
    }
}

// The same, where a type names how many requests each client has.
fn opened<K: Counted>(alloc: Global, counts: &[u32]) -> Result<(Feeders, Gatherer), NoMemory>
    requires told { K.counts ≡ counts.now }
    requires clients { (1 ≤ length counts.now) × (length counts.now ≤ max_clients) }
    requires requests { sum counts.now ≤ max_requests }
    ensures feeders { IfOk result (λ r. AreFeeders counts.now r.0) }
    ensures gatherer { IfOk result (λ r. r.1 ≡ record { counts = counts.now; got = [] }) }
{
    let total = total_of(counts);
    let room = if total == 0 { 1 } else { total as usize };
    let mut feeders = Vec::with_capacity(alloc, counts.len())?;
    let (sender, receiver, mut pass) = bounded_with::<Arrival, Hand, InOrder, Global>(alloc, room)?;
    let _spare = sender.another::<Reported<K>>(&mut pass);
    for client in 0..counts.len() {
        let own = sender.try_clone()?;
        let next = sender.another::<NextClient>(&mut pass);
        feeders.push_reserved(Feeder {
            sender: own,
            pass: next,
            client: client as u32,
            count: counts[client],
            sent: 0,
        });
    }
    let gatherer = Gatherer {
        receiver,
        pass,
        left: total,
    };
    Ok((Listed::from_vec(feeders), gatherer))
}

// How many requests all clients have together.
fn total_of(counts: &[u32]) -> u32
    requires { sum counts.now ≤ max_requests }
    ensures { result ≡ sum counts.now }
{
    counts.iter().sum()
}
