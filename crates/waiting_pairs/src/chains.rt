// The longest chains.

ghost use Rattle.std.specs.Prelude.{◌≡◌, ◌<◌, ◌^◌, nat_lt, if◌then◌else◌, IfOk, length, map};
ghost use Rattle.waiting_pairs.specs.Chains as spec;
ghost use Rattle.waiting_pairs.specs.Heads.{AreHeads, AreWays, IsMost, is_due as due};
ghost use Rattle.waiting_pairs.specs.Steps.{IsTable};

use crate::delay::Delay;
use crate::links::{Step, sorted_links};
use crate::table::table_of;
use crate::ways::ways;
use session_values::NoMemory;
use std::alloc::Global;

/// The most chains that are told.
const MOST_CHAINS: usize = 3;

/// The larger of two numbers.
fn larger(a: u32, b: u32) -> u32
    ensures { result ≡ (if nat_lt a b then b else a) }
{
    if a < b { b } else { a }
}

/// The largest count of a table; 0 of an empty one.
fn most_of(table: &[Step]) -> u32
    ensures { IsMost table.now result }
{
    let mut most = 0;
    for step in table {
        most = larger(most, step.count);
    }
    most
}

/// Whether a ticket joins these first ones with this count.
fn is_due(table: &[Step], t: u32, most: u32, heads: &[u32]) -> bool
    requires { t < length table.now }
    ensures { result ≡ due table.now t most heads.now }
{
    table[t as usize].count == most && 0 < most && heads.len() < MOST_CHAINS
}

/// The first tickets with this count, as many as chains are told; none where it is 0.
fn heads_of(alloc: Global, table: &[Step], most: u32) -> Result<Vec<u32>, NoMemory>
    requires { length table.now < 2 ^ 32 }
    ensures { IfOk result (λ heads. AreHeads table.now most (length table.now) heads.items) }
{
    let mut heads = Vec::new(alloc);
    for t in 0..table.len() as u32 {
        if is_due(table, t, most, &heads) {
            heads.push(t)?;
        }
    }
    Ok(heads)
}

/// The longest chains of a table: none where no count is above 0.
fn chains_in(alloc: Global, table: &[Step]) -> Result<Vec<Vec<u32>>, NoMemory>
    requires table { IsTable (length table.now) table.now }
    requires few { length table.now < 2 ^ 32 }
    ensures { IfOk result (λ chains. AreWays table.now (map (λ c. c.items) chains.items)) }
{
    let most = most_of(table);
    let heads = heads_of(alloc, table, most)?;
    let first = heads.as_slice();
    ways(alloc, table, first)
}

/// The longest chains of delays of so many requests' tickets, one of each first ticket, the least
/// first ticket first, and at most three.
pub(crate) fn chains_of(
    alloc: Global,
    tickets: u32,
    delays: &[Delay],
) -> Result<Vec<Vec<u32>>, NoMemory>
    ensures { IfOk result (λ chains. spec.AreLongest tickets delays.now
        (map (λ c. c.items) chains.items)) }
{
    let links = sorted_links(alloc, tickets, delays)?;
    let sorted = links.as_slice();
    let table = table_of(alloc, tickets, sorted)?;
    let steps = table.as_slice();
    chains_in(alloc, steps)
}
