// The ways of longest chains.

ghost use Rattle.std.specs.Prelude.{◌≡◌, ◌<◌, IfOk, length, map};
ghost use Rattle.std.specs.List.{All};
ghost use Rattle.waiting_pairs.specs.Steps as spec;

use crate::links::Step;
use session_values::NoMemory;
use std::alloc::Global;

/// The tickets of a longest chain from this one on.
fn way(alloc: Global, table: &[Step], ticket: u32) -> Result<Vec<u32>, NoMemory>
    requires table { spec.IsTable (length table.now) table.now }
    requires ticket { ticket < length table.now }
    ensures { IfOk result (λ way. way.items ≡ spec.way table.now ticket) }
{
    let mut way = Vec::new(alloc);
    let mut at = ticket;
    let count = table[ticket as usize].count;
    for _ in 0..count {
        way.push(at)?;
        at = table[at as usize].next;
    }
    way.push(at)?;
    Ok(way)
}

/// The ways from some tickets.
pub(crate) fn ways(alloc: Global, table: &[Step], heads: &[u32]) -> Result<Vec<Vec<u32>>, NoMemory>
    requires table { spec.IsTable (length table.now) table.now }
    requires heads { All (λ t. t < length table.now) heads.now }
    ensures { IfOk result (λ ways. map (λ w. w.items) ways.items
        ≡ map (spec.way table.now) heads.now) }
{
    let mut ways = Vec::new(alloc);
    for t in heads {
        ways.push(way(alloc, table, *t)?)?;
    }
    Ok(ways)
}
