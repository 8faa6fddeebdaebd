// How chains go on from each ticket.

ghost use Rattle.std.specs.Prelude.{◌≡◌, ◌≤◌, ◌<◌, ◌^◌, IfOk, length, slice_index_or};
ghost use Rattle.std.specs.List.{All};
ghost use Rattle.std.specs.List.Sorted.{IsNonDecreasingBy};
ghost use Rattle.waiting_pairs.specs.Steps as spec;

use crate::links::{Link, Step};
use session_values::NoMemory;
use std::alloc::Global;

/// The longer way by this link joins the table.
fn raise(table: &mut [Step], link: Link)
    requires table { spec.IsTable (length table.old) table.old }
    requires older { link.older < link.ticket }
    requires ticket { link.ticket < length table.old }
    requires few { length table.old < 2 ^ 32 }
    ensures { table.new ≡ spec.raised table.old link }
{
    let count = table[link.older as usize].count;
    if count < table[link.ticket as usize].count {
        return;
    }
    table[link.ticket as usize] = Step {
        count: count + 1,
        next: link.older,
    };
}

/// How chains over links go on from each of so many tickets.
pub(crate) fn table_of(alloc: Global, tickets: u32, links: &[Link]) -> Result<Vec<Step>, NoMemory>
    requires links { All (λ l. (l.older < l.ticket) × (l.ticket < tickets)) links.now }
    requires sorted { IsNonDecreasingBy (λ l. l.ticket) links.now }
    ensures table { IfOk result (λ table. spec.IsTable tickets table.items) }
    ensures settled { IfOk result (λ table. spec.IsSettled links.now (length links.now)
        table.items) }
{
    let mut table = vec![in alloc; Step { count: 0, next: 0 }; tickets as usize]?;
    for link in links {
        raise(&mut table, *link);
    }
    Ok(table)
}
