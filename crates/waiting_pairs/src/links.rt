// The delays of requests by older ones.

ghost use Rattle.std.specs.Prelude.{◌≡◌, ◌≤◌, ◌<◌, ◌^◌, IfOk, length};
ghost use Rattle.std.specs.List.{All};
ghost use Rattle.std.specs.List.Sorted.{IsNonDecreasingBy, IsPermutation};
ghost use Rattle.waiting_pairs.specs.Steps as spec;

use crate::delay::Delay;
use session_values::NoMemory;
use std::alloc::Global;

/// That a ticket waited for an older one.
#[derive(Clone, Copy, Debug)]
pub(crate) struct Link {
    pub(crate) ticket: u32,
    pub(crate) older: u32,
}

/// How a chain goes on from a ticket.
#[derive(Clone, Copy, Debug)]
pub(crate) struct Step {
    /// How many tickets follow in the longest chain from here.
    pub(crate) count: u32,
    /// The next one, if any follow.
    pub(crate) next: u32,
}

/// The link of a delay, if it is one of so many requests' tickets by an older one.
fn link_of(tickets: u32, delay: &Delay) -> Option<Link>
    ensures { result ≡ spec.link_of tickets delay.now }
{
    if delay.older < delay.ticket && delay.ticket < tickets {
        Some(Link {
            ticket: delay.ticket,
            older: delay.older,
        })
    } else {
        None
    }
}

/// The links of delays, in their order.
fn links_of(alloc: Global, tickets: u32, delays: &[Delay]) -> Result<Vec<Link>, NoMemory>
    ensures { IfOk result (λ links. links.items ≡ spec.links tickets delays.now) }
{
    let mut links = Vec::new(alloc);
    for delay in delays {
        if let Some(link) = link_of(tickets, delay) {
            links.push(link)?;
        }
    }
    Ok(links)
}

/// The links of delays, those of lesser tickets first.
pub(crate) fn sorted_links(
    alloc: Global,
    tickets: u32,
    delays: &[Delay],
) -> Result<Vec<Link>, NoMemory>
    ensures same { IfOk result (λ links. IsPermutation (spec.links tickets delays.now)
        links.items) }
    ensures sorted { IfOk result (λ links. IsNonDecreasingBy (λ l. l.ticket) links.items) }
{
    let mut links = links_of(alloc, tickets, delays)?;
    links.sort_by_key(|link| link.ticket)?;
    Ok(links)
}
