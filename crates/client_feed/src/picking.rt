// The requests of arrivals.

ghost use Rattle.std.specs.Prelude.{◌≡◌, IfOk};
ghost use Rattle.client_feed.specs.Picking.{AreArrivals};
ghost use Rattle.client_feed.specs.Numbers.{numbers_of};
ghost use Rattle.request_files.specs.Picked.{picked};

use crate::Arrival;
use request_files::{ClientRequests, Requests};
use session_values::NoMemory;
use std::alloc::Global;

/// The requests of arrivals, in the order in which these came.
pub fn requests_of(
    alloc: Global,
    clients: &ClientRequests,
    arrivals: &[Arrival],
) -> Result<Requests, NoMemory>
    requires { AreArrivals clients.now.counts arrivals.now }
    ensures { IfOk result (λ r. r ≡ picked clients.now.requests
        (numbers_of clients.now.counts arrivals.now)) }
{
    // The counts add up to the number of requests.
    let _clients = clients.clients();
    let mut numbers = Vec::with_capacity(alloc, arrivals.len())?;
    for arrival in arrivals {
        numbers.push_reserved(clients.number(arrival.client, arrival.place));
    }
    clients.requests().pick(alloc, numbers.as_slice())
}
