// The requests of several clients.

ghost use Rattle.std.specs.Prelude.{◌≡◌, ◌+◌, ◌<◌, ◌≤◌, IfOk, length, slice_index_or, sum, take};
ghost use Rattle.request_files.specs.Clients.{AreShared, starts_from};

use crate::requests::Requests;
use session_values::NoMemory;
use std::alloc::Global;
use std::marker::Model;

/// The requests of several clients: all of them, in the file's order, and how many each client has.
#[derive(Debug, Drop)]
pub struct ClientRequests {
    requests: Requests,
    counts: Vec<u32>,
    // The number of each client's first request.
    starts: Vec<u32>,
}

impl Model for ClientRequests {
    ghost use Rattle.std.specs.Prelude.{◌≡◌};
    ghost use Rattle.request_files.specs.Clients.{AreShared, ClientsView, starts_from};

    ghost Value = { ClientsView };

    ghost view = { λ r. record { requests = r.requests; counts = r.counts.items } };

    ghost invariant = { λ r. AreShared (record { requests = r.requests; counts = r.counts.items })
        × (r.starts.items ≡ starts_from 0 r.counts.items) };
}

/// The number of each client's first request, where the clients have so many.
fn starts_of(alloc: Global, counts: &[u32]) -> Result<Vec<u32>, NoMemory>
    requires { sum counts.now ≤ 4294967295 }
    ensures { IfOk result (λ starts. starts.items ≡ starts_from 0 counts.now) }
{
    let mut starts = Vec::new(alloc);
    let mut start = 0;
    for count in counts {
        starts.push(start)?;
        start += *count;
    }
    Ok(starts)
}

impl ClientRequests {
    /// Those of these clients.
    pub(crate) fn over(
        alloc: Global,
        requests: Requests,
        counts: Vec<u32>,
    ) -> Result<ClientRequests, NoMemory>
        requires { AreShared (record { requests = requests; counts = counts.items }) }
        ensures { IfOk result (λ r. r ≡ record { requests = requests; counts = counts.items }) }
    {
        // They are fewer than 2^32, so each start is.
        let _requests = requests.len();
        let starts = starts_of(alloc, counts.as_slice())?;
        Ok(ClientRequests {
            requests,
            counts,
            starts,
        })
    }

    /// All requests, in the file's order.
    pub fn requests(&self) -> &Requests
        ensures { result.now ≡ self.now.requests }
    {
        &self.requests
    }

    /// How many clients there are, 1 to 16.
    pub fn clients(&self) -> u32
        ensures count { result ≡ length self.now.counts }
        ensures shared { AreShared self.now }
    {
        self.counts.len() as u32
    }

    /// How many requests each client has.
    pub fn counts(&self) -> &[u32]
        ensures { result.now ≡ self.now.counts }
    {
        self.counts.as_slice()
    }

    /// The number of each client's first request in the file's order.
    pub fn starts(&self) -> &[u32]
        ensures { result.now ≡ starts_from 0 self.now.counts }
    {
        self.starts.as_slice()
    }

    /// How many requests a client has.
    pub fn count(&self, client: u32) -> u32
        requires { client < length self.now.counts }
        ensures { result ≡ slice_index_or self.now.counts client 0 }
    {
        self.counts[client as usize]
    }

    /// The number in the file's order of the request at a place of a client.
    pub fn number(&self, client: u32, place: u32) -> u32
        requires client { client < length self.now.counts }
        requires place { place < slice_index_or self.now.counts client 0 }
        ensures number { result ≡ sum (take client self.now.counts) + place }
        ensures within { result < length self.now.requests }
    {
        // It is the number of a request, of which there are fewer than 2^32.
        let _requests = self.requests.len();
        let start = self.starts.as_slice()[client as usize];
        start + place
    }
}
