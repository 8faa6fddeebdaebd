// Rounds beside those who feed them.

ghost use Rattle.std.specs.Prelude.{◌≡◌, ◌+◌, ◌<◌, ◌≤◌, [], IfOk, vec_len};
ghost use Rattle.session_values.specs.Limits.{max_session_calls};
ghost use Rattle.session_values.specs.OpeningLimits.{max_opening};
ghost use Rattle.session_values.specs.Opening.{IsOpening, count_all};
ghost use Rattle.handler_check.specs.Resolved.{shape_of};
ghost use Rattle.request_files.specs.Servable.{IsServable};
ghost use denote.Param.Send.{IsSync};
ghost use Rattle.client_feed.specs.Rounds.{AreServed};

use crate::resources::Resources;
use crate::rounds::serve_rounds;
use crate::served::Served;
use crate::workload::Workload;
use crate::{Feed, Feeder, Gatherer, feed_all};
use session_hall::Sizes;
use session_values::NoMemory;
use std::sync::Wait;
use std::thread::{Threads, join};
use worker_gate::Gate;

/// Serves all requests in the order in which they arrive, in rounds. The clients' requests are fed
/// beside that, in threads of their own if they can be made, and before it if they can't.
pub fn serve_clients<R: Threads + Wait + Sync, G: Gate + Sync>(
    by: &Resources<'_, R, G>,
    work: &Workload<'_>,
    sizes: Sizes,
) -> Result<Served, NoMemory>
    ensures { IfOk result (AreServed work.now.program.now work.now.opening.now
        work.now.clients.now sizes.callers sizes.shards) }
{
    // A closure that holds a struct of references tells nothing of its result, so it takes each
    // reference by itself.
    let Resources { rt, alloc, gate } = *by;
    let Workload {
        program,
        opening,
        clients,
    } = *work;
    // There are 1 to 16 clients.
    let _clients = clients.clients();
    let (feeders, gatherer) = Feed::open(alloc, clients.counts())?;
    let feeders = feeders.into_vec();
    // If no thread can be made, `join` runs its first closure last, so the clients send first. The
    // gatherer is given back, and dropped after both: no send comes back while a client sends.
    let ((_gatherer, served), _feeders) = join(
        rt,
        move || -> (Gatherer, Result<Served, NoMemory>)
            requires { IsSync R.row × IsSync G.row
                × IsOpening (shape_of program.now.file) opening.now
                × (count_all opening.now + max_session_calls ≤ max_opening)
                × IsServable program.now.file clients.now.requests
                × (gatherer ≡ record { counts = clients.now.counts; got = [] }) }
            ensures { IfOk result.1 (AreServed program.entry.now opening.entry.now clients.entry.now
                sizes.callers sizes.shards) }
        {
            let mut gatherer = gatherer;
            let by = Resources { rt, alloc, gate };
            let work = Workload {
                program,
                opening,
                clients,
            };
            let served = serve_rounds(&by, &work, sizes, &mut gatherer);
            (gatherer, served)
        },
        move || -> Vec<Feeder>
            requires { 0 < vec_len feeders }
        { fed(rt, gate, feeders) },
    );
    served
}

// Sends all requests.
fn fed<R: Threads + Wait + Sync, G: Gate + Sync>(
    rt: &R,
    gate: &G,
    mut feeders: Vec<Feeder>,
) -> Vec<Feeder>
    requires { 0 < vec_len feeders }
{
    feed_all(rt, gate, &mut feeders);
    feeders
}
