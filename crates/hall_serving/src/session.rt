// A session: its hall is opened, and then it is served to its end.

ghost use Rattle.std.specs.Prelude.{◌≡◌, ◌≤◌, IfOk, length, vec_len};
ghost use Rattle.session_values.specs.Limits.{max_callers, max_shards, max_tables};
ghost use Rattle.session_hall.specs.Closings.{IsDone};
ghost use Rattle.session_hall.specs.Reopenings.{OpensOver};

use crate::crew::Crew;
use crate::job::Job;
use crate::jobs::{begin_jobs, end_jobs, serve_all};
use session_hall::{Caller, Closed, Hall, Sizes};
use session_journal::{Scratch, Script, Serves, Tickets};
use session_values::{Listed, NoMemory, TableKind};
use std::alloc::Global;
use std::marker::Model;
use std::sync::Wait;
use std::thread::Threads;
use worker_gate::Gate;

/// A session whose hall is open. Only `open_session` makes one. It has all the memory that serving
/// its tickets and closing its hall take.
#[derive(Drop)]
pub struct OpenSession<S: Tickets + Drop> {
    hall: Hall<S>,
    /// One for each caller.
    jobs: Vec<Job<S>>,
    /// An empty list, with room for the callers when they are out.
    left: Vec<Caller<S>>,
}

impl<S: Tickets + Drop> Model for OpenSession<S> {
    ghost use Rattle.std.specs.Prelude.{vec_capacity};
    ghost use Rattle.session_hall.specs.Names.{script_of};
    ghost use Rattle.hall_serving.specs.Sessions.{IsOpened, SessionView};

    ghost Value = { SessionView S };

    ghost view = { λ s. record {
      script = script_of s.hall;
      callers = s.hall.sizes.callers;
      shards = s.hall.sizes.shards;
    } };

    ghost invariant = { λ s. IsOpened S.meaning s.hall s.jobs.items s.left.items
        (vec_capacity s.left) };
}

/// Scratches for so many jobs.
pub fn make_scratches(alloc: Global, count: u32) -> Result<Vec<Scratch>, NoMemory>
    ensures len { IfOk result (λ v. vec_len v ≡ count) }
{
    let mut scratches = Vec::with_capacity(alloc, count as usize)?;
    for made in 0..count {
        scratches.push_reserved(Scratch::new(alloc)?);
    }
    Ok(scratches)
}

/// Opens the hall of a script, of these sizes, and takes all memory that the session needs.
pub fn open_session<S: Script + Drop>(
    alloc: Global,
    script: S,
    shape: &[TableKind],
    sizes: Sizes,
) -> Result<OpenSession<S>, NoMemory>
    requires shape { shape.now ≡ (S.meaning script).shape }
    requires tables { length shape.now ≤ max_tables }
    ensures script { IfOk result (λ s. s.script ≡ script) }
    ensures callers { IfOk result (λ s. s.callers ≡ sizes.callers) }
    ensures shards { IfOk result (λ s. s.shards ≡ sizes.shards) }
{
    let Sizes { callers, shards } = sizes;
    let mut scratches = make_scratches(alloc, callers)?;
    let mut jobs = Vec::with_capacity(alloc, callers as usize)?;
    let (hall, list) = Hall::open(alloc, script, shape, shards, callers)?;
    let mut left = list.into_vec();
    begin_jobs(&mut left, &mut scratches, &mut jobs);
    Ok(OpenSession { hall, jobs, left })
}

/// Opens the hall of tickets over the shards that a closed hall left, with so many callers, and
/// takes all memory that the session needs. `later` has the most keys that may still be added to
/// each table, by these and later tickets.
pub fn reopen_session<S: Tickets + Drop>(
    alloc: Global,
    tickets: S,
    shape: &[TableKind],
    closed: Closed,
    later: &[u32],
    callers: u32,
) -> Result<OpenSession<S>, NoMemory>
    requires opens { OpensOver (S.meaning tickets) closed }
    requires shape { shape.now ≡ (S.meaning tickets).shape }
    requires tables { length shape.now ≤ max_tables }
    requires shards { closed.shards ≤ max_shards }
    requires later { length later.now ≡ length shape.now }
    requires callers { (1 ≤ callers) × (callers ≤ max_callers) }
    ensures script { IfOk result (λ s. s.script ≡ tickets) }
    ensures callers { IfOk result (λ s. s.callers ≡ callers) }
    ensures shards { IfOk result (λ s. s.shards ≡ closed.shards) }
{
    let mut scratches = make_scratches(alloc, callers)?;
    let mut jobs = Vec::with_capacity(alloc, callers as usize)?;
    let Ok((hall, list)) = Hall::reopen(alloc, tickets, shape, closed, later, callers) else {
        return Err(NoMemory);
    };
    let mut left = list.into_vec();
    begin_jobs(&mut left, &mut scratches, &mut jobs);
    Ok(OpenSession { hall, jobs, left })
}

/// Serves all tickets of an open session by its callers, in as many threads where they can be
/// made, and else one after another, and closes its hall. `plan` is the script again, by which
/// each ticket is served.
pub fn serve_session<R: Threads + Wait + Sync, S: Serves + Drop + Send + Sync, G: Gate + Sync>(
    rt: &R,
    session: OpenSession<S>,
    plan: &S,
    gate: &G,
) -> Closed
    requires plan { plan.now ≡ session.script }
    ensures done { IsDone (S.meaning session.script) result }
    ensures callers { result.callers ≡ session.callers }
    ensures shards { result.shards ≡ session.shards }
{
    let OpenSession {
        hall,
        mut jobs,
        mut left,
    } = session;
    let crew = Crew {
        rt,
        plan,
        hall: &hall,
        gate,
    };
    serve_all(crew, &mut jobs);
    end_jobs(jobs, &mut left);
    hall.close(Listed::from_vec(left))
}
