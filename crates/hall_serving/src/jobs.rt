// All jobs of a session.

ghost use Rattle.std.specs.Prelude.{◌≡◌, ℕ, ◌<◌, ◌≤◌, [], length, slice_index_or, vec_len, vec_capacity};
ghost use Rattle.std.specs.List.{AllByRecursion};
ghost use Rattle.session_hall.specs.Names.{script_of};
ghost use Rattle.hall_serving.specs.Jobs.{IsJobOf, HasServed, IsUnkept, JobOf, callers_of};

use crate::crew::Crew;
use crate::job::{Job, serve_job};
use session_hall::{Caller, Hall, Holding};
use session_journal::{Scratch, Serves, Tickets};
use std::sync::Wait;
use std::thread;
use std::thread::Threads;
use worker_gate::Gate;

// Gives each caller a scratch.
pub(crate) fn begin_jobs<S: Tickets + Drop>(
    callers: &mut Vec<Caller<S>>,
    scratches: &mut Vec<Scratch>,
    jobs: &mut Vec<Job<S>>,
)
    requires same { vec_len scratches.old ≡ vec_len callers.old }
    requires empty { jobs.old.items ≡ [] }
    requires room { vec_len callers.old ≤ vec_capacity jobs.old }
    ensures jobs { callers_of jobs.new.items ≡ callers.old.items }
    ensures unkept { AllByRecursion IsUnkept jobs.new.items }
    ensures callers { (callers.new.items ≡ [])
        × (vec_capacity callers.new ≡ vec_capacity callers.old) }
{
    let count = callers.len();
    for moved in 0..count {
        let caller = callers.remove(0);
        let scratch = scratches.remove(0);
        let holding = Holding::over(caller);
        jobs.push_reserved(Job { holding, scratch });
    }
}

// Serves all tickets, each job in a thread of its own where one can be made.
pub(crate) fn serve_all<R: Threads + Wait + Sync, S: Serves + Drop + Send + Sync, G: Gate + Sync>(
    crew: Crew<'_, R, S, G>,
    jobs: &mut Vec<Job<S>>,
)
    requires some { 0 < vec_len jobs.old }
    requires jobs { AllByRecursion (IsJobOf S.meaning crew.hall.now) jobs.old.items }
    ensures len { length jobs.new.items ≡ length jobs.old.items }
    ensures jobs { (i : ℕ) (d : JobOf S) → i < length jobs.old.items →
        HasServed S.meaning crew.entry.hall.now (slice_index_or jobs.old.items i d)
        (slice_index_or jobs.new.items i d) }
{
    // A thread shares each reference by itself, and makes the crew of them.
    let Crew {
        rt,
        plan,
        hall,
        gate,
    } = crew;
    let threads = jobs.len();
    thread::for_each_mut(
        rt,
        jobs.as_mut_slice(),
        threads,
        &|_: usize, job: &mut Job<S>|
            requires { IsJobOf S.meaning hall.now job.old × (script_of hall.now ≡ plan.now) }
            ensures { HasServed S.meaning hall.entry.now job.old job.new }
        {
            let crew = Crew {
                rt,
                plan,
                hall,
                gate,
            };
            serve_job(crew, job)
        },
    );
}

// Takes each caller back.
pub(crate) fn end_jobs<S: Tickets + Drop>(mut jobs: Vec<Job<S>>, callers: &mut Vec<Caller<S>>)
    requires empty { callers.old.items ≡ [] }
    requires room { vec_len jobs ≤ vec_capacity callers.old }
    requires unkept { AllByRecursion IsUnkept jobs.items }
    ensures { callers.new.items ≡ callers_of jobs.items }
{
    let count = jobs.len();
    for moved in 0..count {
        let Job {
            holding,
            scratch: _,
        } = jobs.remove(0);
        callers.push_reserved(holding.into_caller());
    }
}
