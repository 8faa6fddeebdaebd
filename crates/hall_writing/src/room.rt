// Jobs are made of callers, and give them back.

ghost use Rattle.std.specs.Prelude.{◌≡◌, ◌<◌, ◌≤◌, [], ◌∷◌, vec_len, vec_capacity};
ghost use Rattle.std.specs.List.{AllByRecursion};
ghost use Rattle.hall_writing.specs.Jobs.{IsUnkept, callers_of, ends_of};

use crate::End;
use crate::job::Job;
use session_hall::{Caller, Holding};
use session_journal::{Scratch, Tickets};

// Gives each caller a scratch and an end of the lane.
pub(crate) fn begin_jobs<S: Tickets + Drop>(
    callers: &mut Vec<Caller<S>>,
    scratches: &mut Vec<Scratch>,
    ends: &mut Vec<End>,
    jobs: &mut Vec<Job<S>>,
)
    requires scratches { vec_len scratches.old ≡ vec_len callers.old }
    requires ends { vec_len ends.old ≡ vec_len callers.old }
    requires empty { jobs.old.items ≡ [] }
    requires room { vec_len callers.old ≤ vec_capacity jobs.old }
    ensures jobs { callers_of jobs.new.items ≡ callers.old.items }
    ensures unkept { AllByRecursion IsUnkept jobs.new.items }
    ensures ends { ends_of jobs.new.items ≡ ends.old.items }
    ensures callers { (callers.new.items ≡ [])
        × (vec_capacity callers.new ≡ vec_capacity callers.old) }
{
    let count = callers.len();
    for moved in 0..count {
        let caller = callers.remove(0);
        let scratch = scratches.remove(0);
        let end = ends.remove(0);
        jobs.push_reserved(Job {
            holding: Holding::over(caller),
            scratch,
            end,
        });
    }
}

// The first job, and the others.
pub(crate) fn part_first<S: Tickets + Drop>(mut jobs: Vec<Job<S>>) -> (Job<S>, Vec<Job<S>>)
    requires { 0 < vec_len jobs }
    ensures { jobs.items ≡ result.0 ∷ result.1.items }
{
    let first = jobs.remove(0);
    (first, jobs)
}

// Takes each caller back.
pub(crate) fn end_jobs<S: Tickets + Drop>(
    first: Job<S>,
    mut jobs: Vec<Job<S>>,
    callers: &mut Vec<Caller<S>>,
)
    requires empty { callers.old.items ≡ [] }
    requires room { vec_len jobs < vec_capacity callers.old }
    requires unkept { AllByRecursion IsUnkept (first ∷ jobs.items) }
    ensures { callers.new.items ≡ callers_of (first ∷ jobs.items) }
{
    callers.push_reserved(first.into_caller());
    let count = jobs.len();
    for moved in 0..count {
        callers.push_reserved(jobs.remove(0).into_caller());
    }
}
