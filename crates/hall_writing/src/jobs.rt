// All jobs of a session: the first one writes, and the others run beside it.

ghost use Rattle.std.specs.Prelude.{◌≡◌, ◌<◌, [], false, true, length, vec_len};
ghost use Rattle.std.specs.List.{AllByRecursion};
ghost use denote.Param.Send.{IsSync, IsSend};
ghost use Rattle.session_hall.specs.Names.{script_of};
ghost use Rattle.reply_sheet.specs.Ready.{ready};
ghost use Rattle.hall_writing.specs.Jobs.{HasKept, HasServed, HaveServed, IsFirstOf, IsJobOf};
ghost use Rattle.hall_writing.specs.Jobs.{replies_of};
ghost use Rattle.hall_writing.specs.Sheets.{GoesOn, progress};

use crate::Lane;
use crate::first::First;
use crate::job::{Job, serve_and_offer};
use crate::writing::Writing;
use byte_ends::Sink;
use hall_serving::{Crew, serve_tickets};
use session_journal::Serves;
use session_values::Names;
use std::sync::Wait;
use std::thread;
use std::thread::{Threads, join};
use worker_gate::Gate;

// The others, moved in and given back: each serves tickets in a thread of its own where one can be
// made, until all are begun.
fn offer_by<R: Threads + Wait + Sync, S: Serves + Drop + Send + Sync, G: Gate + Sync>(
    crew: Crew<'_, R, S, G>,
    lane: &Lane,
    mut jobs: Vec<Job<S>>,
) -> Vec<Job<S>>
    requires some { 0 < vec_len jobs }
    requires jobs { AllByRecursion
        (IsJobOf S.meaning crew.hall.now lane.now (replies_of (S.meaning crew.plan.now)))
        jobs.items }
    ensures len { length result.items ≡ length jobs.items }
    ensures jobs { HaveServed S.meaning crew.entry.hall.now jobs.items result.items }
{
    // A thread shares each reference by itself, and makes the crew of them.
    let Crew {
        rt,
        plan,
        hall,
        gate,
    } = crew;
    let threads = jobs.len();
    thread::for_each_mut(
        rt,
        jobs.as_mut_slice(),
        threads,
        &|_: usize, job: &mut Job<S>|
            requires { IsJobOf S.meaning hall.now lane.now (replies_of (S.meaning plan.now)) job.old
                × (script_of hall.now ≡ plan.now) }
            ensures { HasServed S.meaning hall.entry.now job.old job.new }
        {
            let crew = Crew {
                rt,
                plan,
                hall,
                gate,
            };
            serve_and_offer(crew, lane, job)
        },
    );
    jobs
}

// The first one, moved in and given back with the sink: it serves tickets until all are begun, and
// after each end it writes the lines that are next, before it begins another one.
fn write_by<'b, R: Threads + Wait + Sync, S: Serves + Drop, G: Gate, O: Sink>(
    crew: Crew<'_, R, S, G>,
    lane: &Lane,
    names: &Names,
    mut first: First<S>,
    out: &'b mut O,
) -> (First<S>, &'b mut O)
    requires { IsFirstOf S.meaning crew.hall.now crew.plan.now lane.now names.now first }
    ensures same { result.1.ghost_name ≡ out.entry.ghost_name }
    ensures served { HasServed S.meaning crew.entry.hall.now first.job result.0.job }
    ensures kept { HasKept first.job.holding.caller result.0.job.holding.caller
        result.0.sheet.pending }
    ensures stops { (first.sheet.failed ≡ false → ready first.sheet.pending ≡ [])
        → result.0.sheet.failed ≡ false → ready result.0.sheet.pending ≡ [] }
    ensures quiet { first.sheet.failed ≡ true → result.1.now ≡ out.entry.now }
    ensures on { GoesOn (replies_of (S.meaning crew.entry.plan.now)) names.now
        (progress (O.held out.entry.now) (O.faults out.entry.now) first.sheet)
        (progress (O.held result.1.now) (O.faults result.1.now) result.0.sheet) }
{
    let Job {
        holding,
        scratch,
        end,
    } = &mut first.job;
    let mut writing = Writing {
        lane,
        end,
        names,
        sheet: &mut first.sheet,
        out: &mut *out,
    };
    serve_tickets(crew, holding, scratch, &mut writing);
    (first, out)
}

// Ends the loan of a sink that was given back.
fn take_back<T>(x: &mut T)
    ensures { x.new ≡ x.old }
{}

// Runs all jobs. The first one runs in this thread, alone where there are no others.
pub(crate) fn run_jobs<
    R: Threads + Wait + Sync,
    S: Serves + Drop + Send + Sync,
    G: Gate + Sync,
    O: Sink,
>(
    crew: Crew<'_, R, S, G>,
    lane: &Lane,
    names: &Names,
    first: First<S>,
    others: Vec<Job<S>>,
    out: &mut O,
) -> (First<S>, Vec<Job<S>>)
    requires first { IsFirstOf S.meaning crew.hall.now crew.plan.now lane.now names.now first }
    requires jobs { AllByRecursion
        (IsJobOf S.meaning crew.hall.now lane.now (replies_of (S.meaning crew.plan.now)))
        others.items }
    ensures first { HasServed S.meaning crew.entry.hall.now first.job result.0.job }
    ensures len { length result.1.items ≡ length others.items }
    ensures jobs { HaveServed S.meaning crew.entry.hall.now others.items result.1.items }
    ensures on { GoesOn (replies_of (S.meaning crew.entry.plan.now)) names.now
        (progress (O.held out.old) (O.faults out.old) first.sheet)
        (progress (O.held out.new) (O.faults out.new) result.0.sheet) }
{
    if others.is_empty() {
        let (first, back) = write_by(crew, lane, names, first, out);
        take_back(back);
        return (first, others);
    }
    run_beside(crew, lane, names, first, others, out)
}

// Runs the first one in this thread, and the others beside it.
fn run_beside<R: Threads + Wait + Sync, S: Serves + Drop + Send + Sync, G: Gate + Sync, O: Sink>(
    crew: Crew<'_, R, S, G>,
    lane: &Lane,
    names: &Names,
    first: First<S>,
    others: Vec<Job<S>>,
    out: &mut O,
) -> (First<S>, Vec<Job<S>>)
    requires some { 0 < vec_len others }
    requires first { IsFirstOf S.meaning crew.hall.now crew.plan.now lane.now names.now first }
    requires jobs { AllByRecursion
        (IsJobOf S.meaning crew.hall.now lane.now (replies_of (S.meaning crew.plan.now)))
        others.items }
    ensures first { HasServed S.meaning crew.entry.hall.now first.job result.0.job }
    ensures len { length result.1.items ≡ length others.items }
    ensures jobs { HaveServed S.meaning crew.entry.hall.now others.items result.1.items }
    ensures on { GoesOn (replies_of (S.meaning crew.entry.plan.now)) names.now
        (progress (O.held out.old) (O.faults out.old) first.sheet)
        (progress (O.held out.new) (O.faults out.new) result.0.sheet) }
{
    // A thread shares each reference by itself, and makes the crew of them.
    let Crew {
        rt,
        plan,
        hall,
        gate,
    } = crew;
    let (others, (first, back)) = join(
        rt,
        move || -> Vec<Job<S>>
            requires { IsSync R.row × IsSync S.row × IsSync G.row × IsSend S.row
                × (0 < vec_len others) × AllByRecursion
                (IsJobOf S.meaning hall.now lane.now (replies_of (S.meaning plan.now)))
                others.items × (script_of hall.now ≡ plan.now) }
            ensures len { length result.items ≡ length others.items }
            ensures jobs { HaveServed S.meaning hall.entry.now others.items result.items }
        {
            let crew = Crew {
                rt,
                plan,
                hall,
                gate,
            };
            offer_by(crew, lane, others)
        },
        move ||
            requires { IsSync R.row
                × IsFirstOf S.meaning crew.hall.now crew.plan.now lane.now names.now first }
            ensures same { result.1.ghost_name ≡ out.entry.ghost_name }
            ensures served { HasServed S.meaning crew.entry.hall.now first.job result.0.job }
            ensures on { GoesOn (replies_of (S.meaning crew.entry.plan.now)) names.entry.now
                (progress (O.held out.entry.now) (O.faults out.entry.now) first.sheet)
                (progress (O.held result.1.now) (O.faults result.1.now) result.0.sheet) }
        { write_by(crew, lane, names, first, out) },
    );
    take_back(back);
    (first, others)
}
