// A session, served and written to its end.

ghost use Rattle.std.specs.Prelude.{◌≡◌, ◌≤◌, true, false, length};
ghost use Rattle.session_values.specs.Limits.{max_requests};
ghost use Rattle.session_values.specs.ReplyText.{reply_text};
ghost use Rattle.byte_ends.specs.Ends.{Counted, Appended, AppendedPrefix};
ghost use Rattle.session_hall.specs.Closings.{IsDone};
ghost use Rattle.reply_sheet.specs.Printable.{ArePrintableReplies};
ghost use Rattle.hall_writing.specs.Jobs.{replies_of};

use crate::first::First;
use crate::jobs::run_jobs;
use crate::rest::write_rest;
use crate::room::{end_jobs, part_first};
use crate::session::WritingSession;
use admission_book::laws::answering;
use byte_ends::Sink;
use hall_serving::Crew;
use session_hall::Closed;
use session_journal::{Script, Serves};
use session_values::{Listed, Names};
use std::sync::Wait;
use std::thread::Threads;
use worker_gate::Gate;

/// Serves all tickets of an open session by its callers, in as many threads where they can be
/// made, and else one after another, and closes its hall. The first caller's job writes the lines
/// that are next after each of its tickets, before it begins another one; what is left then is
/// written after the hall is closed. It answers the closed hall, and `false` after a fault of
/// `out`: nothing more is written then, and serving goes on. `plan` is the script again, by which
/// each ticket is served.
pub fn serve_and_write<
    R: Threads + Wait + Sync,
    S: Serves + Drop + Send + Sync,
    G: Gate + Sync,
    O: Sink,
>(
    rt: &R,
    session: WritingSession<S>,
    plan: &S,
    gate: &G,
    names: &Names,
    out: &mut O,
) -> (Closed, bool)
    requires plan { plan.now ≡ session.script }
    requires few { (S.meaning session.script).requests ≤ max_requests }
    requires printable { ArePrintableReplies names.now (replies_of (S.meaning session.script)) }
    ensures done { IsDone (S.meaning session.script) result.0 }
    ensures callers { result.0.callers ≡ session.callers }
    ensures shards { result.0.shards ≡ session.shards }
    ensures all { result.1 ≡ true → Appended (O.held out.old) (O.held out.new)
        (reply_text names.now 0 result.0.replies) }
    ensures faults { Counted result.1 (O.faults out.old) (O.faults out.new) }
    ensures front { result.1 ≡ false → AppendedPrefix (O.held out.old) (O.held out.new)
        (reply_text names.now 0 result.0.replies) }
{
    answering();
    let WritingSession {
        hall,
        lane,
        jobs,
        mut left,
        sheet,
    } = session;
    let crew = Crew {
        rt,
        plan,
        hall: &hall,
        gate,
    };
    let (job, others) = part_first(jobs);
    let (first, others) = run_jobs(crew, &lane, names, First { job, sheet }, others, out);
    let First { job, sheet } = first;
    end_jobs(job, others, &mut left);
    let closed = hall.close(Listed::from_vec(left));
    let whole = write_rest(closed.replies().as_slice(), sheet, out, names);
    (closed, whole)
}
