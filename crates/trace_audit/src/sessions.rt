// Judging a trace of a session.

ghost use Rattle.std.specs.Prelude.{◌≡◌, ◌+◌, ◌<◌, IfOk};
ghost use Rattle.session_journal.specs.Script.{IsScript};
ghost use Rattle.handler_machine.specs.Scripts.{meaning};
ghost use Rattle.trace_audit.specs.Running.{AreRun};
ghost use Rattle.session_journal.specs.Verdicts.{IsVerdict};

use crate::audit_desk::AuditDesk;
use handler_machine::Scripts;
use session_journal::{Scratch, Script, Trace, Verdict};
use session_values::NoMemory;
use std::alloc::Global;

/// Runs the handler of the next ticket on what the trace tells. It takes no memory.
fn run_ticket<'a, 'b>(
    scripts: &'a Scripts<'b>,
    t: u32,
    scratch: &mut Scratch,
    desk: &mut AuditDesk<'a, Scripts<'b>>,
)
    requires lawful { IsScript (meaning scripts.now) }
    requires script { desk.old.script ≡ scripts.now }
    requires exists { t < (meaning scripts.now).requests }
    requires run { AreRun (meaning scripts.now) t desk.old }
    ensures script { desk.new.script ≡ desk.old.script }
    ensures events { desk.new.events ≡ desk.old.events }
    ensures run { AreRun (meaning scripts.now) (t + 1) desk.new }
{
    desk.turn(t);
    let Ok(reply) = scripts.run_ticket(t, scratch, desk) else {
        unreachable!();
    };
    desk.answered(reply);
}

/// Runs the handlers of all tickets, one after another.
fn run_tickets<'a, 'b>(
    scripts: &'a Scripts<'b>,
    scratch: &mut Scratch,
    desk: &mut AuditDesk<'a, Scripts<'b>>,
)
    requires script { desk.old.script ≡ scripts.now }
    requires run { AreRun (meaning scripts.now) 0 desk.old }
    ensures script { desk.new.script ≡ desk.old.script }
    ensures events { desk.new.events ≡ desk.old.events }
    ensures run { AreRun (meaning scripts.now) (meaning scripts.now).requests desk.new }
{
    for t in 0..scripts.requests() {
        run_ticket(scripts, t, scratch, desk);
    }
}

/// Judges a trace of the requests of a program: it is accepted as their journal, or this is its
/// first fault.
pub fn judge_session(
    alloc: Global,
    scripts: &Scripts<'_>,
    trace: &Trace,
) -> Result<Verdict, NoMemory>
    ensures { IfOk result (λ v. IsVerdict (meaning scripts.now) trace.now.events v) }
{
    let shape = scripts.shape(alloc)?;
    let mut scratch = Scratch::new(alloc)?;
    let mut desk = AuditDesk::over(alloc, scripts, trace)?;
    run_tickets(scripts, &mut scratch, &mut desk);
    desk.judge(alloc, shape.as_slice())
}
