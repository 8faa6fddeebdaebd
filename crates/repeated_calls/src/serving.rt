// Serving a ticket that repeats an operation.

ghost use Rattle.std.specs.Prelude.{◌≡◌, [], None, false, IfOk, OnErr};
ghost use Rattle.session_journal.specs.Served.{IsServed, IsStopped};
ghost use Rattle.repeated_calls.specs.Repeated.{IsPlan};

use crate::list::nil;
use session_journal::Desk;
use session_values::{NoMemory, Op};
use std::sync::Wait;
use std::thread::Threads;
use symbolic_ops::Foresight;

// Calls the operation so many times, declaring the same list all along, and ends.
pub(crate) fn call_all<R: Threads + Wait + Sync, D: Desk>(
    rt: &R,
    op: Op,
    times: u32,
    list: &Foresight,
    desk: &mut D,
) -> Result<(), NoMemory>
    requires plan { IsPlan (D.Served.meaning (D.script desk.old)) (D.at desk.old).ticket op times
        list.now.symbols }
    requires fresh { (D.at desk.old).entries ≡ [] }
    requires idle { (D.at desk.old).waiting ≡ None }
    requires going { (D.at desk.old).ended ≡ false }
    requires present { (D.at desk.old).present ≡ list.now.symbols }
    ensures script { D.script desk.new ≡ D.script desk.old }
    ensures served { IfOk result (λ _. IsServed (D.Served.meaning (D.script desk.old))
        (D.at desk.old) (D.at desk.new)) }
    ensures stopped { OnErr result (IsStopped (D.Served.meaning (D.script desk.old))
        (D.at desk.old) (D.at desk.new)) }
{
    for done in 0..times {
        desk.call(rt, op)?;
        desk.finish(rt, list);
    }
    desk.end(rt, nil());
    Ok(())
}
