// Scripts whose tickets can be served.

ghost use Rattle.std.specs.Prelude.{◌≡◌, ◌<◌, [], None, false, IfOk, OnErr};
ghost use denote.Param.Send.{IsSync};
ghost use Rattle.session_journal.specs.Served.{IsServed, IsStopped};

use crate::desk::Desk;
use crate::scratch::Scratch;
use crate::tickets::Tickets;
use session_values::NoMemory;
use std::sync::Wait;
use std::thread::Threads;

/// A script whose tickets can be served, each at a desk.
pub trait Serves: Tickets {
    /// Whether a ticket may compute for long between two of its calls. Whoever serves it by several
    /// callers keeps nothing meanwhile for which others may wait. Nothing is claimed of it.
    fn computes(&self, _ticket: u32) -> bool {
        false
    }

    /// Serves the desk's ticket, which has just begun, to its end. Want of memory comes only where
    /// the desk isn't sure, and then the desk is left as the call that wanted it left it.
    fn serve<R: Threads + Wait + Sync, D: Desk<Served = Self>>(
        &self,
        rt: &R,
        ticket: u32,
        scratch: &mut Scratch,
        desk: &mut D,
    ) -> Result<(), NoMemory>
        // In an impl the bound alone isn't known.
        requires shared { IsSync R.row }
        requires plan { D.script desk.old ≡ self.now }
        requires ticket { (D.at desk.old).ticket ≡ ticket }
        requires within { ticket < (Self.meaning self.now).requests }
        requires fresh { (D.at desk.old).entries ≡ [] }
        requires idle { (D.at desk.old).waiting ≡ None }
        requires going { (D.at desk.old).ended ≡ false }
        requires present { (D.at desk.old).present ≡ (Self.meaning self.now).entry ticket }
        ensures script { D.script desk.new ≡ D.script desk.old }
        ensures served { IfOk result
            (λ _. IsServed (Self.meaning self.now) (D.at desk.old) (D.at desk.new)) }
        ensures stopped { OnErr result
            (IsStopped (Self.meaning self.now) (D.at desk.old) (D.at desk.new)) };
}
