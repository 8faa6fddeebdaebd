// Telling a desk of a declaration later than its point is passed.

ghost use Rattle.std.specs.Prelude.{◌≡◌, None, false, length};
ghost use Rattle.session_journal.specs.Script.{HasSite, declared_with};
ghost use Rattle.handler_machine.specs.Serving.{MayTell, once_told};

use session_journal::{Desk, Script, Site};
use session_values::Value;
use std::sync::Wait;
use std::thread::Threads;

/// A desk that may be told of a declaration once its point has been passed.
pub(crate) trait TellsLate: Desk {
    /// Tells the desk of what its script declares at a site with these values, where it hasn't been
    /// told.
    fn tell<R: Threads + Wait + Sync>(&mut self, rt: &R, late: bool, site: Site, values: &[Value])
        requires site { HasSite (Self.Served.meaning (Self.script self.old)) site
            (length values.now) }
        requires idle { (Self.at self.old).waiting ≡ None }
        requires going { (Self.at self.old).ended ≡ false }
        requires may { MayTell (Self.Served.meaning (Self.script self.old)) late
            (declared_with (Self.Served.meaning (Self.script self.old)) site values.now)
            (Self.at self.old) }
        ensures script { Self.script self.new ≡ Self.script self.old }
        ensures told { Self.at self.new ≡ once_told late
            (declared_with (Self.Served.meaning (Self.script self.old)) site values.now)
            (Self.at self.old) };
}

impl<D: Desk> TellsLate for D {
    #[inline(always)]
    fn tell<R: Threads + Wait + Sync>(&mut self, rt: &R, late: bool, site: Site, values: &[Value]) {
        if late {
            self.declare_at(rt, site, values);
        }
    }
}
