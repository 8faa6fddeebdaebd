// Desks.

ghost use Rattle.std.specs.Prelude.{◌≡◌, None, false, length, MatchResult};
ghost use Rattle.session_values.specs.Dialogue.{Calls, Answers, replies};
ghost use Rattle.symbolic_ops.specs.Matching.{Matches};
ghost use Rattle.session_journal.specs.Desks.{DeskView, next_of, due_of, MayNarrow, MayFinish, finished, with_waiting, with_present, with_end};
ghost use Rattle.session_journal.specs.Script.{HasSite, declared_with};

use crate::site::Site;
use crate::tickets::Tickets;
use session_values::{NoMemory, Op, Reply, Value};
use std::sync::Wait;
use std::thread::Threads;
use symbolic_ops::Foresight;

/// A place at which one ticket of a script is served: its operations are called, it declares what
/// it may still call, and it ends.
pub trait Desk {
    type Served: Tickets;

    /// The script whose ticket is served. No call changes it.
    ghost script: { Self → Self.Served };

    /// What the desk is at.
    ghost at: { Self → DeskView };

    /// Does the ticket's next operation, which then waits with its reply for `finish`.
    fn call<R: Threads + Wait + Sync>(&mut self, rt: &R, op: Op) -> Result<Value, NoMemory>
        requires idle { (at self.old).waiting ≡ None }
        requires next { next_of (Self.Served.meaning (script self.old)) (at self.old) ≡ Calls op }
        requires due { (at self.old).present
            ≡ due_of (Self.Served.meaning (script self.old)) (at self.old) }
        requires matches { Matches (at self.old).present op }
        ensures script { script self.new ≡ script self.old }
        // Want of memory leaves the desk as it was, and never comes from a sure one.
        ensures waits { MatchResult result
            (λ v. at self.new ≡ with_waiting (at self.old) op v)
            (λ _. (at self.new ≡ at self.old) × ((at self.old).sure ≡ false)) };

    /// Enters the operation that waits, and narrows to what the ticket declares after it.
    fn finish<R: Threads + Wait + Sync>(&mut self, rt: &R, next: &Foresight)
        requires { MayFinish (Self.Served.meaning (script self.old)) (at self.old)
            (at self.old).waiting next.now.symbols }
        ensures script { script self.new ≡ script self.old }
        ensures finished { at self.new
            ≡ finished (at self.old) (at self.old).waiting next.now.symbols };

    /// The same, where the list is what the script declares at a site with these values.
    fn finish_at<R: Threads + Wait + Sync>(&mut self, rt: &R, site: Site, values: &[Value])
        requires site { HasSite (Self.Served.meaning (script self.old)) site (length values.now) }
        requires may { MayFinish (Self.Served.meaning (script self.old)) (at self.old)
            (at self.old).waiting
            (declared_with (Self.Served.meaning (script self.old)) site values.now) }
        ensures script { script self.new ≡ script self.old }
        ensures finished { at self.new ≡ finished (at self.old) (at self.old).waiting
            (declared_with (Self.Served.meaning (script self.old)) site values.now) };

    /// Narrows to a declaration of the ticket.
    fn declare<R: Threads + Wait + Sync>(&mut self, rt: &R, f: &Foresight)
        requires idle { (at self.old).waiting ≡ None }
        requires going { (at self.old).ended ≡ false }
        requires narrows { MayNarrow (Self.Served.meaning (script self.old)) (at self.old).ticket
            (at self.old).entries (at self.old).present f.now.symbols }
        ensures script { script self.new ≡ script self.old }
        ensures narrowed { at self.new ≡ with_present (at self.old) f.now.symbols };

    /// The same, where the list is what the script declares at a site with these values.
    fn declare_at<R: Threads + Wait + Sync>(&mut self, rt: &R, site: Site, values: &[Value])
        requires site { HasSite (Self.Served.meaning (script self.old)) site (length values.now) }
        requires idle { (at self.old).waiting ≡ None }
        requires going { (at self.old).ended ≡ false }
        requires narrows { MayNarrow (Self.Served.meaning (script self.old)) (at self.old).ticket
            (at self.old).entries (at self.old).present
            (declared_with (Self.Served.meaning (script self.old)) site values.now) }
        ensures script { script self.new ≡ script self.old }
        ensures narrowed { at self.new ≡ with_present (at self.old)
            (declared_with (Self.Served.meaning (script self.old)) site values.now) };

    /// Ends the ticket with what it answers.
    fn end<R: Threads + Wait + Sync>(&mut self, rt: &R, reply: Reply)
        requires idle { (at self.old).waiting ≡ None }
        requires going { (at self.old).ended ≡ false }
        requires answers { next_of (Self.Served.meaning (script self.old)) (at self.old)
            ≡ Answers reply }
        requires due { (at self.old).present
            ≡ due_of (Self.Served.meaning (script self.old)) (at self.old) }
        ensures script { script self.new ≡ script self.old }
        ensures ended { at self.new ≡ with_end (at self.old) };
}
