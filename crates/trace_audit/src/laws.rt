//! Laws on the journals of lawful books, and on what an audit's desk keeps of a run.

ghost use Rattle.std.specs.Prelude.{◌≡◌, ℕ, ◌<◌, ◌≤◌, List, Some, length, take};
ghost use Rattle.std.specs.List.{AllByRecursion};
ghost use Rattle.session_values.specs.Limits.{max_callers};
ghost use Rattle.session_journal.specs.declared.event.Event.{Event};
ghost use Rattle.session_journal.specs.Journal.{entries};
ghost use Rattle.session_journal.specs.Script.{Meaning, IsScript};
ghost use Rattle.admission_book.specs.Book.{Book};
ghost use Rattle.admission_book.specs.Lawful.{Lawful};
ghost use Rattle.session_journal.specs.Accepted.{Accepted, HaveEnded};
ghost use Rattle.session_journal.specs.declared.verdict.Verdict.{Verdict};
ghost use Rattle.session_journal.specs.Verdicts.{IsVerdict};
ghost use Rattle.trace_audit.specs.Deciding.{CanBeJudged};
ghost use Rattle.session_values.specs.Dialogue.{Dialogue, Entry, replies};
ghost use Rattle.handler_machine.specs.Asking.{Runs};
ghost use Rattle.trace_audit.specs.Desk.{AuditStep, AuditView, IsRun, KeepsOthers, Kept, MayAnswer, fresh, given_entries, kept_next, replay_at};

use session_journal::Script;
use session_values::Reply;

/// The journal of a lawful book in which all tickets have ended is accepted.
pub fn journals_are_accepted()
    ensures { (m : Meaning) (b : Book) → Lawful m b → length b.records ≤ max_callers
        → HaveEnded m.requests b.journal → Accepted m b.journal }
{}

/// Each list of events has a verdict, by any script, if a program can hold the operations in it that
/// are delayed and the symbols that delay them, and these have no variable.
pub fn some_verdict()
    ensures { (m : Meaning) (events : List Event) → AllByRecursion CanBeJudged events
        → (v : Verdict) × IsVerdict m events v }
{}

/// What the desk keeps of a ticket whose handler was run on it, from nothing kept, is what it may
/// keep as answered.
pub fn runs_are_kept<S: Script>()
    ensures { (m : Meaning) (old new : AuditView S) (t : ℕ) (r : Reply) → IsScript m
        → t < m.requests → old.turn ≡ Some t
        → replay_at old.tickets t ≡ fresh (entries old.events t)
        → Runs AuditStep (m.next t) old new r → MayAnswer m new r }
{}

/// A run on the desk changes what it keeps of the ticket that is set, and nothing else.
pub fn runs_keep_others<S: Script>()
    ensures { (f : Dialogue) (old new : AuditView S) (t : ℕ) (r : Reply) → old.turn ≡ Some t
        → Runs AuditStep f old new r → KeepsOthers old new t }
{}

/// What is kept of a run tells what the ticket does after each of the entries that were given.
pub fn kept_tells()
    ensures { (f : Dialogue) (es : List Entry) (k : Kept) (r : Reply) (n : ℕ) → IsRun f es k r
        → n ≤ given_entries k → f (replies (take n es)) ≡ kept_next es k r n }
{}
