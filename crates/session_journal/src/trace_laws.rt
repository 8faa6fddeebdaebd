//! Laws on accepted traces.

ghost use Rattle.std.specs.Prelude.{◌≡◌, ℕ, ◌<◌, ◌≤◌, List, length};
ghost use Rattle.session_values.specs.Serial.{serial};
ghost use Rattle.session_journal.specs.Journal.{ended, entries};
ghost use Rattle.session_journal.specs.Script.{Meaning, IsScript, session_of};
ghost use Rattle.session_journal.specs.Accepted.{Accepted};
ghost use Rattle.session_journal.specs.Bare.{bare_script};
ghost use Rattle.session_journal.specs.Traces.{max_events};
ghost use Rattle.session_journal.specs.Verdicts.{IsVerdict};

use crate::Event;
use crate::verdict::Verdict;

/// The entries and the Replies of an accepted trace are those of serving the tickets one at a time.
pub fn accepted_is_serial()
    ensures entries { (m : Meaning) (J : List Event) (t : ℕ) → IsScript m → Accepted m J
        → t < m.requests → entries J t ≡ (serial (session_of m) t).entries }
    ensures answer { (m : Meaning) (J : List Event) (t : ℕ) → IsScript m → Accepted m J
        → t < m.requests → ended J t ≡ (serial (session_of m) t).answer }
{}

/// A trace has at most one verdict.
pub fn one_verdict()
    ensures { (m : Meaning) (J : List Event) (v w : Verdict) → IsVerdict m J v → IsVerdict m J w
        → v ≡ w }
{}

/// What is accepted of a script is accepted of the bare script of its session, and back.
pub fn bare_scripts_accept()
    ensures there { (m : Meaning) (J : List Event) → Accepted m J
        → Accepted (bare_script (session_of m)) J }
    ensures back { (m : Meaning) (J : List Event) → Accepted (bare_script (session_of m)) J
        → Accepted m J }
{}

/// A verdict on the events of a script is one on those of the bare script of its session, and back.
pub fn bare_scripts_are_judged()
    ensures there { (m : Meaning) (J : List Event) (v : Verdict) → IsVerdict m J v
        → IsVerdict (bare_script (session_of m)) J v }
    ensures back { (m : Meaning) (J : List Event) (v : Verdict)
        → IsVerdict (bare_script (session_of m)) J v → IsVerdict m J v }
{}

/// An accepted list of events has no more than a trace may have.
pub fn accepted_are_few()
    ensures { (m : Meaning) (J : List Event) → IsScript m → Accepted m J → length J ≤ max_events }
{}
