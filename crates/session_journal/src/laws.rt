//! Laws of journals: each is the contract of a function with an empty body.

ghost use Rattle.std.specs.Prelude.{◌≡◌, ℕ, List};
ghost use Rattle.session_values.specs.Tables.{Tables};
ghost use Rattle.session_journal.specs.Journal.{AreBelow, InversionsCommute, Replays, begun, by_ticket, done_operations, in_order, regrouped, run};

use crate::event::Event;

/// What replays, and whose operations commute where a younger ticket's stands before an older
/// one's, replays regrouped by ticket too, and gives the same tables.
pub fn regrouping()
    ensures replays { (ts : Tables) (J : List Event) → Replays ts (in_order (done_operations J)) →
        InversionsCommute (done_operations J) → AreBelow (begun J) (done_operations J)
        → Replays ts (regrouped J) }
    ensures tables { (ts : Tables) (J : List Event) → Replays ts (in_order (done_operations J)) →
        InversionsCommute (done_operations J) → AreBelow (begun J) (done_operations J) →
        run ts (regrouped J) ≡ run ts (in_order (done_operations J)) }
{}
