//! Laws of a lane: each is the contract of a function with an empty body.

ghost use Rattle.std.specs.Prelude.{◌≡◌, ℕ, ◌+◌, ◌<◌, ◌≤◌, List, ◌++◌};
ghost use Rattle.std.specs.List.{AllByRecursion};
ghost use Rattle.hall_writing.specs.Lanes.{Carries, IsAlone, IsMoment, IsSpoken, times, total};

use crate::rule::{EndState, Spoken};

/// Wherever the rule holds, as it does between any two calls: over all ends, each ticket was taken,
/// or is in the lane, as often as it was put in; so what was put in at most so often is handed out
/// at most so often.
pub fn nothing_twice()
    ensures times { (items : List Spoken) (ends : List EndState) (t : ℕ) → Carries items ends
        → total (λ v. times t v.taken) ends + times t items
        ≡ total (λ v. times t v.put) ends }
    ensures most { (items : List Spoken) (ends : List EndState) (t most : ℕ)
        → Carries items ends → total (λ v. times t v.put) ends ≤ most
        → total (λ v. times t v.taken) ends ≤ most }
{}

/// What an end took that stands for all callers, and what is in the lane, is what it put in, in
/// order.
pub fn alone_in_order()
    ensures { (v : EndState) (items : List Spoken) → IsMoment v items → IsAlone v
        → v.taken ++ items ≡ v.put }
{}

/// Each message in the lane is spoken for the list that the ends know.
pub fn all_spoken()
    ensures { (v : EndState) (items : List Spoken) → IsMoment v items → 0 < v.share
        → AllByRecursion (IsSpoken v.known) items }
{}
