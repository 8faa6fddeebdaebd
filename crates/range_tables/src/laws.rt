//! Laws of range sessions: each is the contract of a function with an empty body.

ghost use Rattle.std.specs.Prelude.{◌≡◌, ◌≤◌, List, ℕ, None, Some, length};
ghost use Rattle.session_values.specs.Limits.{max_input};
ghost use Rattle.range_tables.specs.Faults.{text_fault};
ghost use Rattle.range_tables.specs.Session.{IsRangesText};
ghost use Rattle.range_tables.specs.declared.refusal.RangeRefusal.{RangeRefusal};

/// A text of lines writes one text at most, and none where it has a fault.
pub fn one_text()
    ensures same { (input t u : List ℕ) → IsRangesText input t → IsRangesText input u → t ≡ u }
    ensures fine { (input t : List ℕ) (e : RangeRefusal) → IsRangesText input t
        → text_fault input ≡ Some e → ⊥ }
{}

/// A text of lines, no longer than an input may be, writes a text where it has no fault.
pub fn some_text()
    ensures { (input : List ℕ) → length input ≤ max_input → text_fault input ≡ None
        → (text : List ℕ) × IsRangesText input text }
{}
