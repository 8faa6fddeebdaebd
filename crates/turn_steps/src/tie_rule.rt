// The rule that the owner of a board gives it.
ghost use Rattle.std.specs.Prelude.{◌≡◌, ℕ, ◌<◌, List, Option, Some, length, slice_set};
ghost use Rattle.turn_steps.specs.Maps.{FitsTurns, SameTurns, overlay};

/// How the values of a board are tied to one another, and to the notes of its callers. A caller's
/// note is the content of turn 0 as that caller last gave it back, and at the opening the content
/// with which turn 0 was opened.
pub trait TieRule<V> {
    /// What counts of a value. No value of it is made.
    type Content;

    ghost content: { V → Self.Content };

    /// Of the counted contents of all turns, and of the notes of all callers.
    ghost holds: { List Self.Content → List Self.Content → Type 0 };

    /// What a giving back of the book may change: of the number of turns, the caller, and the
    /// contents of the turns that it holds, before and after.
    ghost moves: { ℕ → ℕ → (ℕ → Option Self.Content) → (ℕ → Option Self.Content)
        → Type 0 };

    /// A giving back of the book that may be done keeps the rule.
    ghost kept: { (contents notes : List Self.Content) (caller : ℕ)
        (old new : ℕ → Option Self.Content) (book : Self.Content)
        → holds contents notes → FitsTurns contents old → SameTurns old new → new 0 ≡ Some book
        → caller < length notes → moves (length contents) caller old new
        → holds (overlay new contents) (slice_set notes caller book) };
}
