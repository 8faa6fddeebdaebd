//! Laws of the rule: each is the contract of a function with an empty body.

ghost use Rattle.std.specs.Prelude.{◌≡◌, ℕ, suc, ◌<◌, List, ◌∷◌, Some, length, slice_get, replicate};
ghost use Rattle.turn_board.specs.States.{BoardState, IsFree};
ghost use Rattle.turn_board.specs.Tied.{Tied as BoardTied};
ghost use Rattle.hall_rule.specs.declared.held.Held.{Held as HeldOf};
ghost use Rattle.hall_rule.specs.Free.{FreeBook};
ghost use Rattle.hall_rule.specs.Shards.{content_of};
ghost use Rattle.session_journal.specs.Script.{Meaning, IsScript};
ghost use Rattle.admission_book.specs.Book.{Book};
ghost use Rattle.hall_rule.specs.Contents.{Content, Register};
ghost use Rattle.hall_rule.specs.Counted.{ReplaysByTicket};
ghost use Rattle.hall_rule.specs.Halls.{AllEnded, IsFresh, IsOut, first_content};
ghost use Rattle.hall_rule.specs.Tie.{Tied};

/// The rule holds of an opened book and of shards as they are before any ticket is begun.
pub fn opening<S>()
    ensures { (meaning : S → Meaning) (script : S) (callers : ℕ) (shards : List (Content S))
        → ((j : ℕ) (x : Content S) → slice_get shards j ≡ Some x
        → IsFresh (meaning script) (suc (length shards)) j x)
        → Tied meaning (first_content meaning script callers ∷ shards)
        (replicate callers (first_content meaning script callers)) }
{}

/// Where the rule holds and every caller is out, all tickets have ended, and the shards are the
/// parts of the tables after serving them one at a time.
pub fn closing<S>()
    ensures { (meaning : S → Meaning) (script : S) (contents notes : List (Content S))
        → IsScript (meaning script) → Tied meaning contents notes → 0 < length notes
        → ((c : ℕ) (x : Content S) → slice_get notes c ≡ Some x → IsOut (meaning script) script c x)
        → AllEnded (meaning script) script contents (length contents) }
{}

/// Wherever the rule holds, as it does between any two atomic steps: what the counted book notes as
/// done, regrouped by ticket, replays from the opening tables with the same replies, and gives the
/// tables of which the counted shards are the parts; each begun ticket is foreknown; and nothing
/// that a caller's note says was done is undone.
pub fn counting<S>()
    ensures { (meaning : S → Meaning) (contents notes : List (Content S)) (script : S) (book : Book)
        → IsScript (meaning script) → Tied meaning contents notes
        → slice_get contents 0 ≡ Some (Register script book)
        → ReplaysByTicket (meaning script) script contents notes book }
{}

/// In every state that keeps the rule of a hall's board, as each state between two atomic steps
/// does: if no caller holds the book, it is in its slot, and its finished operations, regrouped by
/// ticket, replay from the opening tables with the same replies, nothing being undone.
pub fn whenever_free<S>()
    ensures { (meaning : S → Meaning) (callers : ℕ) (s : BoardState (HeldOf S) (Content S))
        (r : BoardTied content_of (Tied meaning) callers s) → IsFree s 0
        → FreeBook meaning r.contents r.notes s.homes }
{}
