//! Laws of who waits for whom: each is the contract of a function with an empty body.

ghost use Rattle.std.specs.Prelude.{◌≡◌, ◌↔◌, true, List, Contains};
ghost use Rattle.session_values.specs.Commuting.{Commute};
ghost use Rattle.session_values.specs.Kinds.{is_keyed};
ghost use Rattle.session_values.specs.Op.{IsHeld};
ghost use Rattle.session_values.specs.declared.op.Op.{Op};
ghost use Rattle.serve_reading.specs.Program.{ProgramView};
ghost use Rattle.waiting_pairs.specs.declared.waiting.Wait.{Wait};
ghost use Rattle.waiting_pairs.specs.Waits.{AreWaits, IsWait};

/// The list has exactly the symbols that may still come at a point of one handler beside the
/// operations of a handler that they delay.
pub fn each_wait_is_told()
    ensures { (p : ProgramView) (found : List Wait) → AreWaits p found → (w : Wait)
        → Contains found w ↔ IsWait p w }
{}

/// Operations with a key that don't commute have the same key.
pub fn waits_have_one_key()
    ensures { (a b : Op) → IsHeld a → IsHeld b → is_keyed a.kind ≡ true → is_keyed b.kind ≡ true
        → (Commute a b → ⊥) → a.key ≡ b.key }
{}
