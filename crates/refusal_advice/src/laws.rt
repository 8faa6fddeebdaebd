//! A law of what is advised: the contract of a function with an empty body.

ghost use Rattle.std.specs.Prelude.{List, ℕ, []};
ghost use Rattle.syntax_grammar.specs.Parsed.{HasFault};
ghost use Rattle.syntax_grammar.specs.declared.refusals.SyntaxRefusal.{SyntaxRefusal};
ghost use Rattle.refusal_advice.specs.Advice.{NoneStands, fault_place};

/// Where a text of handlers has a first fault of the grammar or its limits, something is advised at
/// its place.
pub fn each_fault_is_advised()
    ensures { (source : List ℕ) (e : SyntaxRefusal) → HasFault [] source e
        → NoneStands source (fault_place e) → ⊥ }
{}
