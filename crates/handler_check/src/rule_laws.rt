//! Laws on the rules of the checker.

ghost use Rattle.std.specs.Prelude.{◌≡◌, ◌≢◌, Some, None};
ghost use Rattle.syntax_trees.specs.declared.file.File.{File};
ghost use Rattle.handler_check.specs.declared.refusal.CheckRefusal.{CheckRefusal};
ghost use Rattle.handler_check.specs.FirstFault.{IsFirst, IsFirstFault, KeepsRules};
ghost use Rattle.syntax_trees.specs.Rising.{PlacesRise};
ghost use Rattle.handler_check.specs.Rules.{IsBroken};
ghost use Rattle.handler_check.specs.Scan.{file_fault};

/// At most one fault is first.
pub fn one_is_first()
    ensures { (f : File) (e g : CheckRefusal) → IsFirstFault f e → IsFirstFault f g → e ≡ g }
{}

/// Where the places of a file rise in the order of its text, a walk over the text finds the first
/// fault.
pub fn walk_finds_first()
    ensures some { (f : File) (e : CheckRefusal) → PlacesRise f → file_fault f ≡ Some e
        → IsFirstFault f e }
    ensures none { (f : File) → PlacesRise f → file_fault f ≡ None → KeepsRules f }
{}
