//! Laws on resolved handlers.

ghost use Rattle.std.specs.Prelude.{◌≡◌, ◌≤◌, ◌⊎◌, ℕ, List, length};
ghost use Rattle.std.specs.List.{Contains};
ghost use Rattle.session_values.specs.Limits.{max_handlers, max_tables};
ghost use Rattle.syntax_trees.specs.declared.file.File.{File};
ghost use Rattle.syntax_trees.specs.declared.file.Handler.{Handler};
ghost use Rattle.session_values.specs.declared.kind.Kind.{Kind};
ghost use Rattle.handler_check.specs.Checked.{HandlerWithin};
ghost use Rattle.handler_check.specs.Checking.{IsAccepted, IsRefusal};
ghost use Rattle.handler_check.specs.Resolved.{StandsFor, StandsForTable, handler_code, number_in, points_of, table_names, variables_of};
ghost use Rattle.check_meaning.specs.Code.{IsNumbered, points};
ghost use Rattle.syntax_trees.specs.Bounds.{KeepsBounds};
ghost use Rattle.handler_check.specs.declared.refusal.CheckRefusal.{CheckRefusal};
ghost use Rattle.handler_check.specs.declared.refusal.CheckRefusal.TheVariants as refusal;
ghost use Rattle.handler_check.specs.FirstFault.{KeepsRules};
ghost use Rattle.syntax_trees.specs.Rising.{PlacesRise};
ghost use Rattle.syntax_trees.specs.Marks.{Mark, Declared, Mentioned, OnTable, declared, handler_marks, table_marks};
ghost use Rattle.handler_check.specs.Rules.{Stands};
ghost use Rattle.syntax_trees.specs.Source.{block_source};

/// The points of a resolved handler are numbered in the order of its text, from 1 behind its entry.
pub fn points_are_numbered()
    ensures numbered { (f : File) (h : Handler) → IsNumbered (handler_code f h) 1 }
    ensures count { (f : File) (h : Handler) → points (handler_code f h)
        ≡ points_of (block_source h.body) }
{}

/// Where a file breaks no rule, each variable that is read or assigned has the number of the one
/// variable of its name, which is declared before, and is visible there; and each table of an
/// operation has the number of the one table of its name, which is of the operation's kind.
pub fn names_stand_for_declarations()
    ensures variables { (f : File) (h : Handler) → KeepsRules f → Contains f.handlers h
        → (before : List Mark) (name at : ℕ) (visible : List ℕ)
        → Stands (handler_marks h) before (Mentioned name at visible)
        → StandsFor h before visible name (number_in (variables_of h) name) }
    ensures tables { (f : File) (h : Handler) → KeepsRules f → Contains f.handlers h
        → (before : List Mark) (kind : Kind) (name at : ℕ)
        → Stands (handler_marks h) before (OnTable kind name at)
        → StandsForTable f kind name (number_in (table_names f) name) }
{}

/// Names are numbered in the order of their declarations: where a file breaks no rule, the number
/// of a handler's variable is how many variables of the handler are declared before it, its
/// parameters first, and that of a table how many tables are.
pub fn names_are_numbered_in_order()
    ensures variables { (f : File) (h : Handler) → KeepsRules f → Contains f.handlers h
        → (before : List Mark) (name at : ℕ)
        → Stands (handler_marks h) before (Declared name at)
        → number_in (variables_of h) name ≡ length (declared before) }
    ensures tables { (f : File) → KeepsRules f → (before : List Mark) (name at : ℕ)
        → Stands (table_marks f.tables) before (Declared name at)
        → number_in (table_names f) name ≡ length (declared before) }
{}

/// What holds of each handler of a file that is accepted and keeps its bounds, and how many tables
/// and handlers there are.
pub fn accepted_files_are_within()
    ensures handler { (f : File) → IsAccepted f → KeepsBounds f → (h : ℕ) → HandlerWithin f h }
    ensures handlers { (f : File) → IsAccepted f → length f.handlers ≤ max_handlers }
    ensures tables { (f : File) → IsAccepted f → length f.tables ≤ max_tables }
{}

/// A file whose places rise in the order of its text is accepted or has a first fault, one at most
/// and not both; and the refusal is never out of memory.
pub fn one_answer()
    ensures some { (f : File) → PlacesRise f
        → IsAccepted f ⊎ ((e : CheckRefusal) × IsRefusal f e) }
    ensures one { (f : File) (e g : CheckRefusal) → IsRefusal f e → IsRefusal f g → e ≡ g }
    ensures either { (f : File) (e : CheckRefusal) → IsRefusal f e → IsAccepted f → ⊥ }
    ensures certain { (f : File) → IsRefusal f refusal.NoMemory → ⊥ }
{}
