//! Laws on declarations.

ghost use Rattle.std.specs.Prelude.{◌≡◌, ℕ, ◌<◌, List, [], ◌∷◌, length, map};
ghost use Rattle.std.specs.List.{AllByRecursion};
ghost use Rattle.session_values.specs.Limits.{max_variables};
ghost use Rattle.session_values.specs.declared.kind.TableKind.{TableKind};
ghost use Rattle.session_values.specs.declared.value.Value.{Value};
ghost use Rattle.session_values.specs.Values.{IsValue};
ghost use Rattle.symbolic_ops.specs.declared.symbol.Symbol.{Symbol};
ghost use Rattle.symbolic_ops.specs.Instantiate.{IsWithin, symbol_in};
ghost use Rattle.syntax_trees.specs.declared.file.File.{File};
ghost use Rattle.syntax_trees.specs.declared.file.Handler.{Handler};
ghost use Rattle.syntax_trees.specs.declared.stmt.Stmt.{Stmt};
ghost use Rattle.syntax_printer.specs.Lines.{At, block_parts, block_points, stmt_part};
ghost use Rattle.syntax_trees.specs.Source.{block_source};
ghost use Rattle.handler_check.specs.Code.{Code, IsNumbered, points};
ghost use Rattle.handler_check.specs.Dialogue.{env_of};
ghost use Rattle.handler_check.specs.Within.{CodeWithin};
ghost use Rattle.handler_check.specs.Resolved.{code_at, code_of, handler_code};
ghost use Rattle.may_use_analysis.specs.Later.{HasLists};
ghost use Rattle.may_use_analysis.specs.Own.{IsOfHandler};
ghost use Rattle.declaration_insertion.specs.Promises.{ArePromised, listed, symbol_at};
ghost use Rattle.declaration_insertion.specs.Program.{IsProgram, ProgramView, declared_at};

/// In each handler, for all values of its parameters and whatever is replied, each declaration is
/// covered by the one passed before it and covers the rest of the run, and the operation that is
/// called next is matched by the last one.
pub fn declarations_cover()
    ensures { (code : Code) (lists : List (List Symbol)) (shape : List TableKind) (variables : ℕ)
        (args : List Value) → HasLists code lists → IsNumbered code 1
        → CodeWithin shape variables code → AllByRecursion IsValue args
        → ArePromised code (listed lists) (env_of args) }
{}

/// The same of each handler of a program. Its declarations name its own variables alone, of which
/// there are at most 32, and tables of the file.
pub fn programs_declare()
    ensures promised { (p : ProgramView) → IsProgram p → (h : ℕ) → h < length p.file.handlers
        → (args : List Value) → AllByRecursion IsValue args
        → ArePromised (code_at p.file h) (declared_at p h) (env_of args) }
    ensures own { (p : ProgramView) → IsProgram p → (h : ℕ) → h < length p.file.handlers
        → (point : ℕ) → AllByRecursion (IsOfHandler p.file h) (declared_at p h point) }
    ensures vars { (p : ProgramView) → IsProgram p → (h : ℕ) → h < length p.file.handlers
        → (point : ℕ) → AllByRecursion (λ s. IsWithin max_variables s) (declared_at p h point) }
{}

/// A declaration with the values of its variables, as they are put into it.
pub fn declarations_with_values()
    ensures { (values : List Value) (list : List Symbol)
        → map (symbol_in values) list ≡ map (symbol_at (env_of values)) list }
{}

/// A statement has as many points for the printer as for the checker, whatever the names and
/// declarations are, and so has a handler behind its entry. Both count in the order of the text.
pub fn points_are_the_checkers()
    ensures statement { (names : List (List ℕ)) (at : At) (tables variables : List ℕ) (s : Stmt)
        (p : ℕ) → (stmt_part names at s).points
        ≡ points (code_of tables variables (block_source (s ∷ [])) p) }
    ensures handler { (names : List (List ℕ)) (at : At) (f : File) (h : Handler)
        → block_points (block_parts names at h.body) ≡ points (handler_code f h) }
{}
