//! Laws on the dialogue of a handler, for all values of its parameters and whatever is replied.

ghost use Rattle.std.specs.Prelude.{◌≡◌, ℕ, ◌≤◌, List, length};
ghost use Rattle.std.specs.List.{AllByRecursion};
ghost use Rattle.session_values.specs.declared.kind.TableKind.{TableKind};
ghost use Rattle.session_values.specs.declared.value.Value.{Value};
ghost use Rattle.session_values.specs.Dialogue.{Entry, Follows, EndsBy};
ghost use Rattle.session_values.specs.Values.{IsValue};
ghost use Rattle.check_meaning.specs.Ahead.{goes, run_then};
ghost use Rattle.check_meaning.specs.Bounds.{adding, adds_bound, calls_bound, weight_of};
ghost use Rattle.check_meaning.specs.Code.{Code};
ghost use Rattle.check_meaning.specs.Dialogue.{Env, env_of, next, run};
ghost use Rattle.check_meaning.specs.Keeps.{CallsFit, CountsAtMost, KeepsValues};
ghost use Rattle.check_meaning.specs.Within.{CodeWithin};

/// A run makes at most as many calls as the bound by the text says, and at most as many adding ones
/// on a table; after as many replies it has answered.
pub fn runs_are_bounded()
    ensures calls { (code : Code) (env : Env) (entries : List Entry)
        → Follows (next code env) entries → length entries ≤ calls_bound code }
    ensures adds { (table : ℕ) (code : Code) (env : Env)
        → CountsAtMost (adding table) (adds_bound table code) (next code env) }
    ensures ends { (code : Code) (env : Env) → EndsBy (calls_bound code) (next code env) }
{}

/// The next operation fits the tables, and where a program can hold the arguments and the replies,
/// it can hold what comes next.
pub fn next_is_held()
    ensures fits { (shape : List TableKind) (n : ℕ) (code : Code) (env : Env)
        → CodeWithin shape n code → CallsFit shape (next code env) }
    ensures values { (shape : List TableKind) (n : ℕ) (code : Code) (args : List Value)
        → CodeWithin shape n code → AllByRecursion IsValue args
        → KeepsValues (next code (env_of args)) }
{}

/// A block run with what comes after it is the block's run.
pub fn rest_may_be_given()
    ensures { (code : Code) (env : Env) → run_then code goes env ≡ run code env }
{}
