// Whether one foresight covers another.

ghost use Rattle.std.specs.Bool.{Decides};
ghost use Rattle.symbolic_ops.specs.Matching.{Covered, IsBelowSome};

use crate::foresight::Foresight;
use crate::symbol::Symbol;

/// Whether some symbol of the list stands for all that this one stands for.
fn is_below_some(s: &Symbol, list: &[Symbol]) -> bool
    ensures { Decides result (IsBelowSome s.now list.now) }
{
    for above in list {
        if s.is_below(above) {
            return true;
        }
    }
    false
}

/// Whether each symbol of `g` is below some symbol of `f`: of the same kind and table, and with
/// each argument of the latter `Any` or known to be the same.
pub fn covered(g: &Foresight, f: &Foresight) -> bool
    ensures { Decides result (Covered g.now.symbols f.now.symbols) }
{
    for s in g.symbols() {
        if !is_below_some(s, f.symbols()) {
            return false;
        }
    }
    true
}
