// Which open ticket is in the way of a whole list.

ghost use Rattle.std.specs.Prelude.{◌≡◌, MatchOption};
ghost use Rattle.std.specs.Bool.{Decides};
ghost use Rattle.std.specs.List.{AllByRecursion};
ghost use Rattle.symbolic_ops.specs.Commuting.{SymbolsCommute};
ghost use Rattle.symbolic_ops.specs.Matching.{HasNoVar};
ghost use Rattle.driven_tickets.specs.Commuting.{IsClear, IsHeldUpBy};
ghost use Rattle.driven_tickets.specs.Tickets.{AllPairsCommute};

use crate::open_tickets::OpenTickets;
use commute_tables::commute_symbols;
use symbolic_ops::Symbol;

/// Whether all that a symbol stands for commutes with all that the symbols stand for.
fn commutes_with(s: &Symbol, list: &[Symbol]) -> bool
    requires one { HasNoVar s.now }
    requires list { AllByRecursion HasNoVar list.now }
    ensures { Decides result (AllByRecursion (λ y. SymbolsCommute s.now y) list.now) }
{
    for y in list {
        if !commute_symbols(s, y) {
            return false;
        }
    }
    true
}

/// Whether all that the one list stands for commutes with all that the other stands for.
fn lists_commute(list: &[Symbol], other: &[Symbol]) -> bool
    requires list { AllByRecursion HasNoVar list.now }
    requires other { AllByRecursion HasNoVar other.now }
    ensures { Decides result (AllPairsCommute list.now other.now) }
{
    for s in list {
        if !commutes_with(s, other) {
            return false;
        }
    }
    true
}

impl OpenTickets {
    /// The least open ticket that has declared something with which something of a list doesn't
    /// commute.
    pub fn in_the_way(&self, list: &[Symbol]) -> Option<u64>
        requires { AllByRecursion HasNoVar list.now }
        ensures { MatchOption result (IsClear self.now list.now) (IsHeldUpBy self.now list.now) }
    {
        for o in self.list.as_slice() {
            if !lists_commute(list, o.declared.symbols()) {
                return Some(o.ticket);
            }
        }
        None
    }
}
