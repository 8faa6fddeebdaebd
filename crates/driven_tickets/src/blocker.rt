// Which open ticket is in the way of an operation.

ghost use Rattle.std.specs.Prelude.{◌≡◌, ◌<◌, MatchOption, Some, None};
ghost use Rattle.std.specs.Bool.{Decides};
ghost use Rattle.std.specs.List.{AllByRecursion};
ghost use Rattle.symbolic_ops.specs.Matching.{HasNoVar, Matches};
ghost use Rattle.symbolic_ops.specs.Commuting.{CommutesWith};
ghost use Rattle.driven_tickets.specs.Tickets.{AreFreeBelow, IsLeastAgainst};

use crate::open_ticket::OpenTicket;
use commute_tables::commute_symbol;
use session_values::Op;
use symbolic_ops::{Symbol, matches};

/// Whether an operation commutes with all that the symbols stand for.
fn is_free(list: &[Symbol], op: &Op) -> bool
    requires { AllByRecursion HasNoVar list.now }
    ensures { Decides result (AllByRecursion (λ y. CommutesWith op.now y) list.now) }
{
    for s in list {
        if !commute_symbol(op, s) {
            return false;
        }
    }
    true
}

/// Whether some symbol stands for an operation.
pub(crate) fn is_declared(list: &[Symbol], op: &Op) -> bool
    requires { AllByRecursion HasNoVar list.now }
    ensures { Decides result (Matches list.now op.now) }
{
    for s in list {
        if matches(s, op) {
            return true;
        }
    }
    false
}

/// The least open ticket below this one that has declared something against the operation.
pub(crate) fn blocker(tickets: &[OpenTicket], ticket: u64, op: &Op) -> Option<u64>
    ensures { MatchOption result (AreFreeBelow op.now ticket tickets.now)
        (IsLeastAgainst op.now ticket tickets.now) }
{
    let mut found = None;
    let mut limit = ticket;
    for o in tickets {
        if o.ticket < limit && !is_free(o.declared.symbols(), op) {
            limit = o.ticket;
            found = Some(limit);
        }
    }
    found
}
