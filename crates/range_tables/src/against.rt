// What stands against an operation.

ghost use Rattle.std.specs.Prelude.{MatchOption};
ghost use Rattle.std.specs.List.{AllByRecursion};
ghost use Rattle.range_tables.specs.Symbols.{RangeCommutesWith};
ghost use Rattle.range_tables.specs.Ready.{IsReady, IsReadyHold};
ghost use Rattle.range_tables.specs.Session as spec;

use crate::{RangeOp, RangeSymbol, range_commute_symbol};
use session_values::Listed;

/// The number of the first symbol with which the operation doesn't commute, if there is one.
fn first_against(op: &RangeOp, symbols: &[RangeSymbol]) -> Option<usize>
    requires { AllByRecursion IsReady symbols.now }
    ensures { MatchOption result (AllByRecursion (RangeCommutesWith op.now) symbols.now)
        (spec.IsFirstAgainst op.now symbols.now) }
{
    for (i, s) in symbols.iter().enumerate() {
        if !range_commute_symbol(op, s) {
            return Some(i);
        }
    }
    None
}

/// The same of a hold, which has none where it is closed.
fn against_hold(op: &RangeOp, hold: &Option<Listed<RangeSymbol>>) -> Option<usize>
    requires { IsReadyHold hold.now }
    ensures { MatchOption result (spec.Passes op.now hold.now) (spec.Delays op.now hold.now) }
{
    match hold {
        Some(symbols) => first_against(op, symbols.as_slice()),
        None => None,
    }
}

/// The least open hold with a symbol with which the operation doesn't commute, and the number of
/// the first such symbol.
pub(crate) fn least_against(
    op: &RangeOp,
    holds: &[Option<Listed<RangeSymbol>>],
) -> Option<(usize, usize)>
    requires { AllByRecursion IsReadyHold holds.now }
    ensures { MatchOption result (AllByRecursion (spec.Passes op.now) holds.now)
        (λ p. spec.IsDelayed op.now holds.now p.0 p.1) }
{
    for (h, hold) in holds.iter().enumerate() {
        match against_hold(op, hold) {
            Some(i) => return Some((h, i)),
            None => {}
        }
    }
    None
}
