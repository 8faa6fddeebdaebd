// The lists of a handler.

ghost use Rattle.std.specs.Prelude.{IfErr, IfOk, None};
ghost use Rattle.check_meaning.specs.Code.{IsNumbered, block_code};
ghost use Rattle.may_use_analysis.specs.Numbered.{ArePointLists, IsFirstExcess, IsTooLong};

use crate::heads::Heads;
use crate::kept::{Keeping, PointLists};
use crate::ordered::Ordered;
use crate::places::place_of;
use crate::refusal::AnalysisRefusal;
use crate::spread::spread_block;
use crate::walk::before_block;
use check_meaning::CheckedHandler;
use session_values::NoMemory;
use std::alloc::Global;

/// What is kept of the lists of a handler's points, the last point first and the entry last, where
/// none is too long.
pub(crate) fn short_lists(
    alloc: Global,
    handler: &CheckedHandler,
    keeping: Keeping,
) -> Result<PointLists, AnalysisRefusal>
    requires { IsNumbered (block_code handler.now.body) 1 }
    ensures lists { IfOk result (ArePointLists (block_code handler.now.body)) }
    ensures short { IfOk result (λ lists. IsFirstExcess lists None) }
    ensures refused { IfErr result (IsTooLong handler.now) }
{
    let lists = handler_lists(alloc, handler, keeping)?;
    match first_excess(&lists) {
        None => Ok(lists),
        Some(excess) => {
            let at = place_of(alloc, handler, excess.point)?;
            let count = excess.count;
            Err(AnalysisRefusal::TooManySymbols { at, count })
        }
    }
}

fn handler_lists(
    alloc: Global,
    handler: &CheckedHandler,
    keeping: Keeping,
) -> Result<PointLists, NoMemory>
    requires { IsNumbered (block_code handler.now.body) 1 }
    ensures { IfOk result (ArePointLists (block_code handler.now.body)) }
{
    let mut lists = PointLists::new(alloc, keeping)?;
    let mut heads = Heads::new(alloc);
    let nothing = Ordered::new(alloc);
    let body = handler.body.as_slice();
    let start = Ordered::new(alloc);
    spread_block(alloc, body, start, true, &mut heads)?;
    let entry = before_block(alloc, body, nothing, &heads, &mut lists)?;
    lists.keep(alloc, entry.as_slice())?;
    Ok(lists)
}

/// A point that has too many symbols.
#[derive(Clone, Copy)]
struct Excess {
    point: usize,
    count: u64,
}

/// The first point, by number, that has too many symbols.
fn first_excess(lists: &PointLists) -> Option<Excess>
    ensures { IsFirstExcess lists.now result }
{
    let size = lists.len();
    for point in 0..size {
        if let Some(count) = lists.count(size - (point + 1)) {
            return Some(Excess { point, count });
        }
    }
    None
}
