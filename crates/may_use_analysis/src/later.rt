// The operations that may still come at each point of each handler of a file.

ghost use Rattle.std.specs.Prelude.{◌≡◌, ◌≢◌, ◌<◌, [], IfOk, MatchResult, length, slice_index_or};
ghost use Rattle.may_use_analysis.specs.declared.refusal.AnalysisRefusal.TheVariants as refusal;
ghost use Rattle.may_use_analysis.specs.Later.{AreLater, IsTooMany};
ghost use Rattle.may_use_analysis.specs.Own.{AreOfHandlers};

use crate::handler::short_lists;
use crate::kept::{Keeping, PointLists};
use crate::refusal::AnalysisRefusal;
use handler_check::Checked;
use std::alloc::Global;
use std::marker::Model;
use symbolic_ops::Symbol;

/// The list of each point of each handler of a file. Contracts see it as these lists, by the
/// numbers of handlers and points.
#[derive(Drop)]
pub struct Later {
    // For each handler, its lists from the last point to the entry.
    handlers: Vec<PointLists>,
}

impl Model for Later {
    ghost use Rattle.std.specs.Prelude.{List, map};
    ghost use Rattle.symbolic_ops.specs.declared.symbol.Symbol.{Symbol};
    ghost use Rattle.may_use_analysis.specs.Numbered.{by_number};

    ghost Value = { List (List (List Symbol)) };

    ghost view = { λ l. map by_number l.handlers.items };
}

/// For each point of each handler the symbols of all operations that may still come, in order. A
/// file with more than 256 symbols at some point is refused.
pub fn later_sets(alloc: Global, checked: &Checked) -> Result<Later, AnalysisRefusal>
    ensures lists { MatchResult result (AreLater checked.now) (λ e. e ≢ refusal.NoMemory
        → IsTooMany checked.now e) }
    // They speak of the variables of their handlers alone, and of tables that there are.
    ensures own { IfOk result (AreOfHandlers checked.now) }
{
    // What the checker accepted speaks of its own names alone.
    let _file = checked.file();
    let mut handlers = Vec::new(alloc);
    for h in 0..checked.handlers() {
        let lists = short_lists(alloc, checked.handler(h), Keeping::Lists)?;
        if !lists.are_kept() {
            return Err(AnalysisRefusal::NoMemory);
        }
        handlers.push(lists)?;
    }
    Ok(Later { handlers })
}

impl Later {
    /// The list of a point of a handler.
    pub fn list(&self, h: u32, point: u32) -> &[Symbol]
        requires handler { h < length self.now }
        requires point { point < length (slice_index_or self.now h []) }
        ensures { result.now ≡ slice_index_or (slice_index_or self.now h []) point [] }
    {
        let lists = &self.handlers[h as usize];
        lists.list(lists.len() - (point as usize + 1))
    }
}
