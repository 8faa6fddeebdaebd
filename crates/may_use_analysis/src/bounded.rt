// Whether the points of a file have lists, seen handler by handler.

ghost use Rattle.std.specs.Prelude.{◌≢◌, MatchResult};
ghost use Rattle.may_use_analysis.specs.declared.refusal.AnalysisRefusal.TheVariants as refusal;
ghost use Rattle.may_use_analysis.specs.Later.{HasLater, IsTooMany};

use crate::handler::short_lists;
use crate::kept::Keeping;
use crate::refusal::AnalysisRefusal;
use handler_check::Accepted;
use std::alloc::Global;

/// Sees that at no point of a file more than 256 symbols may still come, as `later_sets` does,
/// which keeps the lists. Here one handler is held at a time, and what is too long is counted.
pub fn bound_later_sets(alloc: Global, accepted: &Accepted) -> Result<(), AnalysisRefusal>
    ensures { MatchResult result (λ _. HasLater accepted.now) (λ e. e ≢ refusal.NoMemory
        → IsTooMany accepted.now e) }
{
    for h in 0..accepted.handlers() {
        let handler = accepted.resolved(alloc, h)?;
        short_lists(alloc, &handler, Keeping::Counts)?;
    }
    Ok(())
}
