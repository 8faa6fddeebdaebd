// Refusals of the analysis.

use session_values::NoMemory;
use std::alloc::{AllocError, AllocFailed};
use thiserror::Error;

/// Why there are no lists for a file.
#[derive(Clone, Copy, Debug, PartialEq, Eq, Error)]
pub enum AnalysisRefusal {
    /// More than 256 symbols at a point. The place is that of the handler's name for its entry, and
    /// else that of the word of the operation, the choice or the loop at which the point stands.
    #[error("{count} operations may be used at {at}")]
    TooManySymbols { at: u32, count: u64 },
    #[error("no memory")]
    NoMemory,
}

impl From<NoMemory> for AnalysisRefusal {
    ghost use Rattle.std.specs.Prelude.{◌≡◌};
    ghost use Rattle.may_use_analysis.specs.declared.refusal.AnalysisRefusal.TheVariants as refusal;

    ghost from_gives = { λ _ e. e ≡ refusal.NoMemory };

    fn from(_: NoMemory) -> Self {
        AnalysisRefusal::NoMemory
    }
}

impl From<AllocError> for AnalysisRefusal {
    ghost use Rattle.std.specs.Prelude.{◌≡◌};
    ghost use Rattle.may_use_analysis.specs.declared.refusal.AnalysisRefusal.TheVariants as refusal;

    ghost from_gives = { λ _ e. e ≡ refusal.NoMemory };

    fn from(_: AllocError) -> Self {
        AnalysisRefusal::NoMemory
    }
}

impl<T: Drop> From<AllocFailed<T>> for AnalysisRefusal {
    ghost use Rattle.std.specs.Prelude.{◌≡◌};
    ghost use Rattle.may_use_analysis.specs.declared.refusal.AnalysisRefusal.TheVariants as refusal;

    ghost from_gives = { λ _ e. e ≡ refusal.NoMemory };

    fn from(_: AllocFailed<T>) -> Self {
        AnalysisRefusal::NoMemory
    }
}
