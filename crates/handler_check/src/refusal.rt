// Refusals of the checker.

use session_values::NoMemory;
use std::alloc::{AllocError, AllocFailed};
use thiserror::Error;

/// Why a file of handlers is refused. Each `at` is a byte place in the source.
#[derive(Clone, Copy, Debug, PartialEq, Eq, Error)]
pub enum CheckRefusal {
    /// The name stands for an earlier table, handler or variable.
    #[error("name declared twice at {at}")]
    Twice { at: u32 },
    /// The name stands for no table, or for no variable that is visible there.
    #[error("unknown name at {at}")]
    Unknown { at: u32 },
    /// The operation has another number of arguments.
    #[error("wrong number of arguments at {at}")]
    Arity { at: u32 },
    /// An operation on maps names a set, or one on sets a map.
    #[error("wrong kind of table at {at}")]
    WrongTable { at: u32 },
    /// A number of turns that isn't 1 to 1000.
    #[error("wrong number of turns at {at}")]
    RepeatBound { at: u32 },
    /// An eighth table.
    #[error("too many tables at {at}")]
    TooManyTables { at: u32 },
    /// A 65th handler.
    #[error("too many handlers at {at}")]
    TooManyHandlers { at: u32 },
    /// A 33rd variable of a handler.
    #[error("too many variables at {at}")]
    TooManyVariables { at: u32 },
    /// A handler that may make more than 10,000 calls.
    #[error("too many calls at {at}")]
    TooManyCalls { at: u32 },
    /// A handler whose work may be above 100,000.
    #[error("too much work at {at}")]
    TooMuchWork { at: u32 },
    #[error("no memory")]
    NoMemory,
}

impl From<NoMemory> for CheckRefusal {
    ghost use Rattle.std.specs.Prelude.{◌≡◌};
    ghost use Rattle.handler_check.specs.declared.refusal.CheckRefusal.TheVariants as refusal;

    ghost from_gives = { λ _ e. e ≡ refusal.NoMemory };

    fn from(_: NoMemory) -> Self {
        CheckRefusal::NoMemory
    }
}

impl From<AllocError> for CheckRefusal {
    ghost use Rattle.std.specs.Prelude.{◌≡◌};
    ghost use Rattle.handler_check.specs.declared.refusal.CheckRefusal.TheVariants as refusal;

    ghost from_gives = { λ _ e. e ≡ refusal.NoMemory };

    fn from(_: AllocError) -> Self {
        CheckRefusal::NoMemory
    }
}

impl<T: Drop> From<AllocFailed<T>> for CheckRefusal {
    ghost use Rattle.std.specs.Prelude.{◌≡◌};
    ghost use Rattle.handler_check.specs.declared.refusal.CheckRefusal.TheVariants as refusal;

    ghost from_gives = { λ _ e. e ≡ refusal.NoMemory };

    fn from(_: AllocFailed<T>) -> Self {
        CheckRefusal::NoMemory
    }
}
