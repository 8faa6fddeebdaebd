// Why lines are refused.

use session_values::NoMemory;
use thiserror::Error;

/// Why a text of lines is refused, with the number of the line at fault, from 1.
#[derive(Clone, Copy, Debug, PartialEq, Eq, Error)]
pub enum RangeRefusal {
    /// Its first word, or the word of an operation, is none that there is.
    #[error("unknown word at line {line}")]
    UnknownWord { line: u32 },
    /// Its words, or those of an operation or of a symbol, are too few or too many.
    #[error("wrong number of words at line {line}")]
    Arity { line: u32 },
    /// One of its words is none that its place allows.
    #[error("a word that its place doesn't allow at line {line}")]
    BadWord { line: u32 },
    /// It frees a hold that isn't open.
    #[error("no open hold at line {line}")]
    NotOpen { line: u32 },
    /// It is the 4,001st line with words, the 65th open hold, or has a 257th symbol.
    #[error("too many lines, holds or symbols at line {line}")]
    TooMany { line: u32 },
    /// Memory ran out.
    #[error("no memory")]
    NoMemory,
}

impl From<NoMemory> for RangeRefusal {
    ghost use Rattle.std.specs.Prelude.{◌≡◌};
    ghost use Rattle.range_tables.specs.declared.refusal.RangeRefusal.TheVariants as refusal;

    ghost from_gives = { λ _ e. e ≡ refusal.NoMemory };

    fn from(_: NoMemory) -> RangeRefusal {
        RangeRefusal::NoMemory
    }
}
