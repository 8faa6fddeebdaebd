// Why a trace part is refused.

use thiserror::Error;

/// Why the trace part of a file is refused, with the number of the line at fault.
#[derive(Clone, Copy, Debug, PartialEq, Eq, Error)]
pub enum TraceRefusal {
    /// Its words are no event's.
    #[error("a line that is no event at line {line}")]
    BadEvent { line: u32 },
    /// It is the 440,001st line with words.
    #[error("too many events, at line {line}")]
    TooManyEvents { line: u32 },
    /// Memory ran out.
    #[error("no memory")]
    NoMemory,
}
