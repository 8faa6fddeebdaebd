// Why table lines are refused.

use thiserror::Error;

/// Why the table part of a file is refused, with the number of the line at fault.
#[derive(Clone, Copy, Debug, PartialEq, Eq, Error)]
pub enum TableRefusal {
    /// Its first word is no table's name.
    #[error("unknown table at line {line}")]
    UnknownTable { line: u32 },
    /// Its other words aren't a key, and for a map a value.
    #[error("wrong number of words at line {line}")]
    Arity { line: u32 },
    /// One of its other words is no value.
    #[error("a word that is no value at line {line}")]
    BadWord { line: u32 },
    /// Its key was given for that table before.
    #[error("a key that was given before, at line {line}")]
    Twice { line: u32 },
    /// It is the 100,001st table line.
    #[error("too many table lines, at line {line}")]
    TooManyEntries { line: u32 },
    /// Memory ran out.
    #[error("no memory")]
    NoMemory,
}
