// What the calls of a session answer.

use thiserror::Error;

/// Why a line isn't served: the first rule that it breaks.
#[derive(Clone, Copy, Debug, PartialEq, Eq, Error)]
pub enum LineRefusal {
    /// It is more than one line.
    #[error("more than one line")]
    ManyLines,
    /// It has more than 4,194,304 bytes.
    #[error("a line too long")]
    TooLong,
    /// Its first word is no handler's name.
    #[error("unknown handler")]
    UnknownHandler,
    /// Its other words are not as many as the handler's parameters.
    #[error("wrong number of arguments")]
    Arity,
    /// One of its other words is no value.
    #[error("a word that is no value")]
    BadWord,
}

/// What a line is answered. Only a line that is served changes anything.
#[derive(Clone, Copy, Debug, PartialEq, Eq)]
pub enum Answered {
    /// Its request was served.
    Served,
    /// It has no words.
    Nothing,
    /// It breaks this rule.
    Refused(LineRefusal),
    /// It breaks none, but with its symbols there would be more names than the session may have.
    TooManyNames,
    /// What its handler declares doesn't commute with what an open ticket has declared.
    Delayed {
        /// The least such ticket.
        older: u64,
    },
    /// All ticket numbers below 2^64 - 1 are used up.
    NoNumber,
    /// Memory ran out.
    NoMemory,
}

/// Why a text has no number among a session's names. Nothing changes.
#[derive(Clone, Copy, Debug, PartialEq, Eq, Error)]
pub enum NameError {
    /// It is no symbol's text.
    #[error("not a symbol")]
    NoSymbol,
    /// It is new, and there are as many names as the session may have.
    #[error("too many names")]
    TooManyNames,
    /// It is new, and memory ran out.
    #[error("no memory")]
    NoMemory,
}

/// Why a request of a handler by its number isn't served. Nothing changes.
#[derive(Clone, Copy, Debug, PartialEq, Eq, Error)]
pub enum InvokeError {
    /// There is no handler of this number.
    #[error("unknown handler")]
    UnknownHandler,
    /// The arguments are not as many as the handler's parameters.
    #[error("wrong number of arguments")]
    Arity,
    /// The text of an argument is no symbol's, and no argument before it is wrong.
    #[error("a text that is no symbol")]
    NoSymbol,
    /// The number of an argument is not that of a symbol's name, and no argument before it is wrong.
    #[error("a number of no name")]
    NoName,
    /// With its symbols there would be more names than the session may have.
    #[error("too many names")]
    TooManyNames,
    /// What its handler declares doesn't commute with what an open ticket has declared.
    #[error("delayed by ticket {older}")]
    Delayed {
        /// The least such ticket.
        older: u64,
    },
    /// All ticket numbers below 2^64 - 1 are used up.
    #[error("no number left")]
    NoNumber,
    /// Memory ran out.
    #[error("no memory")]
    NoMemory,
}
