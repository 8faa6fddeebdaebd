// Why requests are refused.

use thiserror::Error;

/// Why the request part of a file is refused, with the number of the line at fault.
#[derive(Clone, Copy, Debug, PartialEq, Eq, Error)]
pub enum RequestRefusal {
    /// It is the 20,001st request.
    #[error("too many requests, at line {line}")]
    TooManyRequests { line: u32 },
    /// Its first word is no handler's name.
    #[error("unknown handler at line {line}")]
    UnknownHandler { line: u32 },
    /// Its other words are not as many as the handler's parameters.
    #[error("wrong number of arguments at line {line}")]
    Arity { line: u32 },
    /// One of its other words is no value.
    #[error("a word that is no value at line {line}")]
    BadWord { line: u32 },
    /// The bounds on the calls of all requests so far pass 200,000.
    #[error("too many calls, at line {line}")]
    TooManyCalls { line: u32 },
    /// The bounds on the work of all requests so far pass 10,000,000.
    #[error("too much work, at line {line}")]
    TooMuchWork { line: u32 },
    /// Memory ran out.
    #[error("no memory")]
    NoMemory,
}
