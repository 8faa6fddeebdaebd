// What the calls of a desk answer.

use session_values::Value;
use thiserror::Error;

/// What a call of an operation answers.
#[derive(Clone, Copy, Debug, PartialEq, Eq)]
pub enum Called {
    /// It was done, with this reply.
    Done(Value),
    /// An older ticket is in the way.
    Delayed {
        /// The least such ticket.
        older: u64,
    },
    /// The ticket hasn't declared the operation.
    Undeclared,
    /// It is no operation of the desk's tables.
    Misfit,
    /// The ticket isn't open.
    NoTicket,
    /// Memory ran out.
    NoMemory,
}

/// Why no ticket was begun.
#[derive(Clone, Copy, Debug, PartialEq, Eq, Error)]
pub enum BeginError {
    /// All numbers below 2^64 - 1 are used up.
    #[error("no ticket number is left")]
    NoNumber,
    /// Memory ran out.
    #[error("no memory")]
    NoMemory,
}

/// Why a ticket wasn't narrowed.
#[derive(Clone, Copy, Debug, PartialEq, Eq, Error)]
pub enum NarrowError {
    /// What it had declared doesn't cover the list.
    #[error("not covered by what the ticket has declared")]
    Undeclared,
    /// The ticket isn't open.
    #[error("the ticket is not open")]
    NoTicket,
}

/// The ticket isn't open.
#[derive(Clone, Copy, Debug, PartialEq, Eq, Error)]
#[error("the ticket is not open")]
pub struct NoTicket;
