// Events.

use session_values::{Op, Reply, Value};
use symbolic_ops::Symbol;

/// What a journal notes of a ticket, the number of a request from 0.
#[derive(Clone, Copy, Debug, PartialEq, Eq)]
pub enum Event {
    /// The ticket begins, and belongs to this caller from then on.
    Begin {
        ticket: u32,
        caller: u32,
    },
    /// An operation of the ticket was done, with this reply.
    Done {
        ticket: u32,
        op: Op,
        reply: Value,
    },
    /// The ticket's next operation was delayed by an older open ticket, with this symbol of its.
    Delay {
        ticket: u32,
        op: Op,
        older: u32,
        symbol: Symbol,
    },
    /// The ticket ended with this reply.
    End {
        ticket: u32,
        reply: Reply,
    },
}
