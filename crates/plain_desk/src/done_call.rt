// Entries.

use session_values::{Op, Value};
use std::marker::Model;

/// An entry of a ticket: an operation that was done, and its reply.
#[derive(Clone, Copy, Debug, PartialEq, Eq)]
pub struct DoneCall {
    /// The operation.
    pub op: Op,
    /// The reply that it had.
    pub reply: Value,
}

impl Model for DoneCall {
    ghost use Rattle.session_values.specs.Dialogue.{Entry};

    ghost Value = { Entry };

    ghost view = { λ d. record { op = d.op; reply = d.reply } };

    ghost inverse = { λ e. record { op = e.op; reply = e.reply } };
}
