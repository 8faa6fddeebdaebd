// Tickets that have ended.

use session_values::Reply;

/// A ticket's Reply, and where its entries stand among those of all tickets.
#[derive(Clone, Copy)]
pub struct EndedTicket {
    /// The Reply with which it ended.
    pub reply: Reply,
    /// The place of its first entry.
    pub from: usize,
    /// The place behind its last entry.
    pub until: usize,
}
