// What the try calls answer. Busy names a turn that another caller held.

use session_values::Value;
use symbolic_ops::Symbol;

/// Whether a ticket begins.
#[derive(Clone, Copy, Debug, PartialEq, Eq)]
pub enum Began {
    Ticket(u32),
    /// All tickets are begun.
    AllBegun,
    Busy { turn: u32 },
}

/// Whether a list became the ticket's foresight.
#[derive(Clone, Copy, Debug, PartialEq, Eq)]
pub enum Declared {
    Yes,
    Busy { turn: u32 },
}

/// Whether an operation may be done now.
#[derive(Clone, Copy, Debug, PartialEq, Eq)]
pub enum Admitting {
    Admitted,
    /// An older open ticket may still call an operation with which it doesn't commute.
    Delayed {
        /// The least such ticket.
        older: u32,
        /// The first symbol of its foresight that stands for such an operation.
        symbol: Symbol,
    },
    Busy {
        turn: u32,
    },
}

/// Whether the operation was done on its shards.
#[derive(Clone, Copy, Debug, PartialEq, Eq)]
pub enum Applying {
    Applied(Value),
    Busy { turn: u32 },
}

/// Whether the operation was entered in the book.
#[derive(Clone, Copy, Debug, PartialEq, Eq)]
pub enum Finishing {
    Done,
    Busy { turn: u32 },
}

/// Whether the ticket ended.
#[derive(Clone, Copy, Debug, PartialEq, Eq)]
pub enum Ending {
    Ended,
    Busy { turn: u32 },
}

/// Whether an operation was done on its shards in hand.
#[derive(Clone, Copy, Debug, PartialEq, Eq)]
pub enum Worked {
    Done(Value),
    Busy { turn: u32 },
}
