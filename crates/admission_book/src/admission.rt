// The answer to a call for admission.

use symbolic_ops::Symbol;

/// Whether an operation may be done now.
#[derive(Clone, Copy, Debug, PartialEq, Eq)]
pub enum Admission {
    Admitted,
    /// An older open ticket may still call an operation with which it doesn't commute.
    Delayed {
        /// The least such ticket.
        older: u32,
        /// The first symbol of its foresight that stands for such an operation.
        symbol: Symbol,
    },
}
