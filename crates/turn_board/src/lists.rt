// The lists of a board's values and seats.

use crate::seat::Seat;
use session_values::Listed;

/// The values of a board, in the order of their turns.
pub type Values<V> = Listed<V>;

/// The seats of a board, in the order of their callers.
pub type Seats<V, R> = Listed<Seat<V, R>>;
