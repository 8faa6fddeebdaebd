//! Values behind turns, shared by several callers, and a rule of their owner that ties the values
//! and what each caller last gave back, between any two atomic steps. A slot is emptied right after
//! its bit is set and filled right before it is cleared, so between calls every slot is in order.
#![tactic(auto)]

mod board;
mod close;
mod hands;
mod laws;
mod lists;
mod one_turn;
mod open;
mod seat;
mod steps;
mod taken;
mod turn_set;

pub use board::Board;
pub use hands::Hands;
pub use laws::changes_tell;
pub use lists::{Seats, Values};
pub use seat::Seat;
pub use session_values::NoMemory;
pub use taken::{Taken, TookAll};
pub use turn_steps::{MAX_BOARD_TURNS, TieRule};
