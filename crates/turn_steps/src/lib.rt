//! The steps under a board: turns that are bits of one word, and what each step makes of what a
//! seat knows. A step is made by one function alone, which counts it. `ask`, `give_back` and `book`
//! count one, `exchange` counts none, `split` and `join` keep the sum. That the counts change in no
//! other way follows from what is private here.
#![tactic(auto)]

mod close;
mod open;
mod pass;
mod plays;
mod steps;
mod tie;
mod tie_rule;
mod view;
mod words;

pub use pass::Pass;
pub use plays::Change;
pub use session_values::NoMemory;
pub use tie_rule::TieRule;
pub use words::{MAX_BOARD_TURNS, Words};
