//! Symbols of operations, and foresights: lists of symbols that say what may still be called.
#![tactic(auto)]

mod arg;
mod arg_sort;
mod covering;
mod foresight;
mod instantiating;
pub mod laws;
mod symbol;

pub use arg::Arg;
pub use covering::covered;
pub use foresight::Foresight;
pub use instantiating::instantiate;
pub use symbol::{Symbol, matches};
