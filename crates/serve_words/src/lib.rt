//! The command line of the program: which words ask for what.
//!
//! The made session of `work`: its text, by a generator of numbers, and the lines of its summary.
#![tactic(auto)]

mod command;
mod draws;
mod number;
mod session;
mod summary;
mod words;

pub use command::Command;
pub use session::session_text;
pub use summary::summary_text;
pub use words::{command_of, usage_line};
