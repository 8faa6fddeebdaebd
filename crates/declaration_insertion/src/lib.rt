//! Handlers with a declaration at each point: what they may still call.
#![tactic(auto)]

mod facts;
pub mod laws;
mod printing;
mod program;

pub use printing::{put_shown, show};
pub use program::{Program, insert};
