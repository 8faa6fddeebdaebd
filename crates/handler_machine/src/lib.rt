//! Handlers run on what answers their operations, and served at desks.
//!
//! The walk over a handler whose names are resolved: it does a handler's statements, and tells a
//! guide of each operation and of each point that it passes. The walk is the handler's run, for
//! every guide and whatever the replies are. All variables of a walk are cleared, not only a
//! handler's own: their number is the guide's, and the clearing is one fill of memory.
#![tactic(auto)]

mod answerer;
mod exprs;
mod guide;
pub mod laws;
mod narrowing;
mod on_tables;
mod replies;
mod running;
mod scripts;
mod serving;
mod sums;
mod telling;
mod variables;
mod walk;

pub use answerer::{Answerer, run_body};
pub use declaration_insertion::Program;
pub use guide::Guide;
pub use on_tables::TablesAnswerer;
pub use running::run_handler;
pub use scripts::Scripts;
pub use serving::serve_one;
pub use variables::{put_args, set_up};
pub use walk::walk_body;
