//! The journal of finished operations, what a script of tickets means, desks at which tickets are
//! served, and the room that this takes.
//!
//! What a trace is, when it is accepted as the journal of a session, and what is judged of it.
#![tactic(auto)]

mod desk;
mod entering;
mod event;
mod journal;
pub mod laws;
mod list_script;
mod scratch;
mod script;
mod serves;
mod site;
mod tickets;
mod trace;
pub mod trace_laws;
mod verdict;

pub use desk::Desk;
pub use entering::opening_op;
pub use event::Event;
pub use journal::Journal;
pub use list_script::ListScript;
pub use scratch::Scratch;
pub use script::Script;
pub use serves::Serves;
pub use site::Site;
pub use tickets::Tickets;
pub use trace::{MAX_EVENTS, Trace};
pub use verdict::Verdict;
