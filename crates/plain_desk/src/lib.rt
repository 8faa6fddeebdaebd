//! A desk over plain tables: it serves the tickets of a script one at a time, in order.
#![tactic(auto)]

mod desk;
mod done_call;
mod ended_ticket;
mod opening;

pub use desk::PlainDesk;
pub use done_call::DoneCall;
