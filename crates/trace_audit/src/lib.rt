//! Traces of sessions judged: the handler of each request is run on what the trace tells.
#![tactic(auto)]

mod audit_desk;
mod front;
mod gathering;
mod judge;
mod judging;
pub mod laws;
mod opening;
mod replaying;
mod sessions;
mod standing;
mod ticket_replay;

pub use audit_desk::AuditDesk;
pub use session_journal::{MAX_EVENTS, Trace, Verdict};
pub use sessions::judge_session;
