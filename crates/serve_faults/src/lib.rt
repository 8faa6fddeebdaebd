//! What the program answers to a command line and an input: how a run may end, and the line that
//! tells it.
//!
//! The session that `work` makes breaks no rule, so it is never refused.
#![tactic(auto)]

mod laws;
mod limits;
mod made_laws;
mod message;
mod rule_violation;
mod status;

pub use laws::{events_can_be_told, one_answer, replies_are_printable, tables_are_printable};
pub use limits::MAX_AUDIT_INPUT;
pub use made_laws::made_session_breaks_no_rule;
pub use message::message_of;
pub use rule_violation::{Refusal, RuleViolation};
pub use status::{Fault, Status};
