//! Which handler makes which other one wait: a symbol of what may still come at a point against an
//! operation. `waits` lists exactly these, in the order of the text; operations with keys wait only
//! if both keys are equal. `told` writes the list as lines or as JSON, or names the file's first
//! broken rule.
#![tactic(auto)]

mod asked;
mod cause;
mod chains;
mod count_json;
pub mod count_laws;
mod count_lines;
mod counting;
mod counts;
mod delay;
mod delaying;
mod form;
mod json;
mod known;
pub mod laws;
mod lines;
mod links;
mod naming;
mod sought;
mod table;
mod telling;
mod trace_telling;
mod waiting;
mod ways;

pub use asked::Asked;
pub use cause::Cause;
pub use count_json::delay_json;
pub use count_lines::delay_lines;
pub use counting::Row;
pub use counts::{Counts, counts_of};
pub use delay::Delay;
pub use delaying::delays;
pub use form::Form;
pub use json::wait_json;
pub use lines::wait_lines;
pub use naming::{handler_name, named, push_symbol, symbol_text};
pub use serve_faults::MAX_AUDIT_INPUT;
pub use serve_reading::{Fault, LoadError, Status, message_of};
pub use session_values::MAX_INPUT;
pub use telling::told;
pub use trace_telling::told_trace;
pub use waiting::{Wait, waits};
