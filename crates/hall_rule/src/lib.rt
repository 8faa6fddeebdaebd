//! The rule of a hall: what its turns hold, and how the book, the shards and the callers' notes are
//! tied to one another between any two atomic steps. The laws `whenever_free` and `counting` have a
//! premise that the rule doesn't have: that the script in the book's turn is a script (`IsScript`).
//! Each caller's clauses have it.
#![tactic(auto)]

mod hall_rule;
mod held;
pub mod laws;

pub use hall_rule::HallRule;
pub use held::{Counted, Held};
pub use shard_tables::Part;
