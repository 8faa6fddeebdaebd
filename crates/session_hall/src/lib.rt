//! Callers on shared tables. Each serves one ticket at a time: it admits an operation, does it on
//! its shards, and enters it in the book, while one rule ties book, shards and callers.
#![tactic(auto)]

mod answers;
mod applying;
mod caller;
mod closed;
mod closing;
mod filling;
mod finishing;
mod hall;
mod holding;
mod holding_enter;
mod holding_reply;
mod holding_ticket;
mod holding_work;
mod in_hand;
pub mod laws;
mod listing;
mod on_shards;
mod opening;
mod reopening;
mod serving;
mod sizes;
mod stage;
mod taking;
mod waiting;
mod waits;

pub use answers::{Admitting, Applying, Began, Declared, Ending, Finishing, Worked};
pub use caller::{Caller, Callers};
pub use closed::{Closed, Parts};
pub use hall::Hall;
pub use hall_rule::Held;
pub use holding::Holding;
pub use shard_tables::Part;
pub use sizes::Sizes;
pub use stage::Stage;
pub use waits::Waits;
