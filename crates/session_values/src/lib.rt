//! Values, operations, replies and names, and the definitions that every layer above speaks of.
//!
//! Lists and boxes that contracts see as plain lists and values, and the error of running
//! out of memory: what trees, sessions and boards are made of.
//!
//! The limits of files, handlers, sessions and those who serve them. The definitions have them by
//! the same names, in small letters. It has no function: that code and contracts have the same
//! number is proved where both are used.
//!
//! The tables with which a session opens, as lists of entries.
#![tactic(auto)]

mod boxed;
mod bump;
mod entries;
mod kind;
pub mod laws;
mod limits;
mod listed;
mod names;
mod no_memory;
mod op;
mod opening;
pub mod opening_laws;
mod opening_limits;
mod reply;
mod seeded;
mod sort;
mod value;

pub use boxed::Boxed;
pub use bump::bumped;
pub use kind::{Kind, TableKind};
pub use limits::{
    MAX_CALLERS, MAX_CALLS, MAX_DEPTH, MAX_HANDLERS, MAX_INPUT, MAX_NAME, MAX_OPEN, MAX_REQUESTS,
    MAX_SESSION_CALLS, MAX_SESSION_WORK, MAX_SHARDS, MAX_SIGNS, MAX_SYMBOLS, MAX_TABLES, MAX_TURNS,
    MAX_VARIABLES, MAX_WORK,
};
pub use listed::Listed;
pub use names::Names;
pub use no_memory::NoMemory;
pub use op::Op;
pub use opening::Opening;
pub use opening_limits::{MAX_OPENING, MAX_TABLE_LINES};
pub use reply::Reply;
pub use value::Value;
