//! Ordered maps and sets as the plain tables of a session. Only an operation that may add a key can
//! run out of memory, and then the tables stay as they were.
#![tactic(auto)]

mod table;
mod tables;
mod value_map;
mod value_set;

pub use tables::PlainTables;
