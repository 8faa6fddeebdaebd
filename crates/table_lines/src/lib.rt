//! The table part of a session file: its lines, and the entries with which tables open.
//!
//! Tables written as text: their entries in the order of what is written, a line each.
#![tactic(auto)]

mod dumping;
mod entry_line;
pub mod laws;
mod naming;
mod order;
mod reading;
mod refusal;
mod table_row;
mod tables;
pub mod text_laws;
mod words;

pub use dumping::write_entries;
pub use entry_line::{push_table_line, table_line};
pub use order::put_in_order;
pub use reading::read_tables;
pub use refusal::TableRefusal;
pub use tables::{TellsEntries, write_tables};
