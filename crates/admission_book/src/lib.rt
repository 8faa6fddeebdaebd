//! The admission of operations by what older tickets have declared.
#![tactic(auto)]

mod admission;
mod blocker;
mod book;
mod caller_record;
mod fields;
mod kept_replies;
pub mod laws;
mod marked_foresight;
mod site_symbols;
mod touched_tables;

pub use admission::Admission;
pub use book::Book;
pub use kept_replies::Replies;
