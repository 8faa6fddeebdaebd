//! A static library for programs in C and others: what `check`, `show`, `ranges`, `audit`, `serve`
//! and `dump` answer to bytes in memory; and over a handle a session that lives, or tables, on which
//! tickets are driven. It starts no thread, takes no lock, opens no file and keeps nothing between
//! calls, but for what a handle stands for. The headers of `embedding/` declare it.
#![tactic(auto)]

mod answer;
mod calling;
mod counts;
mod desk;
mod driving;
mod explain_exports;
mod explaining;
mod exports;
mod fronts;
mod handing;
mod handle;
mod reading;
mod renewals;
mod served;
mod session_count_exports;
mod session_counts;
mod session_desk;
mod session_exports;
mod session_messages;
mod session_names;
mod session_ticket_exports;
mod sessions;
mod text_rooms;
mod text_store;
mod ticket_exports;
mod ticketing;
mod values;
mod version;

pub use answer::Answer;
pub use counts::Counts;
pub use served::Served;
