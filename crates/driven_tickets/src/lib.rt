//! Tickets that a program drives call by call, on one set of tables. A ticket declares at its
//! beginning what it may call, each call of it is done or delayed by what older tickets have
//! declared, and it narrows and ends when the program says so. Whatever a program does, the
//! operations that were done, ticket after ticket, replay with the same replies.
//!
//! ```text
//! let older = tables.begin(transfer)?;       // may get account 1, and bump 1 and 2
//! let younger = tables.begin(reader)?;       // may get account 2
//! tables.call(younger, get_2)                // Delayed { older }
//! tables.call(older, bump_2)                 // Done(Nil)
//! tables.narrow(older, get_1_alone)?;
//! tables.call(younger, get_2)                // Done(..), what the bump left
//! tables.end(older)?;
//! ```
#![tactic(auto)]

mod answers;
mod beginning;
mod blocker;
mod calling;
mod desk_tables;
mod driven_tables;
mod ending;
mod history;
pub mod laws;
mod narrowing;
mod open_ticket;
mod open_tickets;
mod origin;
mod place;
mod resting;
mod standing;
mod telling;

pub use answers::{BeginError, Called, NarrowError, NoTicket};
pub use driven_tables::DrivenTables;
pub use history::History;
pub use open_tickets::OpenTickets;
