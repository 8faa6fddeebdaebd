//! Serving the tickets of a script by several callers of a hall. What the programs call is
//! `serve_tickets` with `serve_next_kept`: a caller keeps the book (`HoldingDesk`) wherever that is
//! possible. `serve_next` and `HallDesk` do the same in separate steps. `open_session` and
//! `reopen_session` take all memory, and alone can run out of it: `serve_session` is given no
//! allocator. No clause says when the book is given back, but before what may take long, how many
//! threads there are, or that `meanwhile` of an `AfterEnd` is called.
#![tactic(auto)]

mod after;
mod crew;
mod desk;
mod job;
mod jobs;
mod keeping;
mod kept_calls;
mod kept_desk;
mod kept_next;
mod next;
mod pause;
mod runner;
mod session;

pub use after::AfterEnd;
pub use crew::Crew;
pub use desk::HallDesk;
pub use kept_desk::HoldingDesk;
pub use kept_next::serve_next_kept;
pub use next::serve_next;
pub use pause::Pause;
pub use runner::serve_tickets;
pub use session::{OpenSession, make_scratches, open_session, reopen_session, serve_session};
pub use session_hall::Sizes;
pub use session_journal::{Desk, Scratch, Script, Serves, Site, Tickets};
pub use symbolic_ops::{Foresight, Symbol};
