//! A session that lives: handlers that were read once, and requests served one by one while a
//! program runs, on tables of its own. Its calls wait for nothing and need no runtime. A line is
//! served alone from the tables before it, or changes nothing. Beside open tickets it is delayed as
//! a whole if what its handler declares at its entry doesn't commute with what they have declared.
//! The law `regroups` holds of every session, `answered_as_served` of one that was given lines
//! alone. In no clause: that searches among names begin by the seed.
#![tactic(auto)]

mod accepting;
mod acting;
mod adds;
mod admission;
mod admitting;
mod answers;
mod argument;
mod arguments;
mod batch;
mod driving;
mod dumping;
mod first_line;
mod growing;
mod history;
mod invoking;
mod laws;
mod naming;
mod opening;
mod placing;
mod receiving;
mod renewing;
mod reply_line;
mod running;
mod session;
mod tables;
mod telling;

pub use answers::{Answered, InvokeError, LineRefusal, NameError};
pub use argument::Argument;
pub use batch::{Batch, Ended};
pub use dumping::Dumped;
pub use opening::OpenError;
pub use renewing::RenewError;
pub use reply_line::LONGEST_REPLY;
pub use session::LiveSession;
