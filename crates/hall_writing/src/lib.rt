//! Serving the tickets of a script by several callers of a hall, while the lines of those that have
//! ended are written, in the order of tickets. Each caller but the first offers its replies to a
//! lane; the first one writes the lines that are next. `open_writing` takes all memory, and alone
//! can run out of it. The clauses of `serve_and_write` are about the whole text, or a prefix of it
//! after a fault: that lines are written while tickets are served rests on clauses of private
//! functions and on tests.
//!
//! A lane on which several callers hand replies to one of them. No message is lost or handed out
//! twice. When several ends work beside each other, no clause ties 'full' and 'empty' to the lane,
//! or says that `next` and `offer` try again. Each message has shares that add up to the callers,
//! so no end can be made beside those that were handed out, and none can say that another one took
//! what it dropped.
#![tactic(auto)]

mod after;
mod calls;
mod first;
mod job;
mod jobs;
mod known;
mod lane;
pub mod laws;
mod offering;
mod opening;
mod rest;
mod room;
mod rule;
mod serving;
mod session;
mod sheet;
mod writing;

pub use lane::{End, Ends, Lane};
pub use rule::Spoken;
pub use serving::serve_and_write;
pub use session::{WritingSession, open_writing};
