//! The lines of traces: a line for each event, and one for what is judged of them. A trace part is
//! read once, line by line, into a list of at most eleven words that is used again.
#![tactic(auto)]

mod bounds;
mod delay;
mod event_buf;
mod event_lines;
mod event_words;
mod front;
pub mod laws;
mod numbered_line;
mod refusal;
mod trace_part;
mod verdict;
mod word;
mod words;
mod writing;

pub use bounds::event_bounds;
pub use event_buf::EventBuf;
pub use event_lines::{event_line, push_event_line};
pub use refusal::TraceRefusal;
pub use trace_part::read_trace;
pub use verdict::verdict_line;
pub use writing::write_events;
