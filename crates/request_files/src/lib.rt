//! The request part of a session file: where it begins, and the requests that its lines are.
#![tactic(auto)]

mod arguments;
mod client_lines;
mod client_reading;
mod clients;
mod divided;
mod entry;
mod halves;
pub mod laws;
mod mark;
mod mark_place;
mod picking;
mod reading;
mod recent;
mod refusal;
mod request;
mod request_line;
mod requests;
mod room;
mod row;
mod tally;
mod trace_part;

pub use client_lines::count_marks;
pub use client_reading::read_clients;
pub use clients::ClientRequests;
pub use divided::{Divided, divide, has_mark};
pub use reading::read_requests;
pub use refusal::RequestRefusal;
pub use request::Request;
pub use requests::Requests;
pub use text_lines::{Line, Lines};
pub use trace_part::{TracePlace, find_trace};
