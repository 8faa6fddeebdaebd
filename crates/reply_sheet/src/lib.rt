//! Reply lines: the text of one, those of a session, written to a sink, and the replies that wait
//! for their turn to be written.
//!
//! The replies of several clients as a text: for each client, in the order of its requests, a line
//! with the client, the ticket and the reply.
#![tactic(auto)]

mod arrival;
mod client_line;
mod clients;
pub mod laws;
mod line_buf;
mod pending;
mod ready;
mod replies;
mod reply_line;
mod text_room;

pub use arrival::Arrival;
pub use clients::write_clients;
pub use line_buf::LineBuf;
pub use pending::Pending;
pub use ready::write_ready;
pub use replies::write_replies;
pub use reply_line::{line, push_line};
pub use text_room::TextRoom;
