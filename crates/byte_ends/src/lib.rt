//! Where bytes come from and where they go: sources and sinks, those in memory, and how all bytes
//! are read and written.
//!
//! Short lines that take no memory: messages and summaries. Each has at most 256 bytes.
#![tactic(auto)]

mod calls;
mod memory_sink;
mod memory_source;
mod page_writer;
mod reading;
mod short_texts;
mod sink;
mod source;
mod sure_sink;
mod sure_source;
mod text_buffer;
mod text_sink;
mod write_buffer;
mod writing;

pub use memory_sink::MemorySink;
pub use memory_source::MemorySource;
pub use page_writer::write_text;
pub use reading::{Unread, read_all, read_up_to};
pub use short_texts::{ShortText, push_number, short_text};
pub use sink::{Put, Sink};
pub use source::{Got, Source};
pub use sure_sink::SureSink;
pub use sure_source::SureSource;
pub use text_buffer::text_in_memory;
pub use text_sink::{PutsText, TextSink};
pub use write_buffer::WriteBuffer;
pub use writing::write_all;
