//! What is read by lines: classes of bytes, the lines of a text, the words of a line, and the
//! values that words are. What is written as words on lines reads back. Line feeds are found by
//! `memchr`, words byte by byte, since most words are short.
#![tactic(auto)]

mod bytes;
pub mod laws;
mod line;
mod lines;
mod scan;
mod word_value;

pub use bytes::{is_blank, is_symbol_byte};
pub use line::Line;
pub use lines::Lines;
pub use scan::line_len;
pub use word_value::{first_byte, is_symbol, number, value};
