//! The streams of a program as sources and sinks: readers, files that are opened by name, and
//! writers of std, each read and each write tried again where a signal interrupts it; and the words
//! of the command line. What is left of a source is the reader's rest, what a sink holds the
//! writer's contents, and each call that fails counts as one fault. A read of a file or a reader that
//! fails is never told as its end. That a call fails only if std's did is tested and in no clause,
//! since std's own clauses let any call fail. A program's own streams say nothing of their bytes.
#![tactic(auto)]

mod command_words;
mod file_input;
mod input;
mod opens_files;
mod output;
#[cfg(test)]
mod tests;
mod tries;

pub use command_words::{text_words, words};
pub use file_input::FileInput;
pub use input::Input;
pub use opens_files::{Opened, OpensFiles};
pub use output::Output;
