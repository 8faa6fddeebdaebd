//! The top call: the words of a command line and an input in, the command's text out: handlers as
//! they are printed, replies, final tables, events, a verdict, or the summary of a generated
//! workload.
#![tactic(auto)]

mod asked;
mod counting;
mod final_tables;
mod gathering;
mod lines;
mod outcome;
mod served;
mod serving;
mod sessions;
mod top;
mod working;
mod writing;

pub use outcome::Outcome;
pub use serve_single::{
    Fault, Got, MemorySink, MemorySource, Put, Sink, Source, Status, SureSink, SureSource, audit,
    describe, ended, ranges, tell,
};
pub use top::{exit_number, run};
