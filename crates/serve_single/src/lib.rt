//! Commands that one thread answers: handlers as they are printed, range sessions, verdicts over
//! traces, and a session file whose requests run one after another on tables that nobody else has.
//! It waits for nothing and needs no runtime.
#![tactic(auto)]

mod auditing;
mod checking;
mod ending;
mod opening;
mod over_bytes;
mod ranging;
mod running;
mod serving;
mod tables;
mod top;
mod writing;

pub use byte_ends::{Got, MemorySink, MemorySource, Put, Sink, Source, SureSink, SureSource};
pub use ending::{ended, tell};
pub use over_bytes::{audit_bytes, describe_bytes, ranges_bytes, serve_bytes};
pub use serve_faults::{Fault, Status};
pub use top::{audit, describe, dump_alone, ranges, serve_alone};
