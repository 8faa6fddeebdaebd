//! A script whose tickets each call one operation a number of times, and how they are served. Tests
//! of halls and `bench/hall.sh` use it in place of handlers.
#![tactic(auto)]

mod list;
mod script;
mod serving;

pub use list::RepeatedCalls;
pub use script::RepeatedScript;
