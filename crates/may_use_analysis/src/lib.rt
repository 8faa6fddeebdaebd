//! The operations that may still come at each point of a handler.
#![tactic(auto)]

mod bounded;
mod handler;
mod heads;
mod kept;
mod later;
pub mod laws;
mod loop_parts;
mod ordered;
mod places;
mod recent;
mod refusal;
mod spread;
mod still;
mod stores;
mod vars;
mod walk;

pub use bounded::bound_later_sets;
pub use later::{Later, later_sets};
pub use refusal::AnalysisRefusal;
