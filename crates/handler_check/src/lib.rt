//! The checker of the handler language.
//!
//! The rules of the checker on names, arguments and numbers, and the first place where a file of
//! handlers breaks one.
#![tactic(auto)]

mod accepted;
mod bounds;
mod checked;
mod excess;
mod faults;
pub mod laws;
mod looking;
mod refusal;
mod resolution;
pub mod rule_laws;
mod work;

pub use accepted::{Accepted, accept};
pub use checked::{Checked, check};
pub use refusal::CheckRefusal;
