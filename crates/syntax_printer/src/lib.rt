//! The canonical text of a file of handlers. `put_canonical` and `put_with_declarations` put it at
//! a sink of texts piece by piece, and take no memory; `print` and `print_with_declarations` make
//! it in memory.
#![tactic(auto)]

mod countable;
mod declarations;
mod expr;
mod file;
mod line;
mod nested;
mod piece;
mod point;
mod spot;
mod stmt;

pub use countable::is_countable;
pub use declarations::Declarations;
pub use file::{print, print_with_declarations, put_canonical, put_with_declarations};
