//! Whether operations commute, told by their kinds, tables, keys and values alone.
#![tactic(auto)]

mod against_symbol;
mod commuting;
mod kinds;
pub mod laws;
mod sums;
mod two_symbols;

pub use against_symbol::commute_symbol;
pub use commuting::commute;
pub use two_symbols::commute_symbols;
