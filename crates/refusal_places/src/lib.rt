//! From a refusal to its place: what the line of a refusal says, the table of rules with a sentence
//! for each, the line and the column of a byte of a file, and the text that shows it.
#![tactic(auto)]

mod answering;
mod finding;
pub mod laws;
mod number;
mod pieces;
mod placing;
mod reading;
mod refusal;
mod rule;
mod rule_table;
mod rule_text;
mod spot;

pub use answering::{answer, needs_file};
pub use finding::rule_of;
pub use pieces::push_place;
pub use placing::place_text;
pub use reading::refusal_of;
pub use refusal::{Place, Refusal};
pub use rule::{PlaceKind, Rule, Topic};
pub use rule_table::rules;
pub use rule_text::rules_text;
pub use spot::{Spot, byte_spot, column_of, line_spot};
