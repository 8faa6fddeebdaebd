//! What is advised at the place of a refusal: the word that was found there, the words that could
//! stand there by the grammar, and the language's other way where it has one. A class of words is
//! listed if and only if some text of the grammar begins with the words before the place and goes
//! on with one of that class. Nothing is advised exactly if no word is at the place, or the words
//! before it begin no text. The JSON has the lines of that text. That an advice is UTF-8, and that
//! a hint suits its mistake, is tested.
#![tactic(auto)]

mod advice;
mod advising;
mod around;
mod class;
mod explaining;
mod expression_rows;
mod grammar_advice;
mod heads;
mod hint;
mod json;
pub mod laws;
mod line_advice;
mod names;
mod no_value;
mod part;
mod rows;
mod scope;
mod sentence;
mod statement_rows;
mod stop;
mod taking;
mod token;
mod walk;
mod word_advice;
mod word_rows;

pub use class::Class;
pub use explaining::{Form, explain};
pub use stop::Stop;
pub use walk::stop_at;
