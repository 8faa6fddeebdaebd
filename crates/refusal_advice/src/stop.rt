// The place of a refusal among the words of a text.

use crate::class::Class;
use syntax_grammar::{Sort, Word};

/// The word at a place, the one before it, and the classes of the words that could stand there.
#[derive(Drop)]
pub struct Stop {
    /// The word that was found, which is `End` behind all others.
    pub word: Word,
    /// The word before it; none at the front.
    pub last: Option<Sort>,
    /// What could stand there by the grammar, in the order of `Class::ALL`.
    pub wanted: Vec<Class>,
}
