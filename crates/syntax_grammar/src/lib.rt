//! The grammar of the handler language: phrases with their words and their trees, the limits, and
//! the first fault of a list of words. These are definitions with their lemmas; beside them stands
//! what is told of a word alone.
//!
//! Tokens of the handler language, and the words that the parser reads.
#![tactic(auto)]

mod keyword;
mod reader;
mod refusals;
mod scan;
mod sorts;
mod token;
mod token_kind;
mod tokens;
mod turns;
mod word;
mod words;

pub use reader::Reader;
pub use refusals::{SyntaxRefusal, refusal};
pub use sorts::{Start, comparison, operation, statement_start, table_kind};
pub use token::Token;
pub use token_kind::TokenKind;
pub use tokens::Tokens;
pub use turns::Turns;
pub use word::{Sort, Word};
