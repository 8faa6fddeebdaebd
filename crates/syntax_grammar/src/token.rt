// A token.

use crate::token_kind::TokenKind;

/// A slice of its source, with the byte places of its ends there.
#[derive(Clone, Copy, Debug)]
pub struct Token<'a> {
    pub kind: TokenKind,
    pub text: &'a str,
    pub start: u32,
    pub end: u32,
}
