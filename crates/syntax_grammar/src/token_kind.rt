// Kinds of tokens.

/// What a token is, told from its text alone.
#[derive(Clone, Copy, Debug, PartialEq, Eq)]
pub enum TokenKind {
    Name,
    /// A reserved word.
    Key,
    Symbol,
    Number,
    Sign,
    /// A name or a symbol of more than 64 bytes.
    Long,
    /// One character that begins no token.
    Bad,
    /// The end of the source.
    End,
}
