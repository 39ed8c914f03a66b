//! What a lexer hands to a reader.

/// A token: which terminal it is, and where its text is.
#[derive(Clone, Copy, Debug, PartialEq, Eq)]
pub struct Token {
    /// The terminal, by its number in the grammar.
    pub kind: u16,
    /// The lexer's number for the token's text. A grammar does not look at it.
    pub place: u32,
}
