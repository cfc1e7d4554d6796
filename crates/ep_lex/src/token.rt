//! Tokens, and the pieces that a text is made of.

/// A word is a letter or `_` and then letters, digits and `_`, at most 64 bytes; a number is 1 to 9 digits; the marks are
/// `:=`, `->` and the bytes of `{}(),;:<=`.
#[derive(Clone, Copy, Debug, PartialEq, Eq)]
pub enum TokenKind {
    Word,
    Number,
    Mark,
}

/// A token of a text. `start` and `len` count bytes, and `len` is from 1 to 64. `line` is 1 plus the number of line feeds
/// before the first byte.
#[derive(Clone, Copy, Debug, PartialEq, Eq)]
pub struct Token {
    pub kind: TokenKind,
    pub start: u32,
    pub len: u32,
    pub line: u32,
}

/// What a piece of a text is: one blank, a comment from `#` to before the next line feed or the end, or the spelling of a
/// token.
#[derive(Clone, Copy, Debug, PartialEq, Eq)]
pub enum PieceKind {
    Blank,
    Comment,
    Spelling(TokenKind),
}
