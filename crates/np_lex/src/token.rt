//! Tokens and their places.

/// A place in a text.
#[derive(Clone, Copy, Debug, PartialEq, Eq)]
pub struct Place {
    /// The number of bytes before it.
    pub offset: usize,
    /// The number of its line, from 1. A line ends at a line feed.
    pub line: usize,
    /// The number of its byte in the line, from 1.
    pub column: usize,
}

/// What a token is.
#[derive(Clone, Copy, Debug, PartialEq, Eq)]
pub enum Kind {
    /// `(`
    Left,
    /// `)`
    Right,
    /// A letter, then letters, digits, `-` and `_`.
    Name,
    /// `?` and a name.
    Variable,
    /// `:` and a name.
    Keyword,
    /// `:` with no letter after it.
    Colon,
    /// An optional `-`, digits, and an optional point and digits.
    Number,
    /// `<=`, `>=`, `<`, `>`, `=`, `+`, `*`, `/`, or `-` with no digit after it.
    Op,
}

/// A token of a text: its bytes are those from the offset `from` up to `to`.
#[derive(Clone, Copy, Debug, PartialEq, Eq)]
pub struct Token {
    /// What it is.
    pub kind: Kind,
    /// The offset of its first byte.
    pub from: usize,
    /// The offset after its last byte.
    pub to: usize,
    /// The place of its first byte.
    pub place: Place,
}

/// No token begins at this byte, and it is neither a blank nor in a comment.
#[derive(Clone, Copy, Debug, PartialEq, Eq)]
pub struct BadByte {
    /// The place of the byte.
    pub place: Place,
}
