// The tokens of a text. A place is a byte's offset in the text, from 0.

/// What a token is.
#[derive(Clone, Copy)]
pub enum TokenKind {
    Word,
    Number,
    Sign,
}

/// A token: `size` bytes of the text, from `place` on.
#[derive(Clone, Copy)]
pub struct Token {
    pub kind: TokenKind,
    pub place: u64,
    pub size: u64,
}

/// Why no token stands at a place.
#[derive(Clone, Copy)]
pub enum LexKind {
    /// A byte that is no white space and begins no token.
    BadByte,
    /// A word of more than 64 bytes, a word that begins with a digit, or a lone `&` or `|`.
    BadToken,
    /// A number of more than 2^127 - 1.
    WideNumber,
}

/// The first place at which no token stands, and why.
#[derive(Clone, Copy)]
pub struct LexFault {
    pub kind: LexKind,
    pub place: u64,
}
