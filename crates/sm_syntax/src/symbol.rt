// The symbols of a text: what the grammar sees of a token.
use crate::tree::Name;

/// A reserved word or a sign.
#[derive(Clone, Copy, PartialEq, Eq)]
pub enum Mark {
    Var,
    Array,
    Output,
    Shared,
    Base,
    VariantA,
    VariantB,
    Candidate,
    Skip,
    If,
    Else,
    While,
    True,
    False,
    Assume,
    OpenRound,
    CloseRound,
    OpenCurly,
    CloseCurly,
    OpenSquare,
    CloseSquare,
    Semicolon,
    Comma,
    Question,
    Becomes,
    Plus,
    Minus,
    Star,
    Bang,
    Less,
    Greater,
    Equal,
    Unequal,
    AtMost,
    AtLeast,
    Both,
    Either,
}

/// A reserved word or a sign, a number by its value, or a name by its number.
#[derive(Clone, Copy, PartialEq, Eq)]
pub enum Symbol {
    Mark(Mark),
    Number(i128),
    Name(Name),
}
