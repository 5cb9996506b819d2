// What may stand at a place of a text.
ghost use Rattle.std.specs.Prelude.{◌≡◌};
ghost use Rattle.sm_text.specs.printing.Pieces.{spelling};
ghost use Rattle.sm_follow.specs.Kinds.{sample, shown};

use sm_syntax::Mark;

/// What may stand at a place of a text.
#[derive(Clone, Copy, PartialEq, Eq)]
pub enum Kind {
    /// A reserved word or a sign.
    Mark(Mark),
    Name,
    Number,
    /// The end of the text.
    End,
}

/// The word by which it is shown.
pub(crate) fn shown(kind: Kind) -> &'static str
    ensures { result.now ≡ shown kind }
{
    match kind {
        Kind::Mark(mark) => spelling(mark),
        Kind::Name => "name",
        Kind::Number => "number",
        Kind::End => "end",
    }
}

/// A token of its kind, none for the end.
pub(crate) fn sample(kind: Kind) -> &'static str
    ensures { result.now ≡ sample kind }
{
    match kind {
        Kind::Mark(mark) => spelling(mark),
        Kind::Name => "x",
        Kind::Number => "1",
        Kind::End => "",
    }
}

// The reserved word or the sign that a mark stands for.
fn spelling(mark: Mark) -> &'static str
    ensures { result.now ≡ spelling mark }
{
    match mark {
        Mark::Var => "var",
        Mark::Array => "array",
        Mark::Output => "output",
        Mark::Shared => "shared",
        Mark::Base => "base",
        Mark::VariantA => "variant_a",
        Mark::VariantB => "variant_b",
        Mark::Candidate => "candidate",
        Mark::Skip => "skip",
        Mark::If => "if",
        Mark::Else => "else",
        Mark::While => "while",
        Mark::True => "true",
        Mark::False => "false",
        Mark::Assume => "assume",
        Mark::OpenRound => "(",
        Mark::CloseRound => ")",
        Mark::OpenCurly => "{",
        Mark::CloseCurly => "}",
        Mark::OpenSquare => "[",
        Mark::CloseSquare => "]",
        Mark::Semicolon => ";",
        Mark::Comma => ",",
        Mark::Question => "?",
        Mark::Becomes => "=",
        Mark::Plus => "+",
        Mark::Minus => "-",
        Mark::Star => "*",
        Mark::Bang => "!",
        Mark::Less => "<",
        Mark::Greater => ">",
        Mark::Equal => "==",
        Mark::Unequal => "!=",
        Mark::AtMost => "<=",
        Mark::AtLeast => ">=",
        Mark::Both => "&&",
        Mark::Either => "||",
    }
}

/// All of them, in the order in which they are shown.
pub(crate) const KINDS: [Kind; 40] = [
    Kind::Name,
    Kind::Number,
    Kind::Mark(Mark::Var),
    Kind::Mark(Mark::Array),
    Kind::Mark(Mark::Output),
    Kind::Mark(Mark::Assume),
    Kind::Mark(Mark::Shared),
    Kind::Mark(Mark::Base),
    Kind::Mark(Mark::VariantA),
    Kind::Mark(Mark::VariantB),
    Kind::Mark(Mark::Candidate),
    Kind::Mark(Mark::Skip),
    Kind::Mark(Mark::If),
    Kind::Mark(Mark::Else),
    Kind::Mark(Mark::While),
    Kind::Mark(Mark::True),
    Kind::Mark(Mark::False),
    Kind::Mark(Mark::Question),
    Kind::Mark(Mark::OpenRound),
    Kind::Mark(Mark::CloseRound),
    Kind::Mark(Mark::OpenSquare),
    Kind::Mark(Mark::CloseSquare),
    Kind::Mark(Mark::OpenCurly),
    Kind::Mark(Mark::CloseCurly),
    Kind::Mark(Mark::Semicolon),
    Kind::Mark(Mark::Comma),
    Kind::Mark(Mark::Becomes),
    Kind::Mark(Mark::Plus),
    Kind::Mark(Mark::Minus),
    Kind::Mark(Mark::Star),
    Kind::Mark(Mark::Equal),
    Kind::Mark(Mark::Unequal),
    Kind::Mark(Mark::Less),
    Kind::Mark(Mark::AtMost),
    Kind::Mark(Mark::Greater),
    Kind::Mark(Mark::AtLeast),
    Kind::Mark(Mark::Bang),
    Kind::Mark(Mark::Both),
    Kind::Mark(Mark::Either),
    Kind::End,
];
