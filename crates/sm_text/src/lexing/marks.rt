// The reserved words and the signs.
ghost use Rattle.std.specs.Prelude.{◌≡◌};
ghost use Rattle.sm_syntax.specs.text.Tokens as spec;

use sm_syntax::Mark;

/// The reserved word that a text is.
#[tactic(auto, unfolding(sm_syntax::specs::text::Tokens::mark_of_word, sm_syntax::specs::text::Tokens::reserved_words))]
pub(crate) fn mark_of_word(text: &str) -> Option<Mark>
    ensures { result ≡ spec.mark_of_word text.now }
{
    match text {
        "var" => Some(Mark::Var),
        "array" => Some(Mark::Array),
        "output" => Some(Mark::Output),
        "shared" => Some(Mark::Shared),
        "base" => Some(Mark::Base),
        "variant_a" => Some(Mark::VariantA),
        "variant_b" => Some(Mark::VariantB),
        "candidate" => Some(Mark::Candidate),
        "skip" => Some(Mark::Skip),
        "if" => Some(Mark::If),
        "else" => Some(Mark::Else),
        "while" => Some(Mark::While),
        "true" => Some(Mark::True),
        "false" => Some(Mark::False),
        "assume" => Some(Mark::Assume),
        _ => None,
    }
}

/// The sign that a text is.
#[tactic(auto, unfolding(sm_syntax::specs::text::Tokens::mark_of_sign, sm_syntax::specs::text::Tokens::signs))]
pub(crate) fn mark_of_sign(text: &[u8]) -> Option<Mark>
    ensures { result ≡ spec.mark_of_sign text.now }
{
    match text {
        b"(" => Some(Mark::OpenRound),
        b")" => Some(Mark::CloseRound),
        b"{" => Some(Mark::OpenCurly),
        b"}" => Some(Mark::CloseCurly),
        b"[" => Some(Mark::OpenSquare),
        b"]" => Some(Mark::CloseSquare),
        b";" => Some(Mark::Semicolon),
        b"," => Some(Mark::Comma),
        b"?" => Some(Mark::Question),
        b"=" => Some(Mark::Becomes),
        b"+" => Some(Mark::Plus),
        b"-" => Some(Mark::Minus),
        b"*" => Some(Mark::Star),
        b"!" => Some(Mark::Bang),
        b"<" => Some(Mark::Less),
        b">" => Some(Mark::Greater),
        b"==" => Some(Mark::Equal),
        b"!=" => Some(Mark::Unequal),
        b"<=" => Some(Mark::AtMost),
        b">=" => Some(Mark::AtLeast),
        b"&&" => Some(Mark::Both),
        b"||" => Some(Mark::Either),
        _ => None,
    }
}
