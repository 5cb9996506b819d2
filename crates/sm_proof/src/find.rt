// The kinds that words name.
ghost use Rattle.std.specs.Prelude.{◌≡◌};
ghost use Rattle.sm_proof.specs.HeadWords.{form_kind_of, head_of, term_kind_of};
ghost use Rattle.sm_proof.specs.Likely as likely;

use crate::kind::{FormKind, TermKind};
use crate::word::Head;

/// The kind with a first word.
pub(crate) fn head_of(word: &[u8]) -> Option<Head>
    ensures { result ≡ head_of word.now }
{
    let head = likely_head(word)?;
    if head.word().as_bytes() == word {
        Some(head)
    } else {
        None
    }
}

/// The kind of a term's line with a second word.
pub(crate) fn term_kind_of(word: &[u8]) -> Option<TermKind>
    ensures { result ≡ term_kind_of word.now }
{
    let kind = likely_term(word)?;
    if kind.word().as_bytes() == word {
        Some(kind)
    } else {
        None
    }
}

/// The kind of a formula's line with a second word.
pub(crate) fn form_kind_of(word: &[u8]) -> Option<FormKind>
    ensures { result ≡ form_kind_of word.now }
{
    let kind = likely_form(word)?;
    if kind.word().as_bytes() == word {
        Some(kind)
    } else {
        None
    }
}

// The one kind that a first word may name, by its length and its letters.
#[tactic(auto, unfolding(crate::specs::Likely::likely_head))]
fn likely_head(word: &[u8]) -> Option<Head>
    ensures { result ≡ likely.likely_head word.now }
{
    match word.len() {
        1 => head_of_one(word[0]),
        3 => head_of_three(word[0]),
        4 => head_of_four(word[0], word[1]),
        5 => head_of_five(word[0], word[2]),
        6 => Some(Head::Either),
        _ => None,
    }
}

#[tactic(auto, unfolding(crate::specs::Likely::head_of_one))]
fn head_of_one(first: u8) -> Option<Head>
    ensures { result ≡ likely.head_of_one first }
{
    match first {
        b't' => Some(Head::T),
        b'p' => Some(Head::P),
        _ => None,
    }
}

#[tactic(auto, unfolding(crate::specs::Likely::head_of_three))]
fn head_of_three(first: u8) -> Option<Head>
    ensures { result ≡ likely.head_of_three first }
{
    match first {
        b'a' => Some(Head::Abs),
        b'e' => Some(Head::End),
        b'h' => Some(Head::Hit),
        b'l' => Some(Head::Lin),
        b's' => Some(Head::Sym),
        _ => None,
    }
}

#[tactic(auto, unfolding(crate::specs::Likely::head_of_four))]
fn head_of_four(first: u8, second: u8) -> Option<Head>
    ensures { result ≡ likely.head_of_four first second }
{
    match first {
        b'b' => Some(Head::Both),
        b'c' => Some(Head::Cong),
        b'd' => Some(Head::Dead),
        b'e' => Some(Head::Elim),
        b'f' => Some(Head::Fork),
        b'l' => Some(Head::Loop),
        b'm' => Some(Head::Miss),
        b'r' => Some(Head::Refl),
        _ => Some(if second == b't' {
            Head::Step
        } else {
            Head::Same
        }),
    }
}

#[tactic(auto, unfolding(crate::specs::Likely::head_of_five))]
fn head_of_five(first: u8, third: u8) -> Option<Head>
    ensures { result ≡ likely.head_of_five first third }
{
    match first {
        b'a' => Some(Head::Apart),
        b'b' => Some(Head::Block),
        b'c' => Some(head_of_c(third)),
        b'e' => Some(Head::Exact),
        b'o' => Some(Head::Order),
        b's' => Some(Head::Subst),
        _ => Some(if third == b'a' {
            Head::Trans
        } else {
            Head::Tight
        }),
    }
}

#[tactic(auto, unfolding(crate::specs::Likely::head_of_c))]
fn head_of_c(third: u8) -> Head
    ensures { result ≡ likely.head_of_c third }
{
    match third {
        b's' => Head::Cases,
        b'o' => Head::Close,
        _ => Head::Clash,
    }
}

// The one kind that the second word of a term's line may name.
#[tactic(auto, unfolding(crate::specs::Likely::likely_term))]
fn likely_term(word: &[u8]) -> Option<TermKind>
    ensures { result ≡ likely.likely_term word.now }
{
    match word.len() {
        2 => Some(TermKind::Of),
        3 => term_of_three(word[0], word[1]),
        4 => term_of_four(word[0]),
        5 => Some(if word[0] == b's' {
            TermKind::Start
        } else {
            TermKind::Write
        }),
        _ => None,
    }
}

#[tactic(auto, unfolding(crate::specs::Likely::term_of_three))]
fn term_of_three(first: u8, second: u8) -> Option<TermKind>
    ensures { result ≡ likely.term_of_three first second }
{
    match first {
        b'a' => Some(if second == b'd' {
            TermKind::Add
        } else {
            TermKind::Arg
        }),
        b'c' => Some(TermKind::Cur),
        b'l' => Some(TermKind::Lit),
        b'm' => Some(TermKind::Mul),
        b'n' => Some(TermKind::Neg),
        _ => Some(TermKind::Sub),
    }
}

#[tactic(auto, unfolding(crate::specs::Likely::term_of_four))]
fn term_of_four(first: u8) -> Option<TermKind>
    ensures { result ≡ likely.term_of_four first }
{
    match first {
        b'c' => Some(TermKind::Cell),
        b'r' => Some(TermKind::Read),
        _ => Some(TermKind::Slot),
    }
}

// The one kind that the second word of a formula's line may name.
#[tactic(auto, unfolding(crate::specs::Likely::likely_form))]
fn likely_form(word: &[u8]) -> Option<FormKind>
    ensures { result ≡ likely.likely_form word.now }
{
    match word.len() {
        2 => form_of_two(word[0], word[1]),
        3 => Some(if word[0] == b'y' {
            FormKind::Yes
        } else {
            FormKind::And
        }),
        _ => None,
    }
}

#[tactic(auto, unfolding(crate::specs::Likely::form_of_two))]
fn form_of_two(first: u8, second: u8) -> Option<FormKind>
    ensures { result ≡ likely.form_of_two first second }
{
    match first {
        b'e' => Some(FormKind::Eq),
        b'l' => Some(if second == b'e' {
            FormKind::Le
        } else {
            FormKind::Lt
        }),
        b'n' => Some(if second == b'e' {
            FormKind::Ne
        } else {
            FormKind::No
        }),
        _ => Some(FormKind::Or),
    }
}
