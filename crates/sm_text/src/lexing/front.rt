// What stands at the front of a text.
ghost use Rattle.std.specs.Prelude.{◌≡◌, true, ◌<◌, ◌^◌, length, nat_lt, pos, Some, None, if◌then◌else◌};
ghost use Rattle.std.specs.Char.{is_ascii_digit};
ghost use Rattle.std.specs.List.{prefix_len, AllPass};
ghost use Rattle.std.specs.Str.Parse.{digits_value};
ghost use Rattle.sm_syntax.specs.text.Tokens as spec;
ghost use Rattle.sm_text.specs.lexing.Front.{seen};

use crate::lexing::marks::mark_of_sign;
use sm_syntax::{LexKind, TokenKind};

/// What stands at the front of a text, with its size in bytes.
pub(crate) enum Front {
    /// White space or a comment.
    Gap(usize),
    Piece(TokenKind, usize),
    Fault(LexKind),
}

/// What stands at the front of a text whose first byte is `first`.
#[tactic(auto, unfolding(sm_syntax::specs::text::Tokens::front_of))]
pub(crate) fn front_of(first: u8, bytes: &[u8]) -> Front
    requires { 0 < length bytes.now }
    ensures { seen result ≡ spec.front_of first bytes.now }
{
    if is_space(first) {
        Front::Gap(1)
    } else if first == b'#' {
        Front::Gap(line_size(bytes))
    } else if is_word_start(first) {
        word_at(bytes)
    } else if first.is_ascii_digit() {
        number_at(bytes)
    } else {
        sign_at(bytes)
    }
}

#[tactic(auto, unfolding(sm_syntax::specs::text::Tokens::word_at))]
fn word_at(bytes: &[u8]) -> Front
    ensures { seen result ≡ spec.word_at bytes.now }
{
    let size = word_size(bytes);
    if size <= 64 {
        Front::Piece(TokenKind::Word, size)
    } else {
        Front::Fault(LexKind::BadToken)
    }
}

#[tactic(auto, unfolding(sm_syntax::specs::text::Tokens::number_at))]
fn number_at(bytes: &[u8]) -> Front
    ensures { seen result ≡ spec.number_at bytes.now }
{
    let size = digits_size(bytes);
    if word_size(bytes) != size {
        return Front::Fault(LexKind::BadToken);
    }
    match value_of(&bytes[..size]) {
        Some(_) => Front::Piece(TokenKind::Number, size),
        None => Front::Fault(LexKind::WideNumber),
    }
}

#[tactic(auto, unfolding(sm_syntax::specs::text::Tokens::sign_at))]
fn sign_at(bytes: &[u8]) -> Front
    requires { 0 < length bytes.now }
    ensures { seen result ≡ spec.sign_at bytes.now }
{
    if bytes.len() >= 2 && mark_of_sign(&bytes[..2]).is_some() {
        return Front::Piece(TokenKind::Sign, 2);
    }
    let first = &bytes[..1];
    if mark_of_sign(first).is_some() {
        return Front::Piece(TokenKind::Sign, 1);
    }
    match first {
        b"&" | b"|" => Front::Fault(LexKind::BadToken),
        _ => Front::Fault(LexKind::BadByte),
    }
}

/// The number that digits write, if it is at most 2^127 - 1.
pub(crate) fn value_of(digits: &[u8]) -> Option<i128>
    requires { AllPass is_ascii_digit digits.now }
    ensures { let value = digits_value 10 digits.now in
        result ≡ (if nat_lt value (2 ^ 127) then Some (pos value) else None) }
{
    let mut value: u128 = 0;
    for digit in digits {
        let unit = u128::from(*digit - b'0');
        if value > (MOST - unit) / 10 {
            return None;
        }
        value = 10 * value + unit;
    }
    Some(value as i128)
}

// the greatest number of a text
const MOST: u128 = 0x7fff_ffff_ffff_ffff_ffff_ffff_ffff_ffff;

fn line_size(bytes: &[u8]) -> usize
    ensures { result ≡ prefix_len spec.is_in_line bytes.now }
{
    bytes.iter().take_while(|b| **b != b'\n').count()
}

fn word_size(bytes: &[u8]) -> usize
    ensures { result ≡ prefix_len spec.is_word_byte bytes.now }
{
    bytes.iter().take_while(|b| is_word_byte(**b)).count()
}

fn digits_size(bytes: &[u8]) -> usize
    ensures { result ≡ prefix_len is_ascii_digit bytes.now }
{
    bytes.iter().take_while(|b| b.is_ascii_digit()).count()
}

fn is_space(b: u8) -> bool
    ensures { result ≡ spec.is_space b }
{
    b == b' ' || b == b'\t' || b == b'\n' || b == b'\r'
}

fn is_word_start(b: u8) -> bool
    ensures { result ≡ spec.is_word_start b }
{
    b.is_ascii_alphabetic() || b == b'_'
}

fn is_word_byte(b: u8) -> bool
    ensures { result ≡ spec.is_word_byte b }
{
    b.is_ascii_alphanumeric() || b == b'_'
}
