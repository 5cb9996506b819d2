// The numbers that words spell.
ghost use Rattle.std.specs.Prelude.{◌≡◌, ◌≢◌, ◌<◌, ◌^◌, ◌∷◌, length, slice_index};
ghost use Rattle.sm_proof.specs.Numbers.{literal_in, number_in};

/// The number, at most `most`, whose decimal text a word is.
pub(crate) fn number_in(word: &[u8], most: u64) -> Option<u64>
    ensures { result ≡ number_in most word.now }
{
    let n = magnitude(word)?;
    if n <= u128::from(most) {
        Some(n as u64)
    } else {
        None
    }
}

/// The number of 128 bits whose decimal text a word is.
pub(crate) fn literal_in(word: &[u8]) -> Option<i128>
    ensures { result ≡ literal_in word.now }
{
    if !word.is_empty() && word[0] == b'-' {
        negative(&word[1..])
    } else {
        positive(word)
    }
}

// A literal without a sign.
fn positive(word: &[u8]) -> Option<i128>
    requires { slice_index word.now 0 ≢ 45 }
    ensures { result ≡ literal_in word.now }
{
    let n = magnitude(word)?;
    if n < HALF { Some(n as i128) } else { None }
}

// A literal whose digits are behind a sign.
fn negative(digits: &[u8]) -> Option<i128>
    ensures { result ≡ literal_in (45 ∷ digits.now) }
{
    let n = magnitude(digits)?;
    if n == 0 {
        None
    } else {
        Some(-1 - (n - 1) as i128)
    }
}

// 2^127
const HALF: u128 = 0x8000_0000_0000_0000_0000_0000_0000_0000;

// The number, at most 2^127, whose decimal text a word is.
fn magnitude(word: &[u8]) -> Option<u128>
    ensures { result ≡ number_in (2 ^ 127) word.now }
{
    if word.is_empty() {
        return None;
    }
    if word[0] == b'0' && word.len() > 1 {
        return None;
    }
    value_of(word)
}

// The number that a word without a leading 0 spells, if it is at most 2^127.
fn value_of(word: &[u8]) -> Option<u128>
    requires some { 0 < length word.now }
    requires lead { slice_index word.now 0 ≡ 48 → length word.now ≡ 1 }
    ensures { result ≡ number_in (2 ^ 127) word.now }
{
    let mut value: u128 = 0;
    for digit in word {
        if !digit.is_ascii_digit() {
            return None;
        }
        let unit = u128::from(*digit - b'0');
        if value > (HALF - unit) / 10 {
            return None;
        }
        value = 10 * value + unit;
    }
    Some(value)
}
