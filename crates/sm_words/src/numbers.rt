// The rule for numbers among the words.
ghost use Rattle.std.specs.Prelude.{◌≡◌, ◌≤◌, ◌&&◌, true, nat_le, option_and_then, option_map, IfSome};
ghost use Rattle.std.specs.Str.{all_ascii_digits};
ghost use Rattle.std.specs.Str.Parse.{digits_value};
ghost use Rattle.sm_words.specs.Numbers.{is_number, number_or, spelled_number};

/// The number that a text spells, in its range; the default where there is none.
pub fn number_or(default: u64, least: u64, most: u64, text: Option<&str>) -> Option<u64>
    requires { (least ≤ default) × (default ≤ most) }
    ensures value { result ≡ number_or default least most (option_map (λ t. t.now) text.entry) }
    ensures range { IfSome result (λ n. (least ≤ n) × (n ≤ most)) }
{
    match text {
        Some(text) => number_of(least, most, text),
        None => Some(default),
    }
}

/// The number that a text spells, in its range; none where there is no text.
pub fn spelled(least: u64, most: u64, text: Option<&str>) -> Option<u64>
    ensures value { result
        ≡ option_and_then (spelled_number least most) (option_map (λ t. t.now) text.entry) }
    ensures range { IfSome result (λ n. (least ≤ n) × (n ≤ most)) }
{
    match text {
        Some(text) => number_of(least, most, text),
        None => None,
    }
}

// The number that a text spells, in its range.
fn number_of(least: u64, most: u64, text: &str) -> Option<u64>
    ensures value { result ≡ spelled_number least most text.now }
    ensures range { IfSome result (λ n. (least ≤ n) × (n ≤ most)) }
{
    if !is_number(text) {
        return None;
    }
    let n = value_of(text);
    if least <= n && n <= most {
        Some(n)
    } else {
        None
    }
}

// Whether the text is one to ten digits.
fn is_number(text: &str) -> bool
    ensures { result ≡ is_number text.now }
{
    has_digits(text) && has_few(text.len())
}

fn has_few(size: usize) -> bool
    ensures { result ≡ (nat_le 1 size && nat_le size 10) }
{
    1 <= size && size <= 10
}

fn has_digits(text: &str) -> bool
    ensures { result ≡ all_ascii_digits text.now }
{
    let bytes = text.as_bytes();
    for byte in bytes {
        if !byte.is_ascii_digit() {
            return false;
        }
    }
    true
}

// The value of one to ten digits.
fn value_of(text: &str) -> u64
    requires { is_number text.now ≡ true }
    ensures { result ≡ digits_value 10 text.now }
{
    match text.parse::<u64>() {
        Ok(n) => n,
        Err(_) => unreachable!(),
    }
}
