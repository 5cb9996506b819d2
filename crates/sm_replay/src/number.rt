// Whole numbers in inputs.
ghost use Rattle.std.specs.Prelude.{◌≡◌};
ghost use Rattle.std.specs.Fmt.{signed_decimal};
ghost use Rattle.std.specs.Str.{bytes_eq};
ghost use Rattle.serde_json.specs.View.{view};
ghost use Rattle.sm_replay.specs.Number.{number_of_text, json_number};

use itoa::Buffer;
use serde_json::Value;

/// The number of 128 bits whose decimal text this is.
pub fn number_of_text(text: &str) -> Option<i128>
    ensures { result ≡ number_of_text text.now }
{
    let Ok(z) = text.parse::<i128>() else {
        return None;
    };
    if is_text_of(z, text) { Some(z) } else { None }
}

// Whether a text is the decimal text of a number.
fn is_text_of(z: i128, text: &str) -> bool
    ensures { result ≡ bytes_eq (signed_decimal z) text.now }
{
    Buffer::new().format(z) == text
}

/// The number that a value of JSON gives: an integer of 64 bits, or a text.
pub fn number_of(value: &Value) -> Option<i128>
    ensures { result ≡ json_number (view value.now) }
{
    match value.as_u64() {
        Some(n) => Some(i128::from(n)),
        None => match value.as_i64() {
            Some(z) => Some(i128::from(z)),
            None => match value.as_str() {
                Some(text) => number_of_text(text),
                None => None,
            },
        },
    }
}
