//! The number of `make`.
ghost use Rattle.std.specs.Prelude.{◌≡◌, Some, true};
ghost use Rattle.std.specs.Str.{all_ascii_digits};
ghost use Rattle.std.specs.Str.Parse.{digits_value};
ghost use Rattle.ml_words.specs.Forms.{is_decimal, made_number, within_limits};

use crate::limits::{MAX_MADE_DIGITS, MAX_MADE_FACTS};

/// The number that a text is for `make`: 1 to 5 decimal digits, from 1 to 20,000.
pub fn made_number(text: &str) -> Option<u32>
    ensures { result ≡ made_number text.now }
{
    if is_decimal(text) {
        within_limits(value_of(text)?)
    } else {
        None
    }
}

// Whether the text has 1 to 5 bytes, which are decimal digits.
fn is_decimal(text: &str) -> bool
    ensures { result ≡ is_decimal text.now }
{
    let digits = text.as_bytes();
    1 <= digits.len() && digits.len() <= MAX_MADE_DIGITS && are_digits(digits)
}

// Whether all bytes are decimal digits.
fn are_digits(bytes: &[u8]) -> bool
    ensures { result ≡ all_ascii_digits bytes.now }
{
    match bytes.split_first() {
        None => true,
        Some((byte, rest)) => byte.is_ascii_digit() && are_digits(rest),
    }
}

// The number that these digits spell.
fn value_of(digits: &str) -> Option<u32>
    requires { is_decimal digits.now ≡ true }
    ensures { result ≡ Some (digits_value 10 digits.now) }
{
    digits.parse::<u32>().ok()
}

// The number, if it is neither too small nor too large.
fn within_limits(number: u32) -> Option<u32>
    ensures { result ≡ within_limits number }
{
    if 1 <= number && number <= MAX_MADE_FACTS {
        Some(number)
    } else {
        None
    }
}
