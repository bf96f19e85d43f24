//! Numbers in decimal digits.
ghost use Rattle.std.specs.Prelude.{◌≡◌, ℕ, ◌<◌, ◌^◌, IfSome, IfNone, decimal};
ghost use Rattle.std.specs.Char.{is_ascii_digit};
ghost use Rattle.std.specs.List.{list_all};
ghost use Rattle.rbg_base.specs.Decimals.{number_of_digits};

use std::str;

/// The number that the text writes in decimal digits, with or without leading zeros.
///
/// Returns None if the text is empty, has a byte other than a digit, or writes 2^64 or more.
pub fn number_of_digits(text: &[u8]) -> Option<u64>
    ensures { result ≡ number_of_digits text.now }
{
    if !are_digits(text) {
        return None;
    }
    let text = str::from_utf8(text).ok()?;
    text.parse().ok()
}

fn are_digits(text: &[u8]) -> bool
    ensures { result ≡ list_all is_ascii_digit text.now }
{
    text.iter().all(|byte| byte.is_ascii_digit())
}

/// The number whose decimal form is the text: `0`, or a digit 1 to 9 followed by digits.
///
/// Returns None if the text is not the decimal form of a number below 2^64.
pub fn number_of_decimal(text: &[u8]) -> Option<u64>
    ensures found { IfSome result (λ n. (n < 2 ^ 64) × (text.now ≡ decimal n)) }
    ensures none { IfNone result ((n : ℕ) → n < 2 ^ 64 → text.now ≡ decimal n → ⊥) }
{
    if text.len() > 1 && text[0] == b'0' {
        return None;
    }
    number_of_digits(text)
}
