//! The calls that read a number: decimal digits, with no sign and no leading zero.
ghost use Rattle.std.specs.Prelude.{◌≡◌, ℕ, ◌<◌, ◌^◌, List, Ok, IfOk, IfErr, IfSome, IfNone, decimal};
ghost use Rattle.rbg_wire.specs.Messages.{most_pair_digits};
ghost use Rattle.rbg_wire.specs.Words.{BeginsWithNumber};

use crate::WireError;
use crate::bytes::cut_at;
use rbg_base::number_of_decimal;

/// The maximum number of digits of a vertex or a position in a message.
const MAX_PAIR_DIGITS: usize = 9;

/// The number whose decimal form is the whole text: `0`, or a digit 1 to 9 followed by digits.
///
/// Returns `Malformed` if the text is not the decimal form of a number below 2^64.
pub fn read_number(text: &[u8]) -> Result<u64, WireError>
    // A number that is returned has the text as its decimal form.
    ensures found { IfOk result (λ n. text.now ≡ decimal n) }
    // If the text is the decimal form of a number, that number is returned.
    ensures only { (n : ℕ) → n < 2 ^ 64 → text.now ≡ decimal n → result ≡ Ok n }
    ensures err { IfErr result (λ e. e ≡ WireError.Malformed) }
{
    number_of_decimal(text).ok_or(WireError::Malformed)
}

/// A number with a space after it, and the text after that.
pub fn cut_number(text: &[u8]) -> Option<(u64, &[u8])>
    ensures found { IfSome result (λ parts. BeginsWithNumber text.now parts.0 parts.1.now) }
    ensures none { IfNone result ((number : ℕ) (rest : List ℕ)
        → BeginsWithNumber text.now number rest
        → ⊥) }
{
    let (digits, rest) = cut_at(b' ', text)?;
    let number = number_of_decimal(digits)?;
    Some((number, rest))
}

/// A vertex or a position: a number of at most nine digits.
pub(crate) fn short_number(text: &[u8]) -> Option<u32>
    ensures found { IfSome result (λ n. (n < 10 ^ most_pair_digits) × (text.now ≡ decimal n)) }
    ensures none { IfNone result ((n : ℕ) → n < 10 ^ most_pair_digits → text.now ≡ decimal n → ⊥) }
{
    if text.len() > MAX_PAIR_DIGITS {
        return None;
    }
    let found = number_of_decimal(text)?;
    Some(found as u32)
}
