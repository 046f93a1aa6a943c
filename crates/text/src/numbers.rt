//! Reads numbers: an optional `-` and one or more decimal digits, or two hexadecimal digits for a byte.

ghost use Rattle.std.specs.Prelude.{◌≡◌, ◌≤◌, ◌<◌, IfOk};
ghost use Rattle.std.specs.List.{list_all};
ghost use Rattle.std.specs.Char.{is_ascii_digit};
ghost use Rattle.text.specs.Numbers.{byte_in as byte_in_of, hex_digit as hex_digit_of, integer as integer_of, is_numeral, number_in as number_in_of};

use crate::fault::Reason;
use posix::decimal_value;

/// Returns true if all bytes are decimal digits.
fn has_digits_alone(text: &[u8]) -> bool
    ensures { result ≡ list_all is_ascii_digit text.now }
{
    text.iter().all(|b| b.is_ascii_digit())
}

/// Returns true if these are one or more decimal digits.
pub fn are_digits(text: &[u8]) -> bool
    ensures { result ≡ is_numeral text.now }
{
    !text.is_empty() && has_digits_alone(text)
}

/// Returns the number in a word. A word that is not a number is `BadNumber`, and a number outside i64 is `OutOfRange`.
#[tactic(auto, unfolding(posix::specs::Decimals::decimal_value))]
pub fn integer(word: &[u8]) -> Result<i64, Reason>
    ensures { result ≡ integer_of word.now }
{
    let negative = !word.is_empty() && word[0] == b'-';
    let digits = if negative { &word[1..] } else { word };
    if !are_digits(digits) {
        return Err(Reason::BadNumber);
    }
    let magnitude = decimal_value(digits);
    match i64::try_from(magnitude) {
        Ok(value) => Ok(if negative { -value } else { value }),
        Err(_) if negative && magnitude == i64::MIN.unsigned_abs() => Ok(i64::MIN),
        Err(_) => Err(Reason::OutOfRange),
    }
}

/// Returns the number from `low` to `high` in a word. A word that is not a number is `BadNumber`, and any other number
/// is `OutOfRange`.
pub fn number_in(low: u32, high: u32, word: &[u8]) -> Result<u32, Reason>
    ensures value { result ≡ number_in_of low high word.now }
    ensures range { IfOk result (λ n. (low ≤ n) × (n ≤ high)) }
{
    let value = integer(word)?;
    if value < i64::from(low) || value > i64::from(high) {
        return Err(Reason::OutOfRange);
    }
    u32::try_from(value).map_err(|_| Reason::OutOfRange)
}

/// Returns the value of a hexadecimal digit in either case. Any other byte is `BadNumber`.
fn hex_digit(byte: u8) -> Result<u32, Reason>
    ensures value { result ≡ hex_digit_of byte }
    ensures range { IfOk result (λ n. n < 16) }
{
    char::from(byte).to_digit(16).ok_or(Reason::BadNumber)
}

/// Returns the byte in a word. A word that is not two hexadecimal digits is `BadNumber`.
pub fn byte_in(word: &[u8]) -> Result<u8, Reason>
    ensures { result ≡ byte_in_of word.now }
{
    match word {
        [high, low] => Ok((hex_digit(*high)? * 16 + hex_digit(*low)?) as u8),
        _ => Err(Reason::BadNumber),
    }
}
