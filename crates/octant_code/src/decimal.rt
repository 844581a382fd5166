//! Decimal numbers.

ghost use Rattle.std.specs.Prelude.{◌≡◌, ◌<◌, ◌≤◌, ◌^◌, IfSome, None, Some, if◌then◌else◌, is_some, length, min};
ghost use Rattle.std.specs.Char.{digit_value, is_ascii_digit};
ghost use Rattle.std.specs.List.{list_all};
ghost use Rattle.std.specs.Str.Parse.{digits_value};
ghost use Rattle.octant_code.specs.Decimal.{decimal_read};

use thiserror::Error;

/// Why bytes are no number of a range.
#[derive(Clone, Copy, Debug, PartialEq, Eq, Error)]
pub enum NumberFault {
    /// There is no byte, or one is no digit 0 to 9.
    #[error("not a decimal number")]
    NotDigits,
    /// All are digits, and the number is above the greatest that is wanted.
    #[error("the number is too large")]
    TooLarge,
}

/// How many digits every 64-bit number has room for.
const SHORT: usize = 19;

/// More than any 64-bit number.
const CAP: u128 = 1 << 64;

/// The digit that a byte writes, where it writes one.
fn digit_of(byte: u8) -> Option<u8>
    ensures digit { is_some result ≡ is_ascii_digit byte }
    ensures value { IfSome result (λ d. d ≡ digit_value byte) }
    ensures small { IfSome result (λ d. d ≤ 9) }
{
    if byte.is_ascii_digit() {
        Some(byte - b'0')
    } else {
        None
    }
}

/// The number of at most 19 bytes, where all are digits. It takes one look at each byte.
fn short_value(bytes: &[u8]) -> Option<u64>
    requires { length bytes.now ≤ 19 }
    ensures { result ≡ (if list_all is_ascii_digit bytes.now then Some (digits_value 10 bytes.now) else None) }
{
    let mut value: u64 = 0;
    for byte in bytes {
        let Some(digit) = digit_of(*byte) else {
            return None;
        };
        value = value * 10 + u64::from(digit);
    }
    Some(value)
}

/// The number of any number of bytes, or 2^64 where it is more, where all are digits.
fn capped_value(bytes: &[u8]) -> Option<u128>
    ensures { result ≡ (if list_all is_ascii_digit bytes.now then Some (min (digits_value 10 bytes.now) (2 ^ 64))
        else None) }
{
    let mut value: u128 = 0;
    for byte in bytes {
        let Some(digit) = digit_of(*byte) else {
            return None;
        };
        value = CAP.min(value * 10 + u128::from(digit));
    }
    Some(value)
}

/// Reads a number that may have more digits than 64 bits have room for.
fn long_number(bytes: &[u8], max: u64) -> Result<u64, NumberFault>
    requires { 0 < length bytes.now }
    ensures { result ≡ decimal_read bytes.now max }
{
    match capped_value(bytes) {
        None => Err(NumberFault::NotDigits),
        Some(value) if value > u128::from(max) => Err(NumberFault::TooLarge),
        Some(value) => Ok(value as u64),
    }
}

/// Reads the number of at most `max` that the bytes write in decimal, with any number of digits and
/// of leading zeros. Bytes that are no digits are found before a number that is too large.
pub fn read_decimal(bytes: &[u8], max: u64) -> Result<u64, NumberFault>
    ensures { result ≡ decimal_read bytes.now max }
{
    if bytes.is_empty() {
        return Err(NumberFault::NotDigits);
    }
    if bytes.len() > SHORT {
        return long_number(bytes, max);
    }
    match short_value(bytes) {
        None => Err(NumberFault::NotDigits),
        Some(value) if value > max => Err(NumberFault::TooLarge),
        Some(value) => Ok(value),
    }
}
