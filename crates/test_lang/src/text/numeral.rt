//! Numerals of any length. A number is held down to 2^32, the first that is too large for 32 bits, so that no numeral
//! is too long.
ghost use Rattle.std.specs.Prelude.{◌≡◌, ℕ, ◌*◌, ◌+◌, ◌-◌, ◌^◌, ◌<◌, ◌≤◌, length, min, IfSome};
ghost use Rattle.std.specs.Option.{option_map};
ghost use Rattle.test_lang.specs.Text.Numeral.{digits_at, numeral_at, whole_numeral, held, held_front};

use std::cmp;

/// The first number that is too large for 32 bits: larger numbers are read as this one.
pub const HELD: u64 = 1 << 32;

/// One more digit behind a number.
#[inline(always)]
fn with_digit(number: u64, digit: u8) -> u64
    requires number { number ≤ 2 ^ 32 }
    requires digit { (48 ≤ digit) × (digit ≤ 57) }
    ensures { result ≡ held (10 * number + (digit - 48)) }
{
    cmp::min(10 * number + u64::from(digit - b'0'), HELD)
}

/// The number of the digits at the front behind those of `first`, and the bytes after them.
fn digits(first: u64, text: &[u8]) -> (u64, &[u8])
    requires { first ≤ 2 ^ 32 }
    ensures number { result.0 ≡ held (digits_at first text.now).0 }
    ensures rest { result.1.now ≡ (digits_at first text.now).1 }
    ensures shorter { length result.1.now ≤ length text.now }
{
    let mut number = first;
    for (at, byte) in text.iter().enumerate() {
        if !byte.is_ascii_digit() {
            return (number, &text[at..]);
        }
        number = with_digit(number, *byte);
    }
    (number, &[])
}

/// The longest numeral at the front: its number, held down to 2^32, and the bytes after it.
pub fn numeral(text: &[u8]) -> Option<(u64, &[u8])>
    ensures exact { option_map (λ found. (found.0, found.1.now)) result
        ≡ option_map held_front (numeral_at text.now) }
    ensures shorter { IfSome result (λ found. length found.1.now < length text.now) }
{
    let (first, rest) = text.split_first()?;
    if *first == b'0' {
        return Some((0, rest));
    }
    if !first.is_ascii_digit() {
        return None;
    }
    Some(digits(u64::from(first - b'0'), rest))
}

/// The number of bytes that are one numeral, held down to 2^32.
pub fn whole_numeral(bytes: &[u8]) -> Option<u64>
    ensures { result ≡ option_map held (whole_numeral bytes.now) }
{
    match numeral(bytes) {
        Some((number, [])) => Some(number),
        _ => None,
    }
}
