//! The numbers of a plan.

ghost use Rattle.std.specs.Prelude.{◌≡◌, ◌≤◌, ◌<◌, IfSome};
ghost use Rattle.dfr_plan.specs.Numbers as spec;

use comtrade_values::integer_of;

/// What a hexadecimal digit is worth.
pub(crate) fn hex_digit(b: u8) -> Option<u8>
    ensures value { result ≡ spec.hex_digit b }
    ensures bound { IfSome result (λ d. d < 16) }
{
    match b {
        b'0'..=b'9' => Some(b - b'0'),
        b'a'..=b'f' => Some(b - b'a' + 10),
        b'A'..=b'F' => Some(b - b'A' + 10),
        _ => None,
    }
}

/// The number that follows from this one by a digit; None if it is none of 32 bits.
fn with_digit(number: u32, b: u8) -> Option<u32>
    ensures { result ≡ spec.with_digit number b }
{
    let digit = hex_digit(b)?;
    if number > 0x0FFF_FFFF {
        return None;
    }
    Some(number * 16 + u32::from(digit))
}

/// The number that hexadecimal digits spell, of 32 bits.
fn hex_of(digits: &[u8]) -> Option<u32>
    ensures { result ≡ spec.hex_number digits.now }
{
    if digits.is_empty() {
        return None;
    }
    let mut number = 0;
    let mut left = digits;
    while let [digit, rest @ ..] = left {
        number = with_digit(number, *digit)?;
        left = rest;
    }
    Some(number)
}

/// The number of 32 bits that decimal digits spell.
fn decimal_of(text: &[u8]) -> Option<u32>
    ensures { result ≡ spec.decimal_number text.now }
{
    match integer_of(text) {
        Some(n) if 0 <= n && n <= u32::MAX as i128 => Some(n as u32),
        _ => None,
    }
}

/// The number of 32 bits that a text spells: in decimal digits, or in hexadecimal ones after `0x`.
pub(crate) fn number_of(text: &[u8]) -> Option<u32>
    ensures { result ≡ spec.number text.now }
{
    match text {
        [b'0', b'x', digits @ ..] => hex_of(digits),
        _ => decimal_of(text),
    }
}
