//! Reads the fields of a line. Each function takes a field's text without surrounding blanks.

ghost use Rattle.std.specs.Prelude.{◌≡◌};
ghost use Rattle.comtrade_values.specs.Fields as spec;
ghost use Rattle.comtrade_values.specs.Spelling.{whole_number};

use crate::decimal::Decimal;
use crate::number::integer_of;

/// Reads an optional decimal: 0 if the text is empty, else as [`Decimal::read`] does.
#[tactic(auto, unfolding(crate::specs::Fields::free_scale))]
pub fn free_scale_of(text: &[u8]) -> Option<Decimal>
    ensures { result ≡ spec.free_scale text.now }
{
    if text.is_empty() {
        Decimal::new(0, 0)
    } else {
        Decimal::read(text)
    }
}

/// The bit, if the number is 0 or 1; None otherwise.
fn as_bit(number: Option<i128>) -> Option<bool>
    ensures { result ≡ spec.as_bit number }
{
    match number {
        Some(0) => Some(false),
        Some(1) => Some(true),
        _ => None,
    }
}

/// Reads a bit: a whole number equal to 0 or 1, in any spelling. None otherwise.
#[tactic(auto, unfolding(crate::specs::Fields::bit))]
pub fn bit_of(text: &[u8]) -> Option<bool>
    ensures { result ≡ spec.bit text.now }
{
    as_bit(integer_of(text))
}

/// Reads an optional bit: 0 if the text is empty, else as [`bit_of`] does.
#[tactic(auto, unfolding(crate::specs::Fields::free_bit))]
pub fn free_bit_of(text: &[u8]) -> Option<bool>
    ensures { result ≡ spec.free_bit text.now }
{
    if text.is_empty() {
        Some(false)
    } else {
        bit_of(text)
    }
}

/// Reads a whole number that fits a u32; None otherwise.
pub fn natural_of(text: &[u8]) -> Option<u32>
    ensures { result ≡ spec.up_to 4294967295 (whole_number text.now) }
{
    match integer_of(text) {
        Some(n) if 0 <= n && n <= u32::MAX as i128 => Some(n as u32),
        _ => None,
    }
}
