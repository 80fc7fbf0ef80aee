//! Writes values a·x + b with few digits at a position in a buffer.

ghost use Rattle.std.specs.Prelude.{◌≡◌, ◌+◌, ◌*◌, ◌/◌, ◌%◌, ◌^◌, ◌<◌, ◌≤◌, ◌++◌, ◌+ℤ◌, ◌*ℤ◌, FitsSigned, IfNone, IfSome, length, take};
ghost use Rattle.std.specs.Int.{w64};
ghost use Rattle.comtrade_values.specs.Written.{minus};
ghost use Rattle.comtrade_values.specs.Arithmetic.{number_of, with_places as longer};
ghost use Rattle.comtrade_format.specs.Values as Values;

use crate::values::places::{write_front, write_places};
use comtrade_values::{Decimal, with_places};

/// A channel's factors a and b (C37.111-1999, 5.3.3) with the same number of decimal places. Each
/// is an integer over 10^`places`.
#[derive(Clone, Copy, Debug)]
pub struct AlignedScale {
    /// The factor a, in units of the last place.
    pub a: i64,
    /// The offset b, in the same units.
    pub b: i64,
    /// The number of decimal places of both.
    pub places: u8,
}

/// The most decimal places of a value written here.
const MOST_PLACES: u8 = 16;

/// The largest number with eight digits, the most that are written before the point.
const MOST_BEFORE: u64 = 99_999_999;

/// The most bytes of a value written here: a minus sign, 8 digits, a point and 16 digits.
pub const LONGEST_VALUE: usize = 26;

/// The number in units of `places` decimal places; None if these need more than 64 bits.
fn units_of(number: Decimal, places: u8) -> Option<i64>
    requires more { number.places ≤ places }
    requires few { places ≤ 16 }
    ensures value { IfSome result (λ units. number_of units places
        ≡ longer places number) }
    ensures none { IfNone result
        (FitsSigned w64 (longer places number).units → ⊥) }
{
    let longer = with_places(number, places)?;
    i64::try_from(longer.units()).ok()
}

/// A channel's a and b with the decimal places of the finer one. None if these are more than 16, or
/// if a or b then needs more than 64 bits.
pub fn aligned_scale_of(a: Decimal, b: Decimal) -> Option<AlignedScale>
    ensures value { IfSome result (Values.IsAligned a b) }
    ensures some { IfSome result (λ scale. Values.IsUnaligned a b → ⊥) }
    ensures none { IfNone result (Values.IsUnaligned a b) }
{
    let places = a.places().max(b.places());
    if MOST_PLACES < places {
        return None;
    }
    Some(AlignedScale {
        a: units_of(a, places)?,
        b: units_of(b, places)?,
        places,
    })
}

/// n * factor / 2^(64 + shift), rounded down. It replaces a division, for speed.
fn scaled(n: u64, factor: u64, shift: u32) -> u64
    requires { shift < 64 }
    ensures { result ≡ n * factor / 2 ^ 64 / 2 ^ shift }
{
    ((n as u128 * factor as u128) >> 64) as u64 >> shift
}

/// 10^zeros; `zeros` is at most 16.
fn ten_to(zeros: u8) -> u64
    requires { zeros < 17 }
    ensures { result ≡ 10 ^ zeros }
{
    match zeros {
        0 => 1,
        1 => 10,
        2 => 100,
        3 => 1000,
        4 => 10_000,
        5 => 100_000,
        6 => 1_000_000,
        7 => 10_000_000,
        8 => 100_000_000,
        9 => 1_000_000_000,
        10 => 10_000_000_000,
        11 => 100_000_000_000,
        12 => 1_000_000_000_000,
        13 => 10_000_000_000_000,
        14 => 100_000_000_000_000,
        15 => 1_000_000_000_000_000,
        _ => 10_000_000_000_000_000,
    }
}

/// n / 10^places, rounded down; `places` is at most 16. Most values have few places.
fn quotient(n: u64, places: u8) -> u64
    requires places { places < 17 }
    requires size { n ≤ 2 ^ 63 }
    ensures { result ≡ n / 10 ^ places }
{
    match places {
        0 => n,
        1 => scaled(n, 0xCCCC_CCCC_CCCC_CCCD, 3),
        2 => scaled(n, 0xA3D7_0A3D_70A3_D70B, 6),
        3 => scaled(n, 0x8312_6E97_8D4F_DF3C, 9),
        4 => scaled(n, 0xD1B7_1758_E219_652C, 13),
        5 => scaled(n, 0xA7C5_AC47_1B47_8424, 16),
        6 => scaled(n, 0x8637_BD05_AF6C_69B6, 19),
        _ => n / ten_to(places),
    }
}

/// The number before the point, and the digits after it as a number of 16 digits.
#[derive(Clone, Copy)]
struct Parts {
    before: u64,
    after: u64,
}

/// Splits a number of `places` decimal places at its point. None if more than eight digits precede
/// the point.
fn parts_of(n: u64, places: u8) -> Option<Parts>
    requires places { places < 17 }
    requires size { n ≤ 2 ^ 63 }
    ensures parts { IfSome result (Values.ArePartsOf n places) }
    ensures none { IfNone result (100000000 ≤ n / 10 ^ places) }
{
    let before = quotient(n, places);
    if MOST_BEFORE < before {
        return None;
    }
    let rest = n - before * ten_to(places);
    let after = rest * ten_to(MOST_PLACES - places);
    Some(Parts { before, after })
}

/// Writes a minus sign at `at` if the number is negative, and returns the position after it. The
/// byte at `at` is overwritten in any case.
fn write_minus(slot: &mut [u8], at: usize, units: i64) -> usize
    requires { at < length slot.old }
    ensures text { take result slot.new ≡ take at slot.old ++ minus units }
    ensures longest { result ≤ at + 1 }
{
    slot[at] = b'-';
    if units < 0 { at + 1 } else { at }
}

/// Writes the number units / 10^places from `at` on, without trailing zeros after the point, and
/// returns the position after it. Bytes after that position may be overwritten.
///
/// None, with `slot` unchanged, if `places` is over 16, if more than 8 digits precede the point, or
/// if fewer than 26 bytes follow from `at` on.
pub fn write_shortened(slot: &mut [u8], at: usize, units: i64, places: u8) -> Option<usize>
    ensures value { IfSome result (λ end.
        Values.WritesValue slot.old slot.new at end (number_of units places)) }
    ensures some { IfSome result (λ end. Values.CanWrite slot.old at (number_of units places)) }
    ensures none { IfNone result (Values.CanWrite slot.old at (number_of units places) → ⊥) }
    ensures kept { IfNone result (slot.new ≡ slot.old) }
{
    if MOST_PLACES < places || slot.len().saturating_sub(at) < LONGEST_VALUE {
        return None;
    }
    let parts = parts_of(units.unsigned_abs(), places)?;
    let start = write_minus(slot, at, units);
    let point = write_front(slot, start, parts.before);
    Some(write_places(slot, point, parts.after))
}

impl AlignedScale {
    /// The value of a sample in units of the last place; None if these need more than 64 bits.
    fn units_at(self, sample: i32) -> Option<i64>
        ensures value { IfSome result (λ units. units ≡ self.a *ℤ sample +ℤ self.b) }
        ensures some { IfSome result (λ units. Values.HasUnits self sample) }
        ensures none { IfNone result (Values.HasUnits self sample → ⊥) }
    {
        self.a.checked_mul(sample as i64)?.checked_add(self.b)
    }

    /// Writes the value a·x + b of a sample x as `write_shortened` does. None, with `slot`
    /// unchanged, for the same reasons, or if the value in units of the last place needs more than
    /// 64 bits.
    pub fn write_value(self, slot: &mut [u8], at: usize, sample: i32) -> Option<usize>
        ensures value { IfSome result (λ end.
            Values.WritesValue slot.old slot.new at end (Values.aligned_value self sample)) }
        ensures some { IfSome result (λ end. Values.CanWriteSample slot.old at self sample) }
        ensures none { IfNone result (Values.CanWriteSample slot.old at self sample → ⊥) }
        ensures kept { IfNone result (slot.new ≡ slot.old) }
    {
        let units = self.units_at(sample)?;
        write_shortened(slot, at, units, self.places)
    }
}
