//! Units, with or without a prefix, and the prefixes of large and small values.

ghost use Rattle.std.specs.Prelude.{◌≤◌};

use crate::sheet::Sheet;
use std::alloc::Allocator;

/// A channel's unit: its name without the prefix, the prefix's power of ten, and whether it takes
/// prefixes.
#[derive(Clone, Copy)]
pub(crate) struct AxisUnit<'a> {
    pub(crate) base: &'a [u8],
    pub(crate) exponent: i8,
    pub(crate) takes_prefixes: bool,
}

/// Whether a unit takes prefixes.
fn is_base(unit: &[u8]) -> bool {
    let bases: [&[u8]; 11] = [
        b"A", b"V", b"W", b"VA", b"var", b"VAr", b"VAR", b"Hz", b"Ohm", b"ohm", b"s",
    ];
    for base in bases {
        if unit == base {
            return true;
        }
    }
    false
}

/// The unit without its prefix.
fn without_prefix(unit: &[u8]) -> Option<AxisUnit<'_>> {
    let (first, base) = unit.split_first()?;
    let exponent = match first {
        b'n' => -9,
        b'u' => -6,
        b'm' => -3,
        b'k' | b'K' => 3,
        b'M' => 6,
        b'G' => 9,
        _ => return None,
    };
    if !is_base(base) {
        return None;
    }
    Some(AxisUnit {
        base,
        exponent,
        takes_prefixes: true,
    })
}

pub(crate) fn unit_of(unit: &[u8]) -> AxisUnit<'_> {
    let plain = AxisUnit {
        base: unit,
        exponent: 0,
        takes_prefixes: is_base(unit),
    };
    if plain.takes_prefixes {
        return plain;
    }
    match without_prefix(unit) {
        Some(unit) => unit,
        None => plain,
    }
}

fn prefix_of(exponent: i32) -> Option<&'static str> {
    match exponent {
        -24 => Some("y"),
        -21 => Some("z"),
        -18 => Some("a"),
        -15 => Some("f"),
        -12 => Some("p"),
        -9 => Some("n"),
        -6 => Some("\u{b5}"),
        -3 => Some("m"),
        0 => Some(""),
        3 => Some("k"),
        6 => Some("M"),
        9 => Some("G"),
        12 => Some("T"),
        15 => Some("P"),
        18 => Some("E"),
        21 => Some("Z"),
        24 => Some("Y"),
        _ => None,
    }
}

/// The greatest power of a thousand that is tried: floats have none beyond it.
const THOUSANDS: u8 = 110;

/// How often a size is divided by 1000 until it is below 1000, and what is left.
fn divided(size: f64) -> (u8, f64)
    ensures { result.0 ≤ 110 }
{
    let mut left = size;
    for times in 0..THOUSANDS {
        if left < 1000.0 {
            return (times, left);
        }
        left /= 1000.0;
    }
    (THOUSANDS, left)
}

/// How often a size is multiplied by 1000 until it is at least 1; never, if it is 0 or below.
fn multiplied(size: f64) -> u8
    ensures { result ≤ 110 }
{
    let mut left = size;
    for times in 0..THOUSANDS {
        if 1.0 <= left || left <= 0.0 {
            return times;
        }
        left *= 1000.0;
    }
    THOUSANDS
}

/// The power of a thousand, as a power of ten, that brings a size between 1 and 1000.
fn thousands(size: f64) -> i16 {
    let (times, left) = divided(size);
    3 * (i16::from(times) - i16::from(multiplied(left)))
}

/// The power of ten by which values of a size are divided for display in a unit; none where a unit
/// without prefixes needs none.
pub(crate) fn shown_exponent(unit: AxisUnit<'_>, size: f64) -> i16 {
    if !unit.takes_prefixes && 0.001 <= size && size < 1e6 {
        return 0;
    }
    thousands(size)
}

/// 10^exponent, or near it where that is not a whole power.
pub(crate) fn power_of_ten(exponent: i16) -> f64 {
    let mut power = 1.0;
    for _ in 0..exponent.unsigned_abs().min(300) {
        power *= 10.0;
    }
    if exponent < 0 { 1.0 / power } else { power }
}

/// A unit of values that were divided by a power of ten.
pub(crate) fn put_unit<A: Allocator>(sheet: &mut Sheet<A>, unit: AxisUnit<'_>, exponent: i16) {
    let whole = i32::from(exponent) + i32::from(unit.exponent);
    match prefix_of(whole) {
        Some(prefix) if unit.takes_prefixes => sheet.text(prefix),
        _ => {
            if whole != 0 {
                sheet.text("1E");
                sheet.signed(i64::from(whole));
                sheet.text(" ");
            }
        }
    }
    sheet.name(unit.base);
}
