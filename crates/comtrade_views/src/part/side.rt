//! Conversion of values to the other side of a transformer.

use comtrade_values::{Decimal, Exact};
use dfr_channels::{AnalogChannel, Side};
use std::alloc::Allocator;

/// The upper limit of the units of a number, which has at most 15 digits.
const DIGITS: u128 = 1_000_000_000_000_000;

/// The upper limit of a dividend.
const LONGEST: u128 = 10_000_000_000_000_000_000_000_000_000_000_000_000;

fn number_of(decimal: Decimal) -> Exact {
    Exact::of(decimal).cut(DIGITS)
}

/// x * y / z; None where z is 0. Exact where the quotient has at most 15 digits; else the further
/// digits are dropped.
fn ratio_of(x: Exact, y: Exact, z: Exact) -> Option<Exact> {
    if z.units == 0 {
        return None;
    }
    let product = x.times(y)?;
    let mut units = product.units;
    let mut places = product.places.checked_sub(z.places)?;
    for _ in 0..40 {
        if units.checked_rem(z.units)? == 0 || LONGEST < units.unsigned_abs() {
            break;
        }
        units = units.checked_mul(10)?;
        places = places.checked_add(1)?;
    }
    let quotient = Exact {
        units: units.checked_div(z.units)?,
        places,
    };
    Some(quotient.cut(DIGITS))
}

/// The decimal, if it has few enough digits and places.
fn decimal_of(number: Exact) -> Option<Decimal> {
    let mut number = number;
    for _ in 0..40 {
        if 0 <= number.places {
            break;
        }
        number = Exact {
            units: number.units.checked_mul(10)?,
            places: number.places.checked_add(1)?,
        };
    }
    Decimal::new(number.units, u8::try_from(number.places).ok()?)
}

/// A number of a channel, converted to the other side.
fn other(value: Decimal, times: Decimal, by: Decimal) -> Option<Decimal> {
    decimal_of(ratio_of(number_of(value), number_of(times), number_of(by))?)
}

/// Converts a channel's values to this side by its ratio; false where the ratio does not allow it.
pub(crate) fn turn<A: Allocator>(channel: &mut AnalogChannel<A>, side: Side) -> bool {
    if channel.side == side {
        return true;
    }
    let (times, by) = match side {
        Side::Primary => (channel.primary, channel.secondary),
        Side::Secondary => (channel.secondary, channel.primary),
    };
    match (other(channel.a, times, by), other(channel.b, times, by)) {
        (Some(a), Some(b)) => {
            channel.a = a;
            channel.b = b;
            channel.side = side;
            true
        }
        _ => false,
    }
}
