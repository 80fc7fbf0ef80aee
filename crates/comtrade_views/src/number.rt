//! Numbers of a pair as decimals: a number of the file, and a scaled sample, exact where floats
//! would round.

ghost use Rattle.std.specs.Prelude.{◌≡◌, ◌+◌, ◌<◌, ◌^◌, ◌++◌, OnOk, decimal, unsigned_abs};
ghost use Rattle.comtrade_values.specs.Arithmetic as Values;

use comtrade_format::{LONGEST_VALUE, write_shortened};
use comtrade_values::{Decimal, Exact, exact_value, put, put_exact, put_number, without_zeros};
use dfr_channels::AnalogChannel;
use std::alloc::{AllocError, Allocator};

/// The number from 1 of what has this index.
pub(crate) fn ordinal(index: usize) -> u128
    ensures { result ≡ index + 1 }
{
    index as u128 + 1
}

/// A text, and the number from 1 of what has this index.
pub(crate) fn put_ordinal<A: Allocator>(
    out: &mut Vec<u8, A>,
    text: &str,
    index: usize,
) -> Result<(), AllocError>
    ensures { OnOk result (out.new.items ≡ out.old.items ++ (text.now ++ decimal (index + 1))) }
{
    put(out, text)?;
    put_number(out, index as u128 + 1)
}

/// The bound of the units of a number, so that its product with a sample fits 128 bits.
const MOST: u128 = 1_000_000_000_000_000_000_000_000_000;

/// A decimal cut to its first 27 digits.
fn number_of(decimal: Decimal) -> Exact
    ensures { unsigned_abs result.units < 10 ^ 27 }
{
    let mut size = decimal.units().unsigned_abs();
    for dropped in 0..12u8 {
        if size < MOST {
            return signed(decimal, size, dropped);
        }
        size /= 10;
    }
    signed(decimal, size, 12)
}

/// The number with a decimal's sign and this size, of which digits were dropped.
fn signed(decimal: Decimal, size: u128, dropped: u8) -> Exact
    requires { size < 10 ^ 27 }
    ensures { unsigned_abs result.units ≡ size }
{
    let units = size as i128;
    Exact {
        units: if decimal.units() < 0 { -units } else { units },
        places: i32::from(decimal.places()) - i32::from(dropped),
    }
}

/// The scale of a channel: a * x + b.
#[derive(Clone, Copy)]
pub(crate) struct Scale {
    pub(crate) a: Decimal,
    pub(crate) b: Decimal,
}

pub(crate) fn scale_of<A: Allocator>(channel: &AnalogChannel<A>) -> Scale
    ensures a { result.a ≡ channel.now.a }
    ensures b { result.b ≡ channel.now.b }
{
    Scale {
        a: channel.a,
        b: channel.b,
    }
}

/// The value of a sample, near it where it has more digits than a decimal can have.
pub(crate) fn value_of(scale: Scale, sample: i32) -> Exact {
    let a = number_of(scale.a);
    let product = Exact {
        units: a.units * sample as i128,
        places: a.places,
    };
    product.near_sum(number_of(scale.b))
}

/// The value of a sample: a * x + b, exactly and without trailing zeros, where both terms and the
/// sum have at most 36 digits each; else a value near it.
pub(crate) fn put_sample<A: Allocator>(
    out: &mut Vec<u8, A>,
    scale: Scale,
    sample: i32,
) -> Result<(), AllocError>
    ensures { OnOk result (Values.IsShort scale.a scale.b sample
        → Values.AppendsValue out.old.items out.new.items (Values.value scale.a scale.b sample)) }
{
    match exact_value(scale.a, scale.b, sample) {
        Some(value) => comtrade_values::put_decimal(out, without_zeros(value)),
        None => put_exact(out, value_of(scale, sample)),
    }
}

/// The number units / 10^places without trailing zeros.
pub(crate) fn put_shortened<A: Allocator>(
    out: &mut Vec<u8, A>,
    units: i64,
    places: u8,
) -> Result<(), AllocError> {
    let mut slot = [0u8; LONGEST_VALUE];
    let end = write_shortened(&mut slot, 0, units, places);
    match end.and_then(|end| slot.get(..end)) {
        Some(text) => out.extend_from_slice(text),
        None => put_exact(
            out,
            Exact {
                units: units as i128,
                places: places as i32,
            },
        ),
    }
}

/// A decimal as text, without trailing zeros.
pub(crate) fn put_decimal<A: Allocator>(
    out: &mut Vec<u8, A>,
    decimal: Decimal,
) -> Result<(), AllocError>
    ensures { OnOk result (Values.AppendsValue out.old.items out.new.items decimal) }
{
    comtrade_values::put_decimal(out, without_zeros(decimal))
}
