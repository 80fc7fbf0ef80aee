//! Converts decimals to floats.

ghost use Rattle.std.specs.Prelude.{◌≡◌, IfOk};
ghost use Rattle.comtrade_format.specs.Floats.{IsNearest, spelled};

use comtrade_values::{Decimal, Memory};
use itoa::Buffer;
use std::alloc::Allocator;

/// The decimal as its units and an exponent, in text.
fn spelled_of<A: Allocator>(alloc: A, decimal: Decimal) -> Result<Vec<u8, A>, Memory>
    ensures { IfOk result (λ text. text.items ≡ spelled decimal) }
{
    let mut text = Vec::new(alloc);
    text.extend_from_slice(Buffer::new().format(decimal.units()).as_bytes())?;
    text.extend_from_slice(b"e-")?;
    text.extend_from_slice(Buffer::new().format(decimal.places()).as_bytes())?;
    Ok(text)
}

/// The float nearest to a decimal. `Memory`: an allocation failed.
pub fn nearest_f64<A: Allocator>(alloc: A, decimal: Decimal) -> Result<f64, Memory>
    ensures { IfOk result (λ x. IsNearest decimal x) }
{
    let _lawful = decimal.units();
    let text = spelled_of(alloc, decimal)?;
    match fast_float::parse(text.as_slice()) {
        Ok(x) => Ok(x),
        Err(_) => unreachable!(),
    }
}
