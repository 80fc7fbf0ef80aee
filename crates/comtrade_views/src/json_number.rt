//! Numbers and times as JSON.

ghost use Rattle.std.specs.Prelude.{◌≡◌, IfOk};
ghost use Rattle.comtrade_views.specs.JsonNumbers as spec;

use comtrade_format::nearest_f64;
use comtrade_values::{Decimal, Exact, Memory, without_zeros};
use serde::{Described, Serialize, Serializer};
use std::alloc::Allocator;

/// A number as JSON writes it: all digits of a whole one, else the nearest float.
#[derive(Clone, Copy, Debug)]
pub(crate) enum JsonNumber {
    Whole(i128),
    Float(f64),
}

impl Described for JsonNumber {}

impl Serialize for JsonNumber {
    fn serialize<S: Serializer>(&self, out: &mut S) -> Result<(), S::Error> {
        match self {
            JsonNumber::Whole(units) => units.serialize(out),
            JsonNumber::Float(x) => x.serialize(out),
        }
    }
}

/// A decimal as JSON. `Memory`: an allocation failed.
pub(crate) fn number_json<A: Allocator>(alloc: A, decimal: Decimal) -> Result<JsonNumber, Memory>
    ensures { IfOk result (spec.IsNumberOf decimal) }
{
    let short = without_zeros(decimal);
    if short.places() == 0 {
        return Ok(JsonNumber::Whole(short.units()));
    }
    Ok(JsonNumber::Float(nearest_f64(alloc, decimal)?))
}

/// A number of a computation as JSON; None if it has too many digits for a decimal.
pub(crate) fn exact_json<A: Allocator>(
    alloc: A,
    number: Exact,
) -> Result<Option<JsonNumber>, Memory> {
    match number.decimal() {
        Some(decimal) => Ok(Some(number_json(alloc, decimal)?)),
        None => Ok(None),
    }
}

/// Nanoseconds as microseconds, to the nearest, halves away from zero.
pub(crate) fn micros_of(nanos: i128) -> i128
    ensures { result ≡ spec.signed_micros nanos }
{
    let size = ((nanos.unsigned_abs() + 500) / 1000) as i128;
    if nanos < 0 { -size } else { size }
}

/// Nanoseconds in milliseconds as JSON, to the nearest microsecond. `Memory`: an allocation failed.
pub(crate) fn millis_json<A: Allocator>(alloc: A, nanos: i128) -> Result<JsonNumber, Memory>
    ensures { IfOk result (spec.AreMillis nanos) }
{
    match Decimal::new(micros_of(nanos), 3) {
        Some(millis) => number_json(alloc, millis),
        None => unreachable!(),
    }
}
