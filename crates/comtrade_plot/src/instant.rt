//! Instants as dates, and spans of time.

ghost use Rattle.std.specs.Prelude.{◌≤ℤ◌, pos};

use crate::sheet::Sheet;
use comtrade_values::has_date;
use std::alloc::Allocator;

/// Microseconds since 1970-01-01 00:00:00 as `yyyy-mm-dd hh:mm:ss.ssssss`. Both readers refuse
/// files whose trigger is not in the years 1 to 9999.
pub(crate) fn put_instant<A: Allocator>(sheet: &mut Sheet<A>, instant: i64) {
    if has_date(instant) {
        sheet.civil(instant);
    } else {
        sheet.text("?");
    }
}

/// A unit of time: its nanoseconds, its decimal places, its name.
#[derive(Clone, Copy)]
pub(crate) struct TimeUnit {
    pub(crate) nanos: u64,
    pub(crate) places: i32,
    pub(crate) name: &'static str,
}

const MICROS: TimeUnit = TimeUnit {
    nanos: 1000,
    places: 3,
    name: "\u{b5}s",
};

const MILLIS: TimeUnit = TimeUnit {
    nanos: 1_000_000,
    places: 6,
    name: "ms",
};

const SECONDS: TimeUnit = TimeUnit {
    nanos: 1_000_000_000,
    places: 9,
    name: "s",
};

/// The unit for times of a span: seconds from ten seconds on, milliseconds from one on.
pub(crate) fn time_unit(span: u64) -> TimeUnit {
    if span < 1_000_000 {
        MICROS
    } else if span < 10_000_000_000 {
        MILLIS
    } else {
        SECONDS
    }
}

/// A number of nanoseconds, rounded to about a thousandth of the unit.
fn rounded_size(nanos: u64, unit: TimeUnit) -> i128
    ensures least { pos 0 ≤ℤ result }
    ensures most { result ≤ℤ pos 36893488147419103232 }
{
    let grain = (unit.nanos / 1000).max(1);
    let size = u128::from(nanos) + u128::from(grain / 2);
    (size - size % u128::from(grain)) as i128
}

/// Nanoseconds, rounded to about a thousandth of the unit.
fn rounded(nanos: i64, unit: TimeUnit) -> i128 {
    let size = rounded_size(nanos.unsigned_abs(), unit);
    if nanos < 0 { -size } else { size }
}

/// A time with its unit, to a thousandth of it.
pub(crate) fn put_span<A: Allocator>(sheet: &mut Sheet<A>, nanos: i64) {
    let unit = time_unit(nanos.unsigned_abs());
    sheet.scaled(rounded(nanos, unit), unit.places);
    sheet.texts(&[" ", unit.name]);
}

/// A duration with its unit, to a thousandth of it.
pub(crate) fn put_duration<A: Allocator>(sheet: &mut Sheet<A>, nanos: u64) {
    let unit = time_unit(nanos);
    sheet.scaled(rounded_size(nanos, unit), unit.places);
    sheet.texts(&[" ", unit.name]);
}

/// A span `from .. to`, both in the unit of the longer one.
pub(crate) fn put_range<A: Allocator>(sheet: &mut Sheet<A>, from: i64, to: i64) {
    let unit = time_unit(from.unsigned_abs().max(to.unsigned_abs()));
    sheet.scaled(rounded(from, unit), unit.places);
    sheet.text(" to ");
    sheet.scaled(rounded(to, unit), unit.places);
    sheet.texts(&[" ", unit.name]);
}
