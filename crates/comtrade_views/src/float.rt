//! Floats as decimals.

use comtrade_values::{Exact, put_exact};
use ryu::Buffer;
use std::alloc::{AllocError, Allocator};
use std::num::saturating_f64_to_i64;

/// A float as its shortest decimal, as `1.5E-7`, with or without the point and the exponent; None
/// where it is not a number.
fn number_of(x: f64) -> Option<Exact> {
    let size = x.abs();
    if !size.is_finite() {
        return None;
    }
    let mut buffer = Buffer::new();
    let text = buffer.format_finite(size);
    let (digits, exponent) = text.split_once('e').unwrap_or((text, "0"));
    let (whole, places) = digits.split_once('.').unwrap_or((digits, ""));
    let exponent = exponent.parse::<i32>().ok()?;
    let mut units = 0i128;
    for b in whole.bytes().chain(places.bytes()) {
        if b.is_ascii_digit() {
            units = units.checked_mul(10)?.checked_add(i128::from(b - b'0'))?;
        }
    }
    Some(Exact {
        units: if x < 0.0 { units.checked_neg()? } else { units },
        places: i32::try_from(places.len()).ok()?.checked_sub(exponent)?,
    })
}

/// A float with six digits; 0 where its size is at most a 10^9th of another one.
pub(crate) fn put_float<A: Allocator>(
    out: &mut Vec<u8, A>,
    x: f64,
    beside: f64,
) -> Result<(), AllocError> {
    if x.abs() <= beside * 1e-9 {
        return out.extend_from_slice(b"0");
    }
    match number_of(x) {
        Some(number) => put_exact(out, number.to_six_digits()),
        None => out.extend_from_slice(b"-"),
    }
}

/// A float with at most this many places.
pub(crate) fn put_places<A: Allocator>(
    out: &mut Vec<u8, A>,
    x: f64,
    places: u8,
) -> Result<(), AllocError> {
    let mut scaled = x;
    for _ in 0..places {
        scaled *= 10.0;
    }
    let half = if scaled < 0.0 { -0.5 } else { 0.5 };
    // (a size of 10^18 and more is written as the nearest number of 64 bits)
    put_exact(
        out,
        Exact {
            units: i128::from(saturating_f64_to_i64(scaled + half)),
            places: i32::from(places),
        },
    )
}
