//! The mean square of a channel's values over a window.

ghost use Rattle.std.specs.Prelude.{◌≡◌, ◌+◌, ◌^◌, ◌≤◌, length, IfSome, IfNone};
ghost use Rattle.comtrade_values.specs.Arithmetic as arithmetic;
ghost use Rattle.comtrade_analysis.specs.Wide.{number};
ghost use Rattle.comtrade_analysis.specs.Sums.{present};
ghost use Rattle.comtrade_analysis.specs.MeanSquares as spec;

use crate::factors::Factors;
use crate::mean_square::{MeanFault, MeanSquare};
use crate::readings::sample_at;
use crate::sums::sums_over;
use crate::wide::{Wide, square_of};
use crate::window::Window;
use comtrade_format::Row;
use comtrade_values::decimal_is_number;
use std::alloc::Allocator;

/// The square of a sample's value, if it needs at most 192 bits.
fn square_in(factors: &Factors, sample: i32) -> Option<Wide>
    ensures short { IfSome result (λ w. arithmetic.IsShort factors.now.a factors.now.b sample) }
    ensures value { IfSome result (λ w. number w ≡ spec.square_in factors.now sample) }
    ensures none { IfNone result (arithmetic.IsShort factors.now.a factors.now.b sample → 2 ^ 192 ≤ spec.square_in factors.now sample) }
{
    square_of(factors.value(sample)?.units().unsigned_abs())
}

/// The sum with the square of one more sample, if both have at most 192 bits.
fn added(sum: Option<Wide>, factors: &Factors, sample: i32) -> Option<Wide>
    ensures { spec.IsAdded factors.now sample sum result }
{
    let sum = sum?;
    sum.plus(square_in(factors, sample)?)
}

/// The sum of the squares of a channel's values in a window, if it can be had.
fn squares_over<A: Allocator>(
    rows: &[Row<A>],
    channel: usize,
    factors: &Factors,
    window: Window,
) -> Option<Wide>
    requires { window.first + window.rows ≤ length rows.now }
    ensures { spec.AreSquares factors.now (present rows.now channel window.first window.rows) result }
{
    let mut sum = Some(Wide { high: 0, low: 0 });
    for i in 0..window.rows {
        if let Some(sample) = sample_at(rows, channel, window.first + i) {
            sum = added(sum, factors, sample);
        }
    }
    sum
}

/// The mean square of the values of an analogue channel, counted from 0, over the rows of a window.
/// Errors, in this order: `Missing`, `Digits`.
pub fn mean_square_over<A: Allocator>(
    rows: &[Row<A>],
    channel: usize,
    factors: &Factors,
    window: Window,
) -> Result<MeanSquare, MeanFault>
    requires { window.first + window.rows ≤ length rows.now }
    ensures { spec.MeanSquareIs factors.now (present rows.now channel window.first window.rows) window.rows result }
{
    decimal_is_number(factors.a);
    decimal_is_number(factors.b);
    let count = sums_over(rows, channel, window).count;
    if count == 0 || count != window.rows as u64 {
        return Err(MeanFault::Missing);
    }
    match squares_over(rows, channel, factors, window) {
        Some(sum) => Ok(MeanSquare {
            sum,
            count,
            places: factors.a.places().max(factors.b.places()),
        }),
        None => Err(MeanFault::Digits),
    }
}
