//! The rms value of rows, from the exact sum of squares.

ghost use Rattle.std.specs.Prelude.{IfOk, length};
ghost use Rattle.comtrade_analysis.specs.Sums.{present};
ghost use Rattle.comtrade_views.specs.RmsValues.{RmsIs};

use comtrade_analysis::{Factors, Window, mean_square_over};
use comtrade_format::Row;
use comtrade_values::Memory;
use std::alloc::Allocator;

/// The rms value of a channel in these rows: the root of the mean square of the exact values, as a
/// float. None exactly where a reading is missing or there is no row, or where a value or the sum of
/// the squares has too many digits.
pub(crate) fn rms_over<A: Allocator>(
    alloc: A,
    rows: &[Row<A>],
    channel: usize,
    factors: &Factors,
) -> Result<Option<f64>, Memory>
    ensures { IfOk result (RmsIs factors.now (present rows.now channel 0 (length rows.now)) (length rows.now)) }
{
    let window = Window {
        first: 0,
        rows: rows.len(),
    };
    match mean_square_over(rows, channel, factors, window) {
        Ok(mean) => Ok(Some(mean.rms(alloc)?)),
        Err(_) => Ok(None),
    }
}
