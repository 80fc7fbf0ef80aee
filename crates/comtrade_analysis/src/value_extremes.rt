//! The least and the greatest value of a channel.

ghost use Rattle.std.specs.Prelude.{ℕ, List, length, Some};
ghost use Rattle.comtrade_format.specs.Parts.{RowParts};
ghost use Rattle.comtrade_analysis.specs.Extremes.{AreExtremes};
ghost use Rattle.comtrade_analysis.specs.ValueExtremes as spec;

use crate::extremes::{Extremes, extremes_of};
use crate::factors::Factors;
use comtrade_format::Row;
use std::alloc::Allocator;

impl Extremes {
    /// The extremes by value: where a is negative, the greatest sample has the least value.
    pub fn by_value(self, factors: &Factors) -> Extremes
        ensures { (rows : List RowParts) → (channel n : ℕ) → AreExtremes rows channel n (Some self) → spec.AreValueExtremes rows channel factors.now n (Some result) }
    {
        if factors.a.units() < 0 {
            Extremes {
                least: self.greatest,
                greatest: self.least,
            }
        } else {
            self
        }
    }
}

/// The samples with the least and the greatest value a·x + b of an analogue channel, counted from 0,
/// each at the first row that has that sample; None where all its readings are missing.
pub fn value_extremes_of<A: Allocator>(
    rows: &[Row<A>],
    channel: usize,
    factors: &Factors,
) -> Option<Extremes>
    ensures { spec.AreValueExtremes rows.now channel factors.now (length rows.now) result }
{
    Some(extremes_of(rows, channel)?.by_value(factors))
}
