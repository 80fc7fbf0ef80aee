//! The least and the greatest sample of a channel.

ghost use Rattle.std.specs.Prelude.{◌≡◌, ◌+◌, ℕ, List, length, int_lt, if◌then◌else◌};
ghost use Rattle.comtrade_format.specs.Parts.{RowParts};
ghost use Rattle.comtrade_analysis.specs.Readings.{sample_at};
ghost use Rattle.comtrade_analysis.specs.Extremes as spec;

use crate::readings::sample_at;
use comtrade_format::Row;
use std::alloc::Allocator;

/// A sample, and its row, counted from 0.
#[derive(Clone, Copy, Debug, PartialEq, Eq)]
pub struct Extreme {
    pub sample: i32,
    pub row: usize,
}

/// The least and the greatest sample of a channel, each at the first row that has it.
#[derive(Clone, Copy, Debug, PartialEq, Eq)]
pub struct Extremes {
    pub least: Extreme,
    pub greatest: Extreme,
}

impl Extremes {
    /// The extremes with one sample more, of a later row.
    fn with(self, next: Extreme) -> Extremes
        ensures least { result.least ≡ (if int_lt next.sample self.least.sample then next else self.least) }
        ensures greatest { result.greatest ≡ (if int_lt self.greatest.sample next.sample then next else self.greatest) }
    {
        let least = if next.sample < self.least.sample {
            next
        } else {
            self.least
        };
        let greatest = if self.greatest.sample < next.sample {
            next
        } else {
            self.greatest
        };
        Extremes { least, greatest }
    }
}

/// The extremes with one row more, in which the channel has this sample.
pub(crate) fn extremes_with(
    extremes: Option<Extremes>,
    row: usize,
    sample: Option<i32>,
) -> Option<Extremes>
    ensures { (rows : List RowParts) → (channel : ℕ) → sample_at rows channel row ≡ sample → spec.AreExtremes rows channel row extremes → spec.AreExtremes rows channel (row + 1) result }
{
    let Some(sample) = sample else {
        return extremes;
    };
    let next = Extreme { sample, row };
    match extremes {
        None => Some(Extremes {
            least: next,
            greatest: next,
        }),
        Some(before) => Some(before.with(next)),
    }
}

/// The extremes of an analogue channel, counted from 0; None where all its readings are missing.
pub fn extremes_of<A: Allocator>(rows: &[Row<A>], channel: usize) -> Option<Extremes>
    ensures { spec.AreExtremes rows.now channel (length rows.now) result }
{
    let mut extremes: Option<Extremes> = None;
    for row in 0..rows.len() {
        extremes = extremes_with(extremes, row, sample_at(rows, channel, row));
    }
    extremes
}
