//! The readings of a channel, row by row.

ghost use Rattle.std.specs.Prelude.{◌≡◌};
ghost use Rattle.comtrade_analysis.specs.Readings as spec;

use comtrade_format::Row;
use dfr_channels::Reading;
use std::alloc::Allocator;

/// The sample of an analogue channel in a row; None where the reading is missing. Both count from 0.
pub fn sample_at<A: Allocator>(rows: &[Row<A>], channel: usize, row: usize) -> Option<i32>
    ensures { result ≡ spec.sample_at rows.now channel row }
{
    match rows.get(row)?.values.items().get(channel) {
        Some(Reading::Value(sample)) => Some(*sample),
        _ => None,
    }
}

/// Whether a row has a sample of an analogue channel, counted from 0.
pub(crate) fn has_sample<A: Allocator>(row: &Row<A>, channel: usize) -> bool
    ensures { result ≡ spec.has_sample channel row.now }
{
    matches!(row.values.items().get(channel), Some(Reading::Value(_)))
}
