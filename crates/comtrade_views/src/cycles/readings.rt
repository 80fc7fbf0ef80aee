//! The values of a channel.

use comtrade_format::{Row, Scale};
use dfr_channels::Reading;
use std::alloc::Allocator;

/// The value of a channel, counted from 0, in a row; None where its reading is missing.
pub(crate) fn value_in<A: Allocator>(row: &Row<A>, channel: usize, scale: Scale) -> Option<f64> {
    match row.values.items().get(channel) {
        Some(Reading::Value(sample)) => Some(scale.value(*sample)),
        _ => None,
    }
}
