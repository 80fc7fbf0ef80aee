//! The name of a record's pair: the date and time of day of its trigger as it is shown, and the
//! record's number.

ghost use Rattle.std.specs.Prelude.{◌≡◌};
ghost use Rattle.dfr_station.specs.Names as names;

use crate::shown::Redated;
use dfr_channels::Layout;
use dfr_folder::{Key, key_at};
use dfr_recorder::Extent;
use std::alloc::Allocator;

/// The instant of a record's trigger as it is shown.
pub(crate) fn trigger_shown<A: Allocator>(
    layout: &Layout<A>,
    extent: Extent,
    redated: Option<Redated>,
) -> Option<i64>
    ensures { result ≡ names.trigger_shown layout.now redated extent }
{
    match redated {
        Some(redated) => Some(redated.is.trigger),
        None => layout.instant(extent.trigger),
    }
}

/// The name of a record's pair, from the instant of its trigger as it is shown.
pub(crate) fn key_of<A: Allocator>(
    layout: &Layout<A>,
    extent: Extent,
    redated: Option<Redated>,
) -> Key
    ensures { names.IsNameOf layout.now redated extent result }
{
    match trigger_shown(layout, extent, redated) {
        Some(instant) => key_at(instant, extent.number),
        // a scan without an instant is refused, so the scan of a record's trigger has one
        None => key_at(0, extent.number),
    }
}

/// A law: the names of records sort byte by byte as the instants of their triggers, as these are
/// shown. This function does nothing.
pub fn records_sort()
    ensures { names.RecordsSort }
{}
