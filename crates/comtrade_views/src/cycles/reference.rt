//! The reference channel of angles.

use crate::cycles::fault::MeasureFault;
use crate::cycles::fit::measured_at;
use comtrade_analysis::Measured;
use comtrade_format::Head;
use std::alloc::Allocator;

/// Whether the channel at this index was measured and has an angle.
fn has_angle<A: Allocator>(measures: &[Option<Measured<A>>], place: usize) -> bool {
    match measured_at(measures, place) {
        Some(measured) => measured.has_angle(),
        None => false,
    }
}

/// The index of the first channel with this id (case is ignored), else of the channel with this
/// number from 1.
pub(crate) fn place_of<A: Allocator>(head: &Head<A>, name: &str) -> Option<usize> {
    for (place, channel) in head.analog.items().iter().enumerate() {
        if channel.id.items().eq_ignore_ascii_case(name.as_bytes()) {
            return Some(place);
        }
    }
    let place = name.parse::<usize>().ok()?.checked_sub(1)?;
    if place < head.analog.items().len() {
        Some(place)
    } else {
        None
    }
}

/// The reference channel of angles: the one that is named, else the first one that has an angle, if
/// any. `NoReference`: no channel has this name. `NoAngle`: it has no angle.
pub fn reference_in<A: Allocator>(
    head: &Head<A>,
    measures: &[Option<Measured<A>>],
    name: Option<&str>,
) -> Result<Option<usize>, MeasureFault> {
    let Some(name) = name else {
        for place in 0..measures.len() {
            if has_angle(measures, place) {
                return Ok(Some(place));
            }
        }
        return Ok(None);
    };
    match place_of(head, name) {
        Some(place) if has_angle(measures, place) => Ok(Some(place)),
        Some(_) => Err(MeasureFault::NoAngle),
        None => Err(MeasureFault::NoReference),
    }
}
