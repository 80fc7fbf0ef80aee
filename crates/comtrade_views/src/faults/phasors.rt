//! The phasors of a fault's channels: in a cycle before it and in the last one of the whole fault.

use crate::cycles::{Measured, Phasor, measured_at};
use crate::faults::both::Both;
use crate::faults::members::PhasorMembers;
use crate::json::text_of;
use crate::number::ordinal;
use comtrade_analysis::Sequence;
use comtrade_fault::Place;
use comtrade_format::File;
use std::alloc::{AllocError, Allocator, Global};

/// The magnitude of a channel's fundamental, and its angle from the reference.
fn phasor_at<A: Allocator>(
    measures: &[Option<Measured<A>>],
    reference: Option<Phasor>,
    place: usize,
) -> (Option<f64>, Option<f64>) {
    let Some(measured) = measured_at(measures, place) else {
        return (None, None);
    };
    let angle = match reference {
        Some(reference) if measured.has_angle() => Some(measured.phasor.degrees_from(reference)),
        _ => None,
    };
    (Some(measured.phasor.magnitude()), angle)
}

/// The phasor of the reference in a cycle.
fn reference_at<A: Allocator>(
    measures: &[Option<Measured<A>>],
    reference: Option<usize>,
) -> Option<Phasor> {
    let measured = measured_at(measures, reference?)?;
    if measured.has_angle() {
        Some(measured.phasor)
    } else {
        None
    }
}

/// The phasors of a fault, the channel from which angles are counted, and which of the currents A,
/// B and C are in the fault over twice what they were before, and a quarter of the greatest.
#[derive(Drop)]
pub(crate) struct Phasors {
    pub(crate) reference: Option<String>,
    pub(crate) risen: (bool, bool, bool),
    pub(crate) list: Vec<PhasorMembers>,
}

/// The channels of a place: voltages, then currents.
fn channels_of(place: Place) -> [Option<Sequence>; 2] {
    [place.voltages, Some(place.currents)]
}

/// The phasors of a channel.
fn members_at<A: Allocator>(
    alloc: Global,
    file: &File<A>,
    both: &Both<A>,
    place: usize,
) -> Result<Option<PhasorMembers>, AllocError> {
    let Some(channel) = file.head.analog.items().get(place) else {
        return Ok(None);
    };
    let reference = reference_at(&both.before, both.reference);
    let (before, before_angle) = phasor_at(&both.before, reference, place);
    let reference = reference_at(&both.fault, both.reference);
    let (fault, fault_angle) = phasor_at(&both.fault, reference, place);
    Ok(Some(PhasorMembers {
        n: ordinal(place),
        id: text_of(alloc, channel.id.items())?,
        unit: text_of(alloc, channel.unit.items())?,
        before,
        before_angle,
        fault,
        fault_angle,
    }))
}

/// The phasors of all channels of a place.
fn list_of<A: Allocator>(
    alloc: Global,
    file: &File<A>,
    both: &Both<A>,
    place: Place,
) -> Result<Vec<PhasorMembers>, AllocError> {
    let mut list = Vec::new(alloc);
    for sequence in channels_of(place) {
        if let Some(sequence) = sequence {
            for channel in [sequence.a, sequence.b, sequence.c] {
                if let Some(members) = members_at(alloc, file, both, channel)? {
                    list.push(members)?;
                }
            }
        }
    }
    Ok(list)
}

/// The magnitude of a channel's fundamental.
fn magnitude_at<A: Allocator>(measures: &[Option<Measured<A>>], place: usize) -> Option<f64> {
    Some(measured_at(measures, place)?.phasor.magnitude())
}

/// Whether a current is in the fault over twice what it was before, and a quarter of the greatest.
fn is_risen<A: Allocator>(both: &Both<A>, place: usize, greatest: f64) -> bool {
    let before = magnitude_at(&both.before, place);
    match (before, magnitude_at(&both.fault, place)) {
        (Some(before), Some(fault)) => 2.0 * before < fault && greatest < 4.0 * fault,
        _ => false,
    }
}

/// Which currents of a place are risen.
fn risen_in<A: Allocator>(both: &Both<A>, currents: Sequence) -> (bool, bool, bool) {
    let mut greatest: f64 = 0.0;
    for place in [currents.a, currents.b, currents.c] {
        if let Some(fault) = magnitude_at(&both.fault, place) {
            greatest = greatest.max(fault);
        }
    }
    (
        is_risen(both, currents.a, greatest),
        is_risen(both, currents.b, greatest),
        is_risen(both, currents.c, greatest),
    )
}

/// The phasors around a fault.
pub(crate) fn phasors_of<A: Allocator>(
    alloc: Global,
    file: &File<A>,
    place: Place,
    both: &Both<A>,
) -> Result<Phasors, AllocError> {
    let found = both.reference;
    let name = match found.and_then(|place| file.head.analog.items().get(place)) {
        Some(channel) => Some(text_of(alloc, channel.id.items())?),
        None => None,
    };
    Ok(Phasors {
        reference: name,
        risen: risen_in(both, place.currents),
        list: list_of(alloc, file, both, place)?,
    })
}
