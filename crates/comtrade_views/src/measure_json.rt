//! What is measured in a record, as JSON.

use crate::cycles::{Components, Measured, Phasor, components_of, measured_at};
use crate::json::{put_json, text_of};
use crate::json_number::{JsonNumber, number_json};
use crate::measure::Measures;
use crate::measure_tables::Found;
use crate::number::ordinal;
use crate::shown::Shown;
use comtrade_values::Memory;
use dfr_channels::AnalogChannel;
use serde::Serialize;
use std::alloc::{AllocError, Allocator, Global};

/// What was measured of a channel; nothing where readings are missing.
#[derive(Drop, Serialize)]
struct ChannelMembers {
    n: u128,
    id: String,
    phase: String,
    unit: String,
    rms: Option<f64>,
    magnitude: Option<f64>,
    angle: Option<f64>,
    dc: Option<f64>,
    dc_fall: Option<f64>,
    peak: Option<f64>,
    peak_ms: Option<f64>,
    residual: Option<f64>,
}

/// The rms values of the orders 1, 2, .. of a channel.
#[derive(Drop, Serialize)]
struct HarmonicMembers {
    n: u128,
    id: String,
    phase: String,
    unit: String,
    orders: Vec<f64>,
}

/// The sequence components of three channels; nothing where readings are missing.
#[derive(Drop, Serialize)]
struct SequenceMembers {
    a: String,
    b: String,
    c: String,
    unit: String,
    positive: Option<f64>,
    positive_angle: Option<f64>,
    negative: Option<f64>,
    negative_angle: Option<f64>,
    zero: Option<f64>,
    zero_angle: Option<f64>,
}

/// What was measured over a window.
#[derive(Drop, Serialize)]
struct Members {
    first_row: u128,
    last_row: u128,
    cycles: u64,
    frequency: JsonNumber,
    frequency_measured: Option<JsonNumber>,
    frequency_channel: Option<u128>,
    reference: Option<u128>,
    channels: Vec<ChannelMembers>,
    harmonics: Vec<HarmonicMembers>,
    sequences: Vec<SequenceMembers>,
}

/// The angle of a phasor relative to the reference, if there is one.
fn angle_of(phasor: Phasor, reference: Option<Phasor>) -> Option<f64> {
    Some(phasor.degrees_from(reference?))
}

/// A channel of which nothing was measured.
fn unmeasured<A: Allocator>(
    alloc: Global,
    place: usize,
    channel: &AnalogChannel<A>,
) -> Result<ChannelMembers, AllocError> {
    Ok(ChannelMembers {
        n: ordinal(place),
        id: text_of(alloc, channel.id.items())?,
        phase: text_of(alloc, channel.phase.items())?,
        unit: text_of(alloc, channel.unit.items())?,
        rms: None,
        magnitude: None,
        angle: None,
        dc: None,
        dc_fall: None,
        peak: None,
        peak_ms: None,
        residual: None,
    })
}

/// What was measured of a channel.
fn measured_members<A: Allocator>(
    channel: ChannelMembers,
    measured: &Measured<A>,
    reference: Option<Phasor>,
    shown: Shown<'_>,
) -> ChannelMembers {
    let angle = if measured.has_angle() {
        angle_of(measured.phasor, reference)
    } else {
        None
    };
    ChannelMembers {
        rms: Some(measured.rms),
        magnitude: Some(measured.phasor.magnitude()),
        angle,
        dc: Some(measured.dc),
        dc_fall: measured.fall,
        peak: Some(measured.peak),
        peak_ms: shown.millis_at(measured.peak_row),
        residual: Some(measured.residual),
        ..channel
    }
}

fn channels_of<A: Allocator>(
    alloc: Global,
    found: &Found<'_, A>,
) -> Result<Vec<ChannelMembers>, AllocError> {
    let file = found.file;
    let mut list = Vec::new(alloc);
    for (place, channel) in file.head.analog.items().iter().enumerate() {
        let members = unmeasured(alloc, place, channel)?;
        list.push(match measured_at(found.measures, place) {
            Some(measured) => measured_members(members, measured, found.reference, found.shown),
            None => members,
        })?;
    }
    Ok(list)
}

/// The orders of the channels that have an angle.
fn harmonics_of<A: Allocator>(
    alloc: Global,
    found: &Found<'_, A>,
) -> Result<Vec<HarmonicMembers>, AllocError> {
    let file = found.file;
    let mut list = Vec::new(alloc);
    for (place, channel) in file.head.analog.items().iter().enumerate() {
        match measured_at(found.measures, place) {
            Some(measured) if measured.has_angle() => list.push(HarmonicMembers {
                n: ordinal(place),
                id: text_of(alloc, channel.id.items())?,
                phase: text_of(alloc, channel.phase.items())?,
                unit: text_of(alloc, channel.unit.items())?,
                orders: Vec::from_slice(alloc, &measured.orders)?,
            })?,
            _ => {}
        }
    }
    Ok(list)
}

/// The magnitude of a component, and its angle where it has one.
fn component(phasor: Phasor, greatest: f64, reference: Option<Phasor>) -> (f64, Option<f64>) {
    let magnitude = phasor.magnitude();
    let has_angle = greatest * 1e-9 < magnitude;
    let angle = if has_angle {
        angle_of(phasor, reference)
    } else {
        None
    };
    (magnitude, angle)
}

/// Three channels with their sequence components.
fn with_components(
    three: SequenceMembers,
    components: Components,
    reference: Option<Phasor>,
) -> SequenceMembers {
    let greatest = components.greatest();
    let (positive, positive_angle) = component(components.positive, greatest, reference);
    let (negative, negative_angle) = component(components.negative, greatest, reference);
    let (zero, zero_angle) = component(components.zero, greatest, reference);
    SequenceMembers {
        positive: Some(positive),
        positive_angle,
        negative: Some(negative),
        negative_angle,
        zero: Some(zero),
        zero_angle,
        ..three
    }
}

/// The id of a channel; nothing without one.
fn id_at<A: Allocator>(
    alloc: Global,
    channels: &[AnalogChannel<A>],
    place: usize,
) -> Result<String, AllocError> {
    match channels.get(place) {
        Some(channel) => text_of(alloc, channel.id.items()),
        None => Ok(String::new(alloc)),
    }
}

fn sequences_of<A: Allocator>(
    alloc: Global,
    found: &Found<'_, A>,
) -> Result<Vec<SequenceMembers>, AllocError> {
    let file = found.file;
    let channels = file.head.analog.items();
    let mut list = Vec::new(alloc);
    for three in found.threes {
        let members = SequenceMembers {
            a: id_at(alloc, channels, three.a)?,
            b: id_at(alloc, channels, three.b)?,
            c: id_at(alloc, channels, three.c)?,
            unit: match channels.get(three.a) {
                Some(channel) => text_of(alloc, channel.unit.items())?,
                None => String::new(alloc),
            },
            positive: None,
            positive_angle: None,
            negative: None,
            negative_angle: None,
            zero: None,
            zero_angle: None,
        };
        list.push(match components_of(found.measures, *three) {
            Some(components) => with_components(members, components, found.reference),
            None => members,
        })?;
    }
    Ok(list)
}

/// What was measured, as a JSON object in a line.
pub(crate) fn put_measures_json<A: Allocator>(
    alloc: Global,
    out: &mut Vec<u8>,
    measures: Measures<'_>,
    found: &Found<'_, A>,
) -> Result<(), Memory> {
    let file = found.file;
    let taken = measures.taken;
    let members = Members {
        first_row: found.shown.number(measures.window.from),
        last_row: found.shown.number(measures.window.last()),
        cycles: measures.window.cycles,
        frequency: number_json(alloc, file.head.line_freq)?,
        frequency_measured: match &taken.measured {
            Some(signal) => Some(number_json(alloc, signal.hertz)?),
            None => None,
        },
        frequency_channel: match &taken.measured {
            Some(signal) => Some(ordinal(signal.place)),
            None => None,
        },
        reference: measures.reference.map(ordinal),
        channels: channels_of(alloc, found)?,
        harmonics: harmonics_of(alloc, found)?,
        sequences: sequences_of(alloc, found)?,
    };
    Ok(put_json(alloc, out, &members)?)
}
