//! A note on what a fit leaves of signals.

use crate::cycles::{Measured, measured_at};
use crate::float::put_places;
use crate::measure_frequency::{Taken, put_other};
use crate::measure_tables::Found;
use crate::number::put_decimal;
use comtrade_format::File;
use comtrade_io::put_safe;
use comtrade_values::{Memory, put};
use std::alloc::{AllocError, Allocator};

/// The least share of the magnitude that is noted.
const NOTED: f64 = 0.02;

/// The greatest magnitude of the channels with the unit of this one.
fn greatest_of<A: Allocator>(
    file: &File<A>,
    measures: &[Option<Measured<A>>],
    place: usize,
) -> f64 {
    let channels = file.head.analog.items();
    let mut greatest = 0.0f64;
    let Some(own) = channels.get(place) else {
        return greatest;
    };
    for (channel, measured) in channels.iter().zip(measures.iter()) {
        if let Some(measured) = measured
            && channel.unit.items() == own.unit.items()
        {
            greatest = greatest.max(measured.phasor.magnitude());
        }
    }
    greatest
}

/// The residual of a channel as a share of its magnitude, if it is noted: where the magnitude is at
/// least a tenth of the greatest one with the same unit, and the residual two steps of the samples.
fn share_of<A: Allocator>(found: &Found<'_, A>, place: usize) -> Option<f64> {
    let measured = measured_at(found.measures, place)?;
    let magnitude = measured.phasor.magnitude();
    let is_large = greatest_of(found.file, found.measures, place) <= magnitude * 10.0;
    let has_angle = measured.has_angle();
    if !is_large || !has_angle || measured.residual < measured.step * 2.0 {
        return None;
    }
    let share = measured.residual / magnitude;
    if NOTED < share { Some(share) } else { None }
}

/// The channel with the greatest share, and the share, if there is one.
fn greatest_share<A: Allocator>(found: &Found<'_, A>) -> Option<(usize, f64)> {
    let mut greatest: Option<(usize, f64)> = None;
    for place in 0..found.measures.len() {
        if let Some(share) = share_of(found, place) {
            match greatest {
                Some((_, known)) if share <= known => {}
                _ => greatest = Some((place, share)),
            }
        }
    }
    greatest
}

/// Whether the dc part of a channel is fitted as a line.
fn has_line<A: Allocator>(found: &Found<'_, A>, place: usize) -> bool {
    match measured_at(found.measures, place) {
        Some(measured) => measured.fall.is_some(),
        None => false,
    }
}

/// Adds the id of a channel after a text, if its dc part is fitted as a line; what comes before the
/// next one.
fn put_decay<A: Allocator, B: Allocator>(
    out: &mut Vec<u8, B>,
    found: &Found<'_, A>,
    place: usize,
    id: &[u8],
    before: &'static str,
) -> Result<&'static str, AllocError> {
    if !has_line(found, place) {
        return Ok(before);
    }
    put(out, before)?;
    put_safe(out, id)?;
    Ok(", ")
}

/// A line on the channels whose dc part is fitted as a line, if there are any.
fn put_decays<A: Allocator, B: Allocator>(
    out: &mut Vec<u8, B>,
    found: &Found<'_, A>,
) -> Result<(), AllocError> {
    let file = found.file;
    let mut before = "\nnote: the dc part decays and is fitted as a straight line (";
    for (place, channel) in file.head.analog.items().iter().enumerate() {
        before = put_decay(out, found, place, channel.id.items(), before)?;
    }
    if before != ", " {
        return Ok(());
    }
    put(out, "); if the frequency is not ")?;
    put_decimal(out, file.head.line_freq)?;
    put(out, " Hz, their phasors are off\n")
}

/// A line on the greatest residual, if it is above 2 percent of the channel's magnitude.
fn put_residual<A: Allocator, B: Allocator>(
    out: &mut Vec<u8, B>,
    found: &Found<'_, A>,
) -> Result<(), AllocError> {
    let file = found.file;
    let Some((place, share)) = greatest_share(found) else {
        return Ok(());
    };
    let Some(channel) = file.head.analog.items().get(place) else {
        return Ok(());
    };
    put(out, "\nnote: the fit leaves a residual of up to ")?;
    put_places(out, share * 100.0, 1)?;
    put(out, " % (")?;
    put_safe(out, channel.id.items())?;
    put(out, "): the frequency is not ")?;
    put_decimal(out, file.head.line_freq)?;
    put(out, " Hz, or the window has a transient\n")
}

/// The notes on another frequency of the signal, on what a fit leaves of signals, and on dc parts
/// that decay.
pub(crate) fn put_note<A: Allocator + Copy, B: Allocator>(
    lists: A,
    out: &mut Vec<u8, B>,
    found: &Found<'_, A>,
    taken: &Taken,
) -> Result<(), Memory> {
    put_other(lists, out, found.file, taken)?;
    put_residual(out, found)?;
    put_decays(out, found)?;
    Ok(())
}
