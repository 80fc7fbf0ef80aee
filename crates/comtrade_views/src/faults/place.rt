//! Where on a line a fault is, as a value, or why that is not told.

use crate::cycles::{Measured, Phasor, Window, measured_at, phasor_in};
use crate::faults::both::{Both, measured_over};
use crate::faults::known::{Known, Source};
use crate::faults::lack::{Lack, lack_words};
use crate::faults::members::PlaceMembers;
use crate::faults::words::{loop_name, reference_words};
use crate::number::ordinal;
use crate::times::time_at;
use comtrade_analysis::Sequence;
use comtrade_distance::{LineData, Range, Seen, Three, factor_of, loop_of, range_of};
use comtrade_format::nearest_f64;
use comtrade_values::{Memory, trim};
use std::alloc::{AllocError, Allocator, Global};
use std::f64::consts::TAU;
use std::num::nearest_i64_to_f64;

/// How far the current through the fault may be from its reference, in degrees.
const DEGREES: f64 = 10.0;

/// The greatest part of a current that may be distorted.
const DISTORTED: f64 = 0.05;

/// Where a fault is, or why that is not told. Neither where no line is given.
#[derive(Drop)]
pub(crate) struct Located {
    pub(crate) place: Option<PlaceMembers>,
    pub(crate) lack: Option<String>,
}

/// How many primary volts or amperes one unit of a channel is.
fn factor_at<A: Allocator + Copy>(
    source: &Source<'_, A>,
    place: usize,
    given: Option<f64>,
) -> Result<f64, Lack> {
    let file = source.file;
    let Some(channel) = file.head.analog.items().get(place) else {
        return Err(Lack::Missing);
    };
    let primary = nearest_f64(source.lists, channel.primary)?;
    let secondary = nearest_f64(source.lists, channel.secondary)?;
    let unit = trim(channel.unit.items());
    match factor_of(unit, channel.side, primary, secondary, given) {
        Some(factor) => Ok(factor),
        None => Err(Lack::Primary),
    }
}

/// The phasor of a channel in primary volts or amperes.
fn phasor_at<A: Allocator + Copy>(
    source: &Source<'_, A>,
    measures: &[Option<Measured<A>>],
    place: usize,
    given: Option<f64>,
) -> Result<Phasor, Lack> {
    let factor = factor_at(source, place, given)?;
    match phasor_in(measures, place) {
        Some(phasor) => Ok(phasor.scaled(factor)),
        None => Err(Lack::Missing),
    }
}

/// The phasors of three channels.
fn three_at<A: Allocator + Copy>(
    source: &Source<'_, A>,
    measures: &[Option<Measured<A>>],
    sequence: Sequence,
    given: Option<f64>,
) -> Result<Three, Lack> {
    Ok(Three {
        a: phasor_at(source, measures, sequence.a, given)?,
        b: phasor_at(source, measures, sequence.b, given)?,
        c: phasor_at(source, measures, sequence.c, given)?,
    })
}

/// The greatest magnitude of three currents.
fn greatest_of<A: Allocator>(measures: &[Option<Measured<A>>], currents: Sequence) -> f64 {
    let mut greatest: f64 = 0.0;
    for place in [currents.a, currents.b, currents.c] {
        if let Some(phasor) = phasor_in(measures, place) {
            greatest = greatest.max(phasor.magnitude());
        }
    }
    greatest
}

/// Whether a second harmonic, or what no order is of, is over a twentieth of the greatest current.
fn is_distorted<A: Allocator>(measures: &[Option<Measured<A>>], currents: Sequence) -> bool {
    let most = greatest_of(measures, currents) * DISTORTED;
    for place in [currents.a, currents.b, currents.c] {
        if let Some(measured) = measured_at(measures, place) {
            let second = measured.orders.get(1).copied();
            if most < measured.residual || second.is_some_and(|second| most < second) {
                return true;
            }
        }
    }
    false
}

/// What turns a phasor of an earlier cycle to the time of a later one, at the line frequency.
fn turn_between<A: Allocator + Copy>(
    source: &Source<'_, A>,
    from: Window,
    to: Window,
) -> Result<Phasor, Lack> {
    let times = (
        time_at(source.times, from.from),
        time_at(source.times, to.from),
    );
    let (Some(first), Some(last)) = times else {
        return Err(Lack::Cycle);
    };
    let Some(nanos) = last.checked_sub(first) else {
        return Err(Lack::Cycle);
    };
    let file = source.file;
    let frequency = nearest_f64(source.lists, file.head.line_freq)?;
    let cycles = nearest_i64_to_f64(nanos) * 1e-9 * frequency;
    Ok(Phasor::unit(cycles * TAU))
}

/// Three phasors, turned.
fn turned(three: Three, turn: Phasor) -> Three {
    Three {
        a: three.a.times(turn),
        b: three.b.times(turn),
        c: three.c.times(turn),
    }
}

/// What is measured of a fault in a cycle, and in the one before the fault.
#[derive(Clone, Copy)]
struct Cycled<'a, A: Allocator> {
    before: (Window, &'a [Option<Measured<A>>]),
    fault: (Window, &'a [Option<Measured<A>>]),
}

/// What the measured end sees of a fault, on the primary side and by the time of its cycle.
fn seen_of<A: Allocator + Copy>(
    source: &Source<'_, A>,
    known: &Known,
    line: &LineData,
    cycled: Cycled<'_, A>,
) -> Result<Seen, Lack> {
    let place = known.found.place;
    let Some(sequence) = place.voltages else {
        return Err(Lack::Voltages);
    };
    let ratio = line.current_ratio;
    let (from, to) = (cycled.before.0, cycled.fault.0);
    let turn = turn_between(source, from, to)?;
    let earlier = three_at(source, cycled.before.1, place.currents, ratio)?;
    let measures = cycled.fault.1;
    Ok(Seen {
        voltages: three_at(source, measures, sequence, line.voltage_ratio)?,
        currents: three_at(source, measures, place.currents, ratio)?,
        before: turned(earlier, turn),
    })
}

/// The parts of the line in which a fault is, by one of its cycles.
fn part_of<A: Allocator + Copy>(
    source: &Source<'_, A>,
    known: &Known,
    line: &LineData,
    cycled: Cycled<'_, A>,
) -> Result<Range, Lack> {
    let seen = seen_of(source, known, line, cycled)?;
    let turn = Phasor::unit(DEGREES / 360.0 * TAU);
    let range = range_of(line.line, loop_of(known.fault), seen, turn)?;
    Ok(range)
}

/// The same by the cycle half a cycle before the last one, and its first row; None where there is
/// none.
fn earlier_part<A: Allocator + Copy>(
    source: &Source<'_, A>,
    known: &Known,
    line: &LineData,
    both: &Both<A>,
    before: Window,
) -> Result<Option<(Range, usize)>, Lack> {
    let Some(earlier) = both.cycles.earlier else {
        return Ok(None);
    };
    let measures = measured_over(source.lists, source.file, Some(earlier))?;
    if is_distorted(&measures, known.found.place.currents) {
        return Err(Lack::Distorted);
    }
    let cycled = Cycled {
        before: (before, &both.before),
        fault: (earlier, &measures),
    };
    let range = part_of(source, known, line, cycled)?;
    Ok(Some((range, earlier.from)))
}

/// The parts by the last cycle of a fault and the earlier one; the first row of both, and the last
/// one.
fn parts_of<A: Allocator + Copy>(
    source: &Source<'_, A>,
    known: &Known,
    line: &LineData,
    both: &Both<A>,
) -> Result<(Range, (usize, usize)), Lack> {
    let (Some(before), Some(last)) = (both.cycles.before, both.cycles.last) else {
        return Err(Lack::Cycle);
    };
    let cycled = Cycled {
        before: (before, &both.before),
        fault: (last, &both.fault),
    };
    let range = part_of(source, known, line, cycled)?;
    if is_distorted(&both.fault, known.found.place.currents) {
        return Err(Lack::Distorted);
    }
    Ok(match earlier_part(source, known, line, both, before)? {
        Some((other, first)) => (range.joined(other), (first, last.last())),
        None => (range, (last.from, last.last())),
    })
}

/// The parts of the line in which a fault is, if the fault has one loop.
fn found_of<A: Allocator + Copy>(
    source: &Source<'_, A>,
    known: &Known,
    line: &LineData,
    both: &Both<A>,
    is_evolving: bool,
) -> Result<(Range, (usize, usize)), Lack> {
    if is_evolving {
        return Err(Lack::Evolving);
    }
    if known.found.disturbance.doubts.voltages {
        return Err(Lack::Type);
    }
    parts_of(source, known, line, both)
}

/// A range as kilometres and percent of the line.
fn members_of(
    alloc: Global,
    length: f64,
    known: &Known,
    range: Range,
    rows: (usize, usize),
) -> Result<PlaceMembers, AllocError> {
    let fault_loop = loop_of(known.fault);
    Ok(PlaceMembers {
        fault_loop: String::from_str(alloc, loop_name(fault_loop))?,
        doubtful: known.found.disturbance.doubts.ratio,
        method: String::from_str(alloc, "Takagi")?,
        line_km: length,
        least_km: range.least * length,
        greatest_km: range.greatest * length,
        likely_km: range.likely * length,
        reactance_km: range.reactance * length,
        least_percent: range.least * 100.0,
        greatest_percent: range.greatest * 100.0,
        likely_percent: range.likely * 100.0,
        reactance_percent: range.reactance * 100.0,
        reference: String::from_str(alloc, reference_words(fault_loop))?,
        degrees: DEGREES,
        first_row: ordinal(rows.0),
        last_row: ordinal(rows.1),
    })
}

/// Where a fault is, or why that is not told.
pub(crate) fn located_of<A: Allocator + Copy>(
    source: &Source<'_, A>,
    known: &Known,
    both: &Both<A>,
    is_evolving: bool,
) -> Result<Located, Memory> {
    let alloc = source.alloc;
    let Some(line) = source.line else {
        return Ok(Located {
            place: None,
            lack: None,
        });
    };
    match found_of(source, known, line, both, is_evolving) {
        Ok((range, rows)) => {
            let place = members_of(alloc, line.length, known, range, rows)?;
            Ok(Located {
                place: Some(place),
                lack: None,
            })
        }
        Err(Lack::Memory) => Err(Memory),
        Err(lack) => Ok(Located {
            place: None,
            lack: Some(String::from_str(alloc, lack_words(lack))?),
        }),
    }
}
