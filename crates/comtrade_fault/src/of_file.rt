//! The disturbances of a file.

ghost use Rattle.std.specs.Prelude.{◌≡◌, ◌*◌, ◌^◌, ◌<◌, ◌≤◌, IfSome};
ghost use Rattle.std.specs.Option.{SomeIff};
ghost use Rattle.comtrade_fault.specs.Scanning as spec;

use crate::disturbance::{Disturbance, disturbances_in};
use crate::place::{Place, places_in};
use crate::scan::{Scan, Weights};
use crate::scans::scans_of;
use crate::turn::Remainder;
use crate::weights::weights_of;
use comtrade_analysis::Sequence;
use comtrade_format::{Cycle, File, Row, cycle_of};
use comtrade_values::Memory;
use dfr_channels::AnalogChannel;
use std::alloc::Allocator;

/// A disturbance of a file.
#[derive(Clone, Copy, Debug, PartialEq, Eq)]
pub struct Found {
    pub place: Place,
    /// The rows of its rate: the first one, and those of a cycle, to the nearest row.
    pub first: usize,
    pub cycle: usize,
    /// Its rows count from `first`.
    pub disturbance: Disturbance,
}

/// The fewest rows of a cycle.
const LEAST: u128 = 8;

/// The most rows of a cycle.
const MOST: u128 = 0x10_0000;

/// The rows of a cycle, to the nearest row, if they are 8 to 2^20.
pub fn cycle_rows(cycle: Cycle) -> Option<usize>
    requires { 0 < cycle.cycles }
    ensures { SomeIff result ((8 ≤ spec.nearest_rows cycle) × (spec.nearest_rows cycle ≤ 2 ^ 20)) (spec.nearest_rows cycle) }
{
    let twice = 2 * cycle.cycles as u128;
    let rows = (2 * cycle.rows as u128 + cycle.cycles as u128) / twice;
    if LEAST <= rows && rows <= MOST {
        return Some(rows as usize);
    }
    None
}

/// What a cycle has beside its whole rows, to the nearest 256th of a row; None of a row or more.
fn remainder_of(cycle: Cycle, rows: usize) -> Option<Remainder>
    requires some { 0 < cycle.cycles }
    requires few { rows ≤ 2 ^ 20 }
    ensures { SomeIff result (spec.parts cycle rows < 256) (spec.remainder cycle rows) }
{
    let twice = 2 * cycle.cycles as u128;
    let all = (512 * cycle.rows as u128 + cycle.cycles as u128) / twice;
    let whole = 256 * rows as u128;
    Some(Remainder {
        is_longer: whole <= all,
        parts: u8::try_from(all.abs_diff(whole)).ok()?,
    })
}

/// The voltages of these rows; none where a factor has too many digits.
fn voltages_of<A: Allocator, B: Allocator + Copy>(
    alloc: B,
    channels: &[AnalogChannel<A>],
    rows: &[Row<A>],
    sequence: Option<Sequence>,
) -> Result<(Vec<Scan, B>, Weights), Memory> {
    if let Some(sequence) = sequence {
        if let Some(weights) = weights_of(channels, sequence) {
            return Ok((scans_of(alloc, rows, sequence)?, weights));
        }
    }
    Ok((Vec::new(alloc), Weights { a: 1, b: 1, c: 1 }))
}

/// The rows of a cycle, if they are 8 to 2^20, and what it has beside them.
fn length_of(cycle: Cycle) -> Option<(usize, Remainder)>
    requires { 0 < cycle.cycles }
    ensures rows { IfSome result (λ length. (8 ≤ length.0) × (length.0 ≤ 2 ^ 20)) }
    ensures value { IfSome result (λ length. (length.0 ≡ spec.nearest_rows cycle) × (length.1 ≡ spec.remainder cycle length.0)) }
{
    let rows = cycle_rows(cycle)?;
    Some((rows, remainder_of(cycle, rows)?))
}

/// Adds the disturbances of a place in the rows of a rate.
fn add_of<A: Allocator, B: Allocator + Copy>(
    alloc: B,
    found: &mut Vec<Found, B>,
    file: &File<A>,
    place: Place,
    first: usize,
    end: usize,
    cycle: usize,
    remainder: Remainder,
) -> Result<(), Memory>
    requires some { 8 ≤ cycle }
    requires few { cycle ≤ 2 ^ 20 }
{
    let channels = file.head.analog.items();
    let (Some(weights), Some(rows)) = (
        weights_of(channels, place.currents),
        file.rows.items().get(first..end),
    ) else {
        return Ok(());
    };
    let scans = scans_of(alloc, rows, place.currents)?;
    let (voltages, voltage_weights) = voltages_of(alloc, channels, rows, place.voltages)?;
    let list = disturbances_in(
        alloc,
        &scans,
        weights,
        &voltages,
        voltage_weights,
        cycle,
        remainder,
    )?;
    for disturbance in &list {
        found.push(Found {
            place,
            first,
            cycle,
            disturbance: *disturbance,
        })?;
    }
    Ok(())
}

/// The disturbances of a file: of each place, in each of its rates. `Memory`: an allocation failed.
pub fn disturbances_of<A: Allocator, B: Allocator + Copy>(
    alloc: B,
    file: &File<A>,
) -> Result<Vec<Found, B>, Memory> {
    let mut found = Vec::new(alloc);
    let places = places_in(alloc, file.head.analog.items())?;
    for place in &places {
        let mut first = 0;
        for rate in file.head.rates.items() {
            let end = (rate.endsamp as usize).min(file.rows.items().len());
            if let Ok(cycle) = cycle_of(file.head.line_freq, rate.samp) {
                if let Some((rows, remainder)) = length_of(cycle) {
                    add_of(alloc, &mut found, file, *place, first, end, rows, remainder)?;
                }
            }
            first = end;
        }
    }
    Ok(found)
}
