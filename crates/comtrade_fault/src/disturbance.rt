//! The disturbances of three currents, one after the other.

ghost use Rattle.std.specs.Prelude.{◌≡◌, ◌+◌, ◌*◌, ◌^◌, ◌<◌, ◌≤◌, length, IfOk, IfSome, Some};
ghost use Rattle.comtrade_fault.specs.Sizing.{Fit};
ghost use Rattle.comtrade_fault.specs.Deciding.{IsSmall};
ghost use Rattle.comtrade_fault.specs.Courses as spec;
ghost use Rattle.comtrade_fault.specs.Courses.{course};

use crate::bounds::Bounds;
use crate::departure::{departure_from, inception_of};
use crate::ends::{Ends, ends_after};
use crate::kind::{Doubts, Evidence, Kind};
use crate::scan::{Scan, Weights};
use crate::sizes::{Sizes, phases_from, seconds_from, sizes_around};
use crate::turn::Remainder;
use comtrade_values::Memory;
use std::alloc::Allocator;

/// A disturbance. Rows count from 0.
#[derive(Clone, Copy, Debug, PartialEq, Eq)]
pub struct Disturbance {
    /// The first row in which a current departs from its waveform.
    pub inception: usize,
    /// This is the first row that was examined: it may have begun before.
    pub may_be_older: bool,
    pub kind: Kind,
    pub doubts: Doubts,
    /// What the kind was decided by.
    pub evidence: Evidence,
    /// Where each phase's current keeps to its course again.
    pub ends: Ends,
    /// The last of these ends of the phases of a fault (its clearing); None where one has no end
    /// in the record, and where it is no fault.
    pub end: Option<usize>,
}

/// The sizes of voltages around a row, where there are voltages, and they were not dead: less than
/// half as large before as after.
#[tactic(auto, unfolding(crate::specs::Courses::live_around))]
fn live_around(
    scans: &[Scan],
    weights: Weights,
    cycle: usize,
    remainder: Remainder,
    row: usize,
) -> Option<Sizes>
    requires some { 0 < cycle }
    requires back { cycle < row }
    requires few { cycle ≤ 2 ^ 20 }
    ensures value { result ≡ spec.live_around (course scans.now weights remainder) cycle row }
    ensures small { IfSome result Fit }
{
    if scans.len() < cycle || scans.len() - cycle < row {
        return None;
    }
    let sizes = sizes_around(scans, weights, cycle, remainder, row);
    if 2 * sizes.before.most() < sizes.after.most() {
        return None;
    }
    Some(sizes)
}

/// Whether no sample of some scans is missing.
fn are_known(scans: &[Scan]) -> bool
    ensures { result ≡ spec.are_known scans.now }
{
    scans.iter().all(|scan| scan.is_known)
}

/// Whether no sample is missing in the cycles around a row.
fn is_whole_around(scans: &[Scan], cycle: usize, row: usize) -> bool
    requires within { row + cycle ≤ length scans.now }
    requires back { cycle ≤ row }
    ensures { result ≡ spec.is_whole_around scans.now cycle row }
{
    let rest = &scans[row - cycle..];
    are_known(&rest[..2 * cycle])
}

/// What the disturbance that begins at a row is decided by.
#[tactic(auto, unfolding(crate::specs::Courses::evidence_at))]
fn evidence_at(
    scans: &[Scan],
    weights: Weights,
    voltages: &[Scan],
    voltage_weights: Weights,
    cycle: usize,
    remainder: Remainder,
    row: usize,
) -> Evidence
    requires within { row + cycle ≤ length scans.now }
    requires back { cycle < row }
    requires some { 8 ≤ cycle }
    requires few { cycle ≤ 2 ^ 20 }
    ensures value { result ≡ spec.evidence_at (course scans.now weights remainder) (course voltages.now voltage_weights remainder) cycle row }
    ensures small { IsSmall result }
{
    Evidence {
        currents: sizes_around(scans, weights, cycle, remainder, row),
        usual: phases_from(scans, weights, cycle, 0).most(),
        second: seconds_from(scans, weights, cycle, row),
        voltages: live_around(voltages, voltage_weights, cycle, remainder, row),
        is_whole: is_whole_around(scans, cycle, row),
    }
}

/// The end of a fault: the last end of its phases. No other kind has one.
fn end_in(kind: Kind, ends: Ends) -> Option<usize>
    ensures { result ≡ spec.end_in kind ends }
{
    match kind {
        Kind::Fault(fault) => fault.end(ends),
        Kind::Other(_) => None,
    }
}

/// The disturbance that begins at a row, looked for from another one on.
#[tactic(auto, unfolding(crate::specs::Courses::disturbance_at))]
fn disturbance_at(
    scans: &[Scan],
    weights: Weights,
    voltages: &[Scan],
    voltage_weights: Weights,
    bounds: Bounds,
    cycle: usize,
    remainder: Remainder,
    from: usize,
    row: usize,
) -> Disturbance
    requires within { row + cycle ≤ length scans.now }
    requires back { cycle < row }
    requires some { 8 ≤ cycle }
    requires few { cycle ≤ 2 ^ 20 }
    requires step { bounds.step ≤ 2 ^ 64 }
    ensures value { result ≡ spec.disturbance_at (course scans.now weights remainder) (course voltages.now voltage_weights remainder) bounds cycle from row }
{
    let evidence = evidence_at(
        scans,
        weights,
        voltages,
        voltage_weights,
        cycle,
        remainder,
        row,
    );
    let kind = evidence.kind();
    let ends = ends_after(scans, weights, bounds, cycle, row);
    Disturbance {
        inception: row,
        may_be_older: from == row,
        kind,
        doubts: evidence.doubts(),
        evidence,
        ends,
        end: end_in(kind, ends),
    }
}

/// The first disturbance from a row on that has a cycle from its inception on.
#[tactic(auto, unfolding(crate::specs::Courses::next_from))]
fn next_from(
    scans: &[Scan],
    weights: Weights,
    voltages: &[Scan],
    voltage_weights: Weights,
    bounds: Bounds,
    cycle: usize,
    remainder: Remainder,
    from: usize,
) -> Option<Disturbance>
    requires back { 2 * cycle ≤ from }
    requires some { 8 ≤ cycle }
    requires few { cycle ≤ 2 ^ 20 }
    requires step { bounds.step ≤ 2 ^ 64 }
    ensures value { result ≡ spec.next_from (course scans.now weights remainder) (course voltages.now voltage_weights remainder) bounds cycle from }
{
    let row = departure_from(scans, weights, bounds, cycle, from)?;
    let inception = inception_of(scans, weights, bounds.step, cycle, from, row);
    if scans.len() - inception < cycle {
        return None;
    }
    Some(disturbance_at(
        scans,
        weights,
        voltages,
        voltage_weights,
        bounds,
        cycle,
        remainder,
        from,
        inception,
    ))
}

/// The row two cycles after another one, if there are so many rows.
fn two_cycles_after(rows: usize, cycle: usize, row: usize) -> Option<usize>
    requires { cycle ≤ 2 ^ 20 }
    ensures value { result ≡ spec.two_cycles_after rows cycle row }
    ensures back { IfSome result (λ next. 2 * cycle ≤ next) }
{
    if rows < 2 * cycle || rows - 2 * cycle < row {
        return None;
    }
    Some(row + 2 * cycle)
}

/// From where the next disturbance is looked for: where the two cycles before a row lie after this
/// one. Nowhere after a fault without an end, or where there are no such rows.
fn resumed(disturbance: Disturbance, rows: usize, cycle: usize) -> Option<usize>
    requires { cycle ≤ 2 ^ 20 }
    ensures value { result ≡ spec.resumed disturbance rows cycle }
    ensures back { IfSome result (λ next. 2 * cycle ≤ next) }
{
    match disturbance.kind {
        Kind::Fault(_) => two_cycles_after(rows, cycle, disturbance.end?),
        Kind::Other(_) => two_cycles_after(rows, cycle, disturbance.inception),
    }
}

/// The disturbances of three currents, in order, by their samples and weights, and by those of the
/// voltages of the same rows; without any the voltages have no rows. A cycle has so many rows.
/// `Memory`: an allocation failed.
pub fn disturbances_in<B: Allocator + Copy>(
    alloc: B,
    scans: &[Scan],
    weights: Weights,
    voltages: &[Scan],
    voltage_weights: Weights,
    cycle: usize,
    remainder: Remainder,
) -> Result<Vec<Disturbance, B>, Memory>
    requires some { 8 ≤ cycle }
    requires few { cycle ≤ 2 ^ 20 }
    ensures { IfOk result (λ found. found.items ≡ spec.disturbances (course scans.now weights remainder) (course voltages.now voltage_weights remainder) cycle) }
{
    let mut found = Vec::new(alloc);
    if scans.len() < 3 * cycle {
        return Ok(found);
    }
    let bounds = Bounds::of(scans, weights, cycle);
    let mut from = 2 * cycle;
    for i in 0..scans.len() {
        let next = next_from(
            scans,
            weights,
            voltages,
            voltage_weights,
            bounds,
            cycle,
            remainder,
            from,
        );
        let Some(next) = next else {
            return Ok(found);
        };
        found.push(next)?;
        let Some(row) = resumed(next, scans.len(), cycle) else {
            return Ok(found);
        };
        from = row;
    }
    Ok(found)
}
