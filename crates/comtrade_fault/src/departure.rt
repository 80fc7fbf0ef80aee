//! Where a current departs from its waveform: the inception.

ghost use Rattle.std.specs.Prelude.{◌≡◌, ◌+◌, ◌*◌, ◌^◌, ◌<◌, ◌≤◌, length, IfSome, ◌-◌};
ghost use Rattle.comtrade_fault.specs.Searches.{first_from};
ghost use Rattle.comtrade_fault.specs.Departures as spec;

use crate::bounds::Bounds;
use crate::form::{Form, level, most_over};
use crate::scan::{Scan, Signal, Weights};

/// Whether a quantity departs in a row: it differs from the cycle before by more than the bounds,
/// also after what it differed by a cycle earlier is taken away, and what it differed by an eighth
/// of a cycle earlier. So a frequency that drifts and a dc part that decays are no departures.
#[tactic(auto, unfolding(crate::specs::Departures::departs))]
fn departs(
    scans: &[Scan],
    weights: Weights,
    signal: Signal,
    bounds: Bounds,
    cycle: usize,
    row: usize,
) -> bool
    requires within { row < length scans.now }
    requires back { 2 * cycle ≤ row }
    requires step { bounds.step ≤ 2 ^ 64 }
    ensures { result ≡ spec.departs scans.now weights bounds cycle row signal }
{
    let turned = Form::Change {
        lag: cycle,
        before: cycle,
    };
    let moved = Form::Change {
        lag: cycle / 8,
        before: cycle,
    };
    let step = Form::Step { lag: cycle };
    bounds.is_exceeded_by(level(scans, weights, signal, step, row))
        && bounds.is_exceeded_by(level(scans, weights, signal, turned, row))
        && bounds.is_exceeded_by(level(scans, weights, signal, moved, row))
}

/// Whether a row and those one and two cycles before it have their samples.
#[tactic(auto, unfolding(crate::specs::Departures::knows))]
fn is_known(scans: &[Scan], cycle: usize, row: usize) -> bool
    requires within { row < length scans.now }
    requires back { 2 * cycle ≤ row }
    ensures { result ≡ spec.knows scans.now cycle row }
{
    scans[row].is_known && scans[row - cycle].is_known && scans[row - 2 * cycle].is_known
}

/// Whether a phase departs in a row.
#[tactic(auto, unfolding(crate::specs::Departures::departs_at))]
fn departs_at(scans: &[Scan], weights: Weights, bounds: Bounds, cycle: usize, row: usize) -> bool
    requires within { row < length scans.now }
    requires back { 2 * cycle ≤ row }
    requires step { bounds.step ≤ 2 ^ 64 }
    ensures { result ≡ spec.departs_at scans.now weights bounds cycle row }
{
    is_known(scans, cycle, row)
        && (departs(scans, weights, Signal::A, bounds, cycle, row)
            || departs(scans, weights, Signal::B, bounds, cycle, row)
            || departs(scans, weights, Signal::C, bounds, cycle, row))
}

/// The first row from a row on in which a phase departs.
pub fn departure_from(
    scans: &[Scan],
    weights: Weights,
    bounds: Bounds,
    cycle: usize,
    from: usize,
) -> Option<usize>
    requires back { 2 * cycle ≤ from }
    requires step { bounds.step ≤ 2 ^ 64 }
    ensures value { result ≡ spec.departure_from scans.now weights bounds cycle from }
    ensures after { IfSome result (λ row. (from ≤ row) × (row < length scans.now)) }
{
    for row in from..scans.len() {
        if departs_at(scans, weights, bounds, cycle, row) {
            return Some(row);
        }
    }
    None
}

/// Whether a quantity stirs in a row: its difference to the cycle before is over one and a half
/// times the greatest of a quiet cycle and four steps.
#[tactic(auto, unfolding(crate::specs::Departures::stirs))]
fn stirs(
    scans: &[Scan],
    weights: Weights,
    signal: Signal,
    step: u128,
    cycle: usize,
    quiet: usize,
    row: usize,
) -> bool
    requires within { row < length scans.now }
    requires back { cycle ≤ row }
    requires early { cycle ≤ quiet }
    requires quiet { quiet + cycle ≤ length scans.now }
    requires step { step ≤ 2 ^ 64 }
    ensures { result ≡ spec.stirs scans.now weights step cycle quiet row signal }
{
    let form = Form::Step { lag: cycle };
    let most = most_over(scans, weights, signal, form, quiet, cycle);
    3 * most + 8 * step < 2 * level(scans, weights, signal, form, row)
}

/// Whether a phase stirs in a row that has its samples, as the row a cycle before.
#[tactic(auto, unfolding(crate::specs::Departures::stirs_at))]
fn stirs_at(
    scans: &[Scan],
    weights: Weights,
    step: u128,
    cycle: usize,
    quiet: usize,
    row: usize,
) -> bool
    requires within { row < length scans.now }
    requires back { cycle ≤ row }
    requires early { cycle ≤ quiet }
    requires quiet { quiet + cycle ≤ length scans.now }
    requires step { step ≤ 2 ^ 64 }
    ensures { result ≡ spec.stirs_at scans.now weights step cycle quiet row }
{
    scans[row].is_known
        && scans[row - cycle].is_known
        && (stirs(scans, weights, Signal::A, step, cycle, quiet, row)
            || stirs(scans, weights, Signal::B, step, cycle, quiet, row)
            || stirs(scans, weights, Signal::C, step, cycle, quiet, row))
}

/// The first of some rows, up to but without `end`, in which a phase stirs.
fn first_stir(
    scans: &[Scan],
    weights: Weights,
    step: u128,
    cycle: usize,
    quiet: usize,
    first: usize,
    end: usize,
) -> Option<usize>
    requires within { end ≤ length scans.now }
    requires back { cycle ≤ first }
    requires early { cycle ≤ quiet }
    requires quiet { quiet + cycle ≤ length scans.now }
    requires step { step ≤ 2 ^ 64 }
    ensures value { result ≡ first_from (spec.stirs_at scans.now weights step cycle quiet) first (end - first) }
    ensures after { IfSome result (λ row. (first ≤ row) × (row < end)) }
{
    for row in first..end {
        if stirs_at(scans, weights, step, cycle, quiet, row) {
            return Some(row);
        }
    }
    None
}

/// The inception before a row that departs: the first row of the cycle that ends there in which a
/// phase stirs, but none before `from`. The row itself where there is none, or where the quiet
/// cycle, two before it, has no cycle before.
#[tactic(auto, unfolding(crate::specs::Departures::inception))]
pub fn inception_of(
    scans: &[Scan],
    weights: Weights,
    step: u128,
    cycle: usize,
    from: usize,
    row: usize,
) -> usize
    requires within { row < length scans.now }
    requires some { 0 < cycle }
    requires back { cycle ≤ from }
    requires after { from ≤ row }
    requires step { step ≤ 2 ^ 64 }
    ensures value { result ≡ spec.inception scans.now weights step cycle from row }
    ensures after { from ≤ result }
    ensures before { result ≤ row }
{
    if row < 3 * cycle {
        return row;
    }
    let first = (row + 1 - cycle).max(from);
    match first_stir(scans, weights, step, cycle, row - 2 * cycle, first, row) {
        Some(stir) => stir,
        None => row,
    }
}
