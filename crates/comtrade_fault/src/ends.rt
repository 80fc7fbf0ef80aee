//! Where a fault's current ends.

ghost use Rattle.std.specs.Prelude.{◌≡◌, ◌+◌, ◌-◌, ◌*◌, ◌/◌, ◌^◌, ◌≤◌, length};
ghost use Rattle.comtrade_fault.specs.Searches.{first_from};
ghost use Rattle.comtrade_fault.specs.Settling as spec;

use crate::bounds::Bounds;
use crate::form::{Form, most_over};
use crate::scan::{Scan, Signal, Weights};
use crate::sizes::size_from;

/// The row from which each phase keeps to its course after a disturbance, if there is one.
#[derive(Clone, Copy, Debug, PartialEq, Eq)]
pub struct Ends {
    pub a: Option<usize>,
    pub b: Option<usize>,
    pub c: Option<usize>,
}

/// Whether a phase is settled from a row on: its size in that cycle is at most half of `both`, and
/// in no row of the cycle its step over an eighth of a cycle differs from that a cycle later by
/// more than the bounds.
#[tactic(auto, unfolding(crate::specs::Settling::settled))]
fn is_settled(
    scans: &[Scan],
    weights: Weights,
    signal: Signal,
    bounds: Bounds,
    cycle: usize,
    both: u128,
    row: usize,
) -> bool
    requires within { row + spec.span cycle ≤ length scans.now }
    requires few { cycle ≤ 2 ^ 20 }
    requires step { bounds.step ≤ 2 ^ 64 }
    ensures { result ≡ spec.settled scans.now weights signal bounds cycle both row }
{
    let lag = cycle / 8;
    let form = Form::Change { lag, before: cycle };
    2 * size_from(scans, weights, signal, cycle, row) <= both
        && !bounds.is_exceeded_by(most_over(scans, weights, signal, form, row + cycle + lag, cycle))
}

/// The first of some rows, up to but without `end`, from which a phase is settled.
fn first_settled(
    scans: &[Scan],
    weights: Weights,
    signal: Signal,
    bounds: Bounds,
    cycle: usize,
    both: u128,
    first: usize,
    end: usize,
) -> Option<usize>
    requires within { end ≤ length scans.now + 1 - spec.span cycle }
    requires few { cycle ≤ 2 ^ 20 }
    requires step { bounds.step ≤ 2 ^ 64 }
    ensures { result ≡ first_from (spec.settled scans.now weights signal bounds cycle both) first (end - first) }
{
    for row in first..end {
        if is_settled(scans, weights, signal, bounds, cycle, both, row) {
            return Some(row);
        }
    }
    None
}

/// The first row from a row on from which a phase is settled; None where it does not rise at the
/// row, and where the rows that this takes are no longer there.
#[tactic(auto, unfolding(crate::specs::Settling::end_of))]
fn end_of(
    scans: &[Scan],
    weights: Weights,
    signal: Signal,
    bounds: Bounds,
    cycle: usize,
    row: usize,
) -> Option<usize>
    requires within { row + cycle ≤ length scans.now }
    requires back { cycle ≤ row }
    requires few { cycle ≤ 2 ^ 20 }
    requires step { bounds.step ≤ 2 ^ 64 }
    ensures { result ≡ spec.end_of scans.now weights bounds cycle row signal }
{
    let before = size_from(scans, weights, signal, cycle, row - cycle);
    let after = size_from(scans, weights, signal, cycle, row);
    if after <= before {
        return None;
    }
    let both = before + after;
    let span = 2 * cycle + cycle / 8;
    let end = if scans.len() < span {
        0
    } else {
        scans.len() - span + 1
    };
    first_settled(scans, weights, signal, bounds, cycle, both, row, end)
}

/// Where each phase is settled after a disturbance that begins at a row.
pub fn ends_after(
    scans: &[Scan],
    weights: Weights,
    bounds: Bounds,
    cycle: usize,
    row: usize,
) -> Ends
    requires within { row + cycle ≤ length scans.now }
    requires back { cycle ≤ row }
    requires few { cycle ≤ 2 ^ 20 }
    requires step { bounds.step ≤ 2 ^ 64 }
    ensures value { result ≡ spec.ends_after scans.now weights bounds cycle row }
{
    Ends {
        a: end_of(scans, weights, Signal::A, bounds, cycle, row),
        b: end_of(scans, weights, Signal::B, bounds, cycle, row),
        c: end_of(scans, weights, Signal::C, bounds, cycle, row),
    }
}
