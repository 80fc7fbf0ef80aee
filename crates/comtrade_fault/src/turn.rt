//! How far a step differs from what it was one cycle before, also where a cycle has no whole number
//! of rows: the value between rows is that of the parabola through the three nearest.

ghost use Rattle.std.specs.Prelude.{◌≡◌, ◌+◌, ◌*◌, ◌^◌, ◌<◌, ◌≤◌, length};
ghost use Rattle.comtrade_fault.specs.Turning as spec;

use crate::form::{Sides, step_at};
use crate::scan::{Scan, Signal, Weights};

/// By how many 256ths of a row a cycle is longer or shorter than its whole rows.
#[derive(Clone, Copy, Debug, PartialEq, Eq)]
pub struct Remainder {
    pub is_longer: bool,
    pub parts: u8,
}

/// So many times a number.
fn times(parts: u32, side: u128) -> u128
    requires few { parts ≤ 65536 }
    requires small { side ≤ 2 ^ 101 }
    ensures value { result ≡ parts * side }
    ensures small { result ≤ 65536 * side }
{
    parts as u128 * side
}

/// The row one cycle before a row, or next to it: the one towards the exact cycle.
fn far_row(remainder: Remainder, cycle: usize, row: usize) -> usize
    requires some { 0 < cycle }
    requires back { cycle < row }
    ensures value { result ≡ spec.far_row remainder cycle row }
    ensures within { result ≤ row }
    ensures back { row ≤ result + cycle + 1 }
{
    if remainder.is_longer {
        row - cycle - 1
    } else {
        row - cycle + 1
    }
}

/// The other one next to it.
fn near_row(remainder: Remainder, cycle: usize, row: usize) -> usize
    requires some { 0 < cycle }
    requires back { cycle < row }
    ensures value { result ≡ spec.near_row remainder cycle row }
    ensures within { result ≤ row }
    ensures back { row ≤ result + cycle + 1 }
{
    if remainder.is_longer {
        row - cycle + 1
    } else {
        row - cycle - 1
    }
}

/// Its sides, in 131072ths: of the step now less that an exact cycle before.
#[tactic(auto, unfolding(crate::specs::Turning::sides_of))]
fn sides_of(remainder: Remainder, now: Sides, middle: Sides, near: Sides, far: Sides) -> Sides
    requires now { spec.AreStep now }
    requires middle { spec.AreStep middle }
    requires near { spec.AreStep near }
    requires far { spec.AreStep far }
    ensures value { result ≡ spec.sides_of remainder now middle near far }
    ensures plus { result.plus ≤ 131072 * 2 ^ 101 }
    ensures minus { result.minus ≤ 131072 * 2 ^ 101 }
{
    let parts = remainder.parts as u32;
    let (first, second) = (256 * parts, parts * parts);
    let whole = times(65536, 2 * (now.plus + middle.minus));
    let turned = times(first, near.plus + far.minus);
    let bent = times(second, near.minus + far.minus + 2 * middle.plus);
    let against = times(65536, 2 * (now.minus + middle.plus));
    let against_turned = times(first, near.minus + far.plus);
    let against_bent = times(second, near.plus + far.plus + 2 * middle.minus);
    Sides {
        plus: whole + turned + bent,
        minus: against + against_turned + against_bent,
    }
}

/// The magnitude of the difference between a step over so many rows and that an exact cycle before.
#[tactic(auto, unfolding(crate::specs::Turning::turn))]
pub(crate) fn turn_at(
    scans: &[Scan],
    weights: Weights,
    signal: Signal,
    lag: usize,
    cycle: usize,
    remainder: Remainder,
    row: usize,
) -> u128
    requires within { row < length scans.now }
    requires some { 0 < cycle }
    requires back { lag + cycle < row }
    ensures value { result ≡ spec.turn scans.now weights signal lag cycle remainder row }
    ensures small { result ≤ 2 ^ 101 }
{
    let now = step_at(scans, weights, signal, lag, row);
    let middle = step_at(scans, weights, signal, lag, row - cycle);
    let near_place = near_row(remainder, cycle, row);
    let near = step_at(scans, weights, signal, lag, near_place);
    let far_place = far_row(remainder, cycle, row);
    let far = step_at(scans, weights, signal, lag, far_place);
    let sides = sides_of(remainder, now, middle, near, far);
    sides.plus.abs_diff(sides.minus) / 131072
}

/// The sum of these over so many rows from a row on.
#[tactic(auto, using(crate::proofs::MoreTurns::turns_more), unfolding(crate::specs::Turning::turns))]
pub(crate) fn turn_over(
    scans: &[Scan],
    weights: Weights,
    signal: Signal,
    lag: usize,
    cycle: usize,
    remainder: Remainder,
    first: usize,
    rows: usize,
) -> u128
    requires within { first + rows ≤ length scans.now }
    requires some { 0 < cycle }
    requires back { lag + cycle < first }
    requires few { rows ≤ 2 ^ 19 }
    ensures value { result ≡ spec.turns scans.now weights signal lag cycle remainder first rows }
    ensures small { result ≤ 2 ^ 101 * rows }
{
    let mut sum = 0;
    for i in 0..rows {
        sum += turn_at(scans, weights, signal, lag, cycle, remainder, first + i);
    }
    sum
}
