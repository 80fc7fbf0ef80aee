//! How large the quantities are in the cycle before a row and in the cycle from it on.

ghost use Rattle.std.specs.Prelude.{◌≡◌, ◌+◌, ◌*◌, ◌^◌, ◌<◌, ◌≤◌, length};
ghost use Rattle.comtrade_fault.specs.Sizing as spec;

use crate::form::{Form, sum_over};
use crate::scan::{Scan, Signal, Weights};
use crate::turn::{Remainder, turn_over};

/// One number for each phase.
#[derive(Clone, Copy, Debug, PartialEq, Eq)]
pub struct Phases {
    pub a: u128,
    pub b: u128,
    pub c: u128,
}

/// One number for each quantity of three phases.
#[derive(Clone, Copy, Debug, PartialEq, Eq)]
pub struct Changes {
    pub a: u128,
    pub b: u128,
    pub c: u128,
    pub ab: u128,
    pub bc: u128,
    pub ca: u128,
    pub earth: u128,
}

/// The sizes of three phases around a row: of the cycle before it, of the cycle from it on, and of
/// the difference between the two (the superimposed quantities).
#[derive(Clone, Copy, Debug, PartialEq, Eq)]
pub struct Sizes {
    pub before: Phases,
    pub after: Phases,
    pub change: Changes,
}

/// Half a cycle of so many rows, rounded up.
fn half_of(cycle: usize) -> usize
    ensures { result ≡ spec.half cycle }
{
    cycle - cycle / 2
}

/// A quarter of a cycle of so many rows, to the nearest row.
fn quarter_of(cycle: usize) -> usize
    requires { cycle ≤ 2 ^ 20 }
    ensures { result ≡ spec.quarter cycle }
{
    (cycle + 2) / 4
}

#[tactic(auto, unfolding(crate::specs::Sizing::size_from))]
/// The size of a quantity in the cycle from a row on: the sum of its steps over half a cycle. A
/// constant part adds nothing, and where in the cycle the row lies plays no part.
pub(crate) fn size_from(
    scans: &[Scan],
    weights: Weights,
    signal: Signal,
    cycle: usize,
    row: usize,
) -> u128
    requires within { row + cycle ≤ length scans.now }
    requires few { cycle ≤ 2 ^ 20 }
    ensures value { result ≡ spec.size_from scans.now weights cycle row signal }
    ensures small { result ≤ spec.limit }
{
    let half = half_of(cycle);
    let form = Form::Step { lag: half };
    sum_over(scans, weights, signal, form, row + half, cycle - half)
}

/// The size of the difference between the cycle from a row on and the exact cycle before. With the
/// cycle in whole rows, what a quiet voltage turns in a fraction of a row would count as a change.
#[tactic(auto, unfolding(crate::specs::Sizing::change_at))]
fn change_at(
    scans: &[Scan],
    weights: Weights,
    signal: Signal,
    cycle: usize,
    remainder: Remainder,
    row: usize,
) -> u128
    requires within { row + cycle ≤ length scans.now }
    requires some { 0 < cycle }
    requires back { cycle < row }
    requires few { cycle ≤ 2 ^ 20 }
    ensures value { result ≡ spec.change_at scans.now weights cycle remainder row signal }
    ensures small { result ≤ spec.limit }
{
    let half = half_of(cycle);
    let (first, rows) = (row + half, cycle - half);
    turn_over(scans, weights, signal, half, cycle, remainder, first, rows)
}

/// The size of a quantity's second harmonic in the cycle from a row on, on the scale of `size_from`.
#[tactic(auto, unfolding(crate::specs::Sizing::second_from))]
fn second_from(scans: &[Scan], weights: Weights, signal: Signal, cycle: usize, row: usize) -> u128
    requires within { row + cycle ≤ length scans.now }
    requires some { 8 ≤ cycle }
    requires few { cycle ≤ 2 ^ 20 }
    ensures value { result ≡ spec.second_from scans.now weights cycle row signal }
    ensures small { result ≤ spec.limit }
{
    let half = half_of(cycle);
    let quarter = quarter_of(cycle);
    let form = Form::Sum {
        lag: quarter,
        before: half,
    };
    let reach = half + quarter;
    sum_over(scans, weights, signal, form, row + reach, cycle - reach)
}

impl Phases {
    /// The greatest of the three.
    pub fn most(self) -> u128
        ensures { result ≡ spec.most_of self }
    {
        self.a.max(self.b).max(self.c)
    }

    /// The least of the three.
    pub fn least(self) -> u128
        ensures { result ≡ spec.least_of self }
    {
        self.a.min(self.b).min(self.c)
    }
}

impl Changes {
    /// Those of the phases.
    pub fn phases(self) -> Phases
        ensures a { result.a ≡ self.a }
        ensures b { result.b ≡ self.b }
        ensures c { result.c ≡ self.c }
    {
        Phases {
            a: self.a,
            b: self.b,
            c: self.c,
        }
    }
}

/// The sizes of the three phases in the cycle from a row on.
pub(crate) fn phases_from(scans: &[Scan], weights: Weights, cycle: usize, row: usize) -> Phases
    requires within { row + cycle ≤ length scans.now }
    requires few { cycle ≤ 2 ^ 20 }
    ensures value { result ≡ spec.phases (spec.size_from scans.now weights cycle row) }
    ensures small { spec.AreFew result }
{
    Phases {
        a: size_from(scans, weights, Signal::A, cycle, row),
        b: size_from(scans, weights, Signal::B, cycle, row),
        c: size_from(scans, weights, Signal::C, cycle, row),
    }
}

/// The second harmonics of the three phases in the cycle from a row on.
pub(crate) fn seconds_from(scans: &[Scan], weights: Weights, cycle: usize, row: usize) -> Phases
    requires within { row + cycle ≤ length scans.now }
    requires some { 8 ≤ cycle }
    requires few { cycle ≤ 2 ^ 20 }
    ensures value { result ≡ spec.phases (spec.second_from scans.now weights cycle row) }
    ensures small { spec.AreFew result }
{
    Phases {
        a: second_from(scans, weights, Signal::A, cycle, row),
        b: second_from(scans, weights, Signal::B, cycle, row),
        c: second_from(scans, weights, Signal::C, cycle, row),
    }
}

/// The differences between the cycle from a row on and the cycle before.
fn changes_at(
    scans: &[Scan],
    weights: Weights,
    cycle: usize,
    remainder: Remainder,
    row: usize,
) -> Changes
    requires within { row + cycle ≤ length scans.now }
    requires some { 0 < cycle }
    requires back { cycle < row }
    requires few { cycle ≤ 2 ^ 20 }
    ensures value { result ≡ spec.changes (spec.change_at scans.now weights cycle remainder row) }
    ensures small { spec.AreSmall result }
{
    Changes {
        a: change_at(scans, weights, Signal::A, cycle, remainder, row),
        b: change_at(scans, weights, Signal::B, cycle, remainder, row),
        c: change_at(scans, weights, Signal::C, cycle, remainder, row),
        ab: change_at(scans, weights, Signal::AB, cycle, remainder, row),
        bc: change_at(scans, weights, Signal::BC, cycle, remainder, row),
        ca: change_at(scans, weights, Signal::CA, cycle, remainder, row),
        earth: change_at(scans, weights, Signal::Earth, cycle, remainder, row),
    }
}

/// The sizes around a row.
pub fn sizes_around(
    scans: &[Scan],
    weights: Weights,
    cycle: usize,
    remainder: Remainder,
    row: usize,
) -> Sizes
    requires within { row + cycle ≤ length scans.now }
    requires some { 0 < cycle }
    requires back { cycle < row }
    requires few { cycle ≤ 2 ^ 20 }
    ensures value { result ≡ spec.sizes_around scans.now weights cycle remainder row }
    ensures small { spec.Fit result }
{
    Sizes {
        before: phases_from(scans, weights, cycle, row - cycle),
        after: phases_from(scans, weights, cycle, row),
        change: changes_at(scans, weights, cycle, remainder, row),
    }
}
