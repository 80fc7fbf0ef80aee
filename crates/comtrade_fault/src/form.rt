//! How large a quantity is, or how far it differs from what it was: in a row, and over rows.

ghost use Rattle.std.specs.Prelude.{◌≡◌, ◌+◌, ◌*◌, ◌^◌, ◌<◌, ◌≤◌, length};
ghost use Rattle.comtrade_fault.specs.Levels as spec;

use crate::scan::{NOTHING, Scan, Signal, Weights, minus_of, plus_of};

/// What is taken of the values x of a quantity. Rows k count from 0.
#[derive(Clone, Copy, Debug, PartialEq, Eq)]
pub enum Form {
    /// x(k).
    Size,
    /// x(k) - x(k - lag).
    Step { lag: usize },
    /// The step at k less the step so many rows before: what a waveform that repeats has not.
    Change { lag: usize, before: usize },
    /// The step at k and the step so many rows before, together.
    Sum { lag: usize, before: usize },
}

/// What counts for a quantity and what counts against it: its value is the difference.
#[derive(Clone, Copy)]
pub(crate) struct Sides {
    pub(crate) plus: u128,
    pub(crate) minus: u128,
}

/// The sides of a value in a row.
#[tactic(auto, unfolding(crate::specs::Levels::value_at))]
fn value_at(scans: &[Scan], weights: Weights, signal: Signal, row: usize) -> Sides
    requires { row < length scans.now }
    ensures value { result ≡ spec.value_at scans.now weights signal row }
    ensures plus { result.plus ≤ 3 * 2 ^ 96 }
    ensures minus { result.minus ≤ 3 * 2 ^ 96 }
{
    Sides {
        plus: plus_of(weights, signal, scans[row]),
        minus: minus_of(weights, signal, scans[row]),
    }
}

/// The sides of the value in a row less that so many rows before.
#[tactic(auto, unfolding(crate::specs::Levels::step_at))]
pub(crate) fn step_at(
    scans: &[Scan],
    weights: Weights,
    signal: Signal,
    lag: usize,
    row: usize,
) -> Sides
    requires within { row < length scans.now }
    requires back { lag ≤ row }
    ensures value { result ≡ spec.step_at scans.now weights signal lag row }
    ensures plus { result.plus ≤ 6 * 2 ^ 96 }
    ensures minus { result.minus ≤ 6 * 2 ^ 96 }
{
    let now = value_at(scans, weights, signal, row);
    let then = value_at(scans, weights, signal, row - lag);
    Sides {
        plus: now.plus + then.minus,
        minus: now.minus + then.plus,
    }
}

/// The sides of a form in a row.
#[tactic(auto, unfolding(crate::specs::Levels::form_at))]
fn form_at(scans: &[Scan], weights: Weights, signal: Signal, form: Form, row: usize) -> Sides
    requires within { row < length scans.now }
    requires back { spec.reach form ≤ row }
    ensures value { result ≡ spec.form_at scans.now weights signal form row }
    ensures plus { result.plus ≤ 12 * 2 ^ 96 }
    ensures minus { result.minus ≤ 12 * 2 ^ 96 }
{
    match form {
        Form::Size => {
            let now = value_at(scans, weights, signal, row);
            Sides {
                plus: now.plus + minus_of(weights, signal, NOTHING),
                minus: now.minus + plus_of(weights, signal, NOTHING),
            }
        }
        Form::Step { lag } => step_at(scans, weights, signal, lag, row),
        Form::Change { lag, before } => {
            let now = step_at(scans, weights, signal, lag, row);
            let then = step_at(scans, weights, signal, lag, row - before);
            Sides {
                plus: now.plus + then.minus,
                minus: now.minus + then.plus,
            }
        }
        Form::Sum { lag, before } => {
            let now = step_at(scans, weights, signal, lag, row);
            let then = step_at(scans, weights, signal, lag, row - before);
            Sides {
                plus: now.plus + then.plus,
                minus: now.minus + then.minus,
            }
        }
    }
}

/// The magnitude of a form in a row, in steps.
#[tactic(auto, unfolding(crate::specs::Levels::level))]
pub fn level(scans: &[Scan], weights: Weights, signal: Signal, form: Form, row: usize) -> u128
    requires within { row < length scans.now }
    requires back { spec.reach form ≤ row }
    ensures value { result ≡ spec.level scans.now weights signal form row }
    ensures small { result ≤ 2 ^ 100 }
{
    let sides = form_at(scans, weights, signal, form, row);
    sides.plus.abs_diff(sides.minus)
}

/// The sum of the magnitudes over so many rows from a row on.
#[tactic(auto, using(crate::proofs::MoreRows::sum_more), unfolding(crate::specs::Levels::sum_over))]
pub fn sum_over(
    scans: &[Scan],
    weights: Weights,
    signal: Signal,
    form: Form,
    first: usize,
    rows: usize,
) -> u128
    requires within { first + rows ≤ length scans.now }
    requires back { spec.reach form ≤ first }
    requires few { rows ≤ 2 ^ 20 }
    ensures value { result ≡ spec.sum_over scans.now weights signal form first rows }
    ensures small { result ≤ 2 ^ 100 * rows }
{
    let mut sum = 0;
    for i in 0..rows {
        sum += level(scans, weights, signal, form, first + i);
    }
    sum
}

/// The greatest magnitude over so many rows from a row on; 0 of no rows.
#[tactic(auto, using(crate::proofs::MoreRows::most_more), unfolding(crate::specs::Levels::most_over))]
pub fn most_over(
    scans: &[Scan],
    weights: Weights,
    signal: Signal,
    form: Form,
    first: usize,
    rows: usize,
) -> u128
    requires within { first + rows ≤ length scans.now }
    requires back { spec.reach form ≤ first }
    ensures value { result ≡ spec.most_over scans.now weights signal form first rows }
    ensures small { result ≤ 2 ^ 100 }
{
    let mut most = 0;
    for i in 0..rows {
        most = most.max(level(scans, weights, signal, form, first + i));
    }
    most
}
