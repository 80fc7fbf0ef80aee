//! What a difference between cycles must exceed to be a departure.

ghost use Rattle.std.specs.Prelude.{◌≡◌, ◌*◌, ◌^◌, ◌≤◌, length};
ghost use Rattle.comtrade_fault.specs.Bounding as spec;

use crate::form::{Form, most_over};
use crate::scan::{Scan, Signal, Weights};

/// The greatest magnitude of the phases in the first cycle and in all rows, and the greatest step
/// that one sample can make.
#[derive(Clone, Copy, Debug, PartialEq, Eq)]
pub struct Bounds {
    pub first: u128,
    pub all: u128,
    pub step: u128,
}

/// The greatest magnitude of a phase over the first rows.
fn most_of(scans: &[Scan], weights: Weights, rows: usize) -> u128
    requires { rows ≤ length scans.now }
    ensures { result ≡ spec.peak scans.now weights rows }
{
    let a = most_over(scans, weights, Signal::A, Form::Size, 0, rows);
    let b = most_over(scans, weights, Signal::B, Form::Size, 0, rows);
    let c = most_over(scans, weights, Signal::C, Form::Size, 0, rows);
    a.max(b).max(c)
}

impl Bounds {
    /// The bounds of three phases.
    #[tactic(auto, unfolding(crate::specs::Bounding::bounds_of))]
    pub fn of(scans: &[Scan], weights: Weights, cycle: usize) -> Bounds
        requires { cycle ≤ length scans.now }
        ensures value { result ≡ spec.bounds_of scans.now weights cycle }
        ensures small { result.step ≤ 2 ^ 64 }
    {
        Bounds {
            first: most_of(scans, weights, cycle),
            all: most_of(scans, weights, scans.len()),
            step: weights.a.max(weights.b).max(weights.c) as u128,
        }
    }

    /// Whether a difference is more than a quarter of the first cycle's greatest magnitude, a
    /// fiftieth of the greatest of all, and four steps.
    #[tactic(auto, unfolding(crate::specs::Bounding::exceeds))]
    pub fn is_exceeded_by(self, difference: u128) -> bool
        requires small { difference ≤ 2 ^ 100 }
        requires step { self.step ≤ 2 ^ 64 }
        ensures { result ≡ spec.exceeds self difference }
    {
        self.first < 4 * difference && self.all < 50 * difference && 4 * self.step < difference
    }
}
