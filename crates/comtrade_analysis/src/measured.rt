//! What is measured of a signal over whole cycles.

use crate::phasor::Phasor;
use std::alloc::{Allocator, Global};

/// What was measured of a channel over whole cycles, in its unit.
#[derive(Debug, Drop)]
pub struct Measured<A: Allocator = Global> {
    /// The square root of the mean square.
    pub rms: f64,
    /// The rms value and the angle of the fundamental; the angle is that of a cosine at the
    /// window's first row.
    pub phasor: Phasor,
    /// The dc component: its mean, and how far it falls over the rows where it decays.
    pub dc: f64,
    pub fall: Option<f64>,
    /// The value farthest from 0 (the first one, if several are equal), and the index of its row.
    pub peak: f64,
    pub peak_row: usize,
    /// The rms value of what dc, its fall and the orders leave of the signal, and the size of a
    /// step of the samples.
    pub residual: f64,
    pub step: f64,
    /// The rms values of the orders 1, 2, .., at most 25 and less than half the rows of a cycle.
    pub orders: Vec<f64, A>,
}

impl<A: Allocator> Measured<A> {
    /// Whether the fundamental exceeds a 10^9th of the peak; else its angle is meaningless.
    pub fn has_angle(&self) -> bool {
        self.peak.abs() * 1e-9 < self.phasor.magnitude()
    }
}
