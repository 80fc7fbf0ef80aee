//! A dc part that decays, as after a fault inception: a straight line beside the constant dc part.

ghost use Rattle.std.specs.Prelude.{◌≡◌, ◌<◌, ◌≤◌, ◌-◌, IsTrue};

use crate::matrix::{Matrix, at, zeros};
use crate::turning::{Turning, add_row};
use comtrade_format::Cycle;
use std::alloc::{AllocError, Allocator};
use std::num::nearest_usize_to_f64;

/// The fewest rows beyond the unknowns of the fit that tell a line from the orders.
const ROWS: usize = 12;

/// The least mean of a dc part with a line, as a share of the peak; and the mean from which on no
/// sine of another frequency has it.
const SMALL: f64 = 0.03;

const LARGE: f64 = 0.12;

/// The least fall of the dc part over the window, as a share of the peak; and the greatest one, in
/// means, that a line describes.
const FLATTEST: f64 = 0.001;

const STEEPEST: f64 = 2.0;

/// The squares that a line must explain, of those that are left for each row.
const CLEAR: f64 = 40.0;

/// A sine of another frequency bends more than a decay does: what is left of it, by the fall over
/// the mean.
const BEND: f64 = 0.04;

/// The line through a window's rows, from 1/2 before them to 1/2 after them, by its part that the
/// dc part and the orders leave.
#[derive(Drop)]
pub(crate) struct Line<A: Allocator> {
    /// The parts of the fit's functions that come nearest to the line.
    parts: Vec<f64, A>,
    /// The sum of squares of the rest.
    left: f64,
    rows: usize,
}

/// What is known of a signal whose dc part may decay.
#[derive(Clone, Copy)]
pub(crate) struct Decay {
    /// The mean of its dc part, and how far that falls from the window's begin to its end.
    pub(crate) mean: f64,
    pub(crate) fall: f64,
    /// The sums of squares that the fit leaves without the line, and with it.
    pub(crate) before: f64,
    pub(crate) after: f64,
    /// The rows beyond the unknowns, one of which is the line.
    pub(crate) spare: usize,
    pub(crate) peak: f64,
}

impl<A: Allocator + Copy> Line<A> {
    /// The line through these rows, by the factored matrix of the fit.
    pub(crate) fn new(
        alloc: A,
        cycle: Cycle,
        rows: usize,
        matrix: &Matrix<A>,
    ) -> Result<Line<A>, AllocError>
        requires some { 0 < cycle.rows }
        requires slow { cycle.cycles ≤ cycle.rows }
    {
        let mut sums = zeros(alloc, matrix.side)?;
        let mut squares = 0.0;
        let mut turning = Turning::new(cycle);
        for row in 0..rows {
            let height = height_at(row, rows);
            add_row(&mut sums, turning.phasor(), height);
            squares += height * height;
            turning = turning.next();
        }
        let mut parts = Vec::from_slice(alloc, &sums)?;
        matrix.solve(&mut parts);
        let mut left = squares;
        for (i, sum) in sums.iter().enumerate() {
            left -= sum * at(&parts, i);
        }
        Ok(Line { parts, left, rows })
    }
}

impl<A: Allocator> Line<A> {
    /// The part of the line in a signal, whose products with the line and with the fit's functions
    /// have these sums.
    pub(crate) fn part(&self, product: f64, sums: &[f64]) -> f64 {
        let mut rest = product;
        for (i, sum) in sums.iter().enumerate() {
            rest -= sum * at(&self.parts, i);
        }
        rest / self.left
    }

    /// What is known of a signal: the part of the line in it, what the fit leaves without the line,
    /// the mean of its dc part, and its peak.
    pub(crate) fn decay(&self, part: f64, before: f64, mean: f64, peak: f64) -> Decay {
        let explained = part * part * self.left;
        Decay {
            mean,
            fall: -part,
            before,
            after: (before - explained).max(0.0),
            spare: spare_rows(self.rows, self.parts.len()),
            peak: peak.abs(),
        }
    }

    /// The part of a function of the fit where the line is taken as well.
    pub(crate) fn less(&self, part: f64, place: usize) -> f64 {
        part * at(&self.parts, place)
    }
}

/// The height of a line of so many rows at one of them: -1/2 at the begin, 1/2 at the end.
pub(crate) fn height_at(row: usize, rows: usize) -> f64 {
    let middle = nearest_usize_to_f64(rows) / 2.0 - 0.5;
    (nearest_usize_to_f64(row) - middle) / nearest_usize_to_f64(rows)
}

/// The rows beyond so many unknowns and the line.
fn spare_rows(rows: usize, unknowns: usize) -> usize
    ensures { result ≡ rows - unknowns - 1 }
{
    match rows.checked_sub(unknowns) {
        Some(more) if more != 0 => more - 1,
        _ => 0,
    }
}

impl Decay {
    /// Whether the signal bends less than a sine of another frequency with the same mean: with the
    /// line the residual is at most a third, and also by the fall over the mean.
    fn is_straight(self) -> bool {
        let (fall, mean) = (self.fall * self.fall, self.mean * self.mean);
        9.0 * self.after <= self.before && self.after * fall <= BEND * BEND * self.before * mean
    }

    /// Whether the dc part is taken as a line: it decays, and the rows show that clearly.
    pub(crate) fn is_line(self) -> bool
        ensures rows { IsTrue result → 12 ≤ self.spare }
    {
        let mean = self.mean.abs();
        let explained = (self.before - self.after) * nearest_usize_to_f64(self.spare);
        ROWS <= self.spare
            && 0.0 < self.mean * self.fall
            && FLATTEST * self.peak <= self.fall.abs()
            && self.fall.abs() <= STEEPEST * mean
            && SMALL * self.peak <= mean
            && CLEAR * self.after <= explained
            && (LARGE * self.peak <= mean || self.is_straight())
    }
}
