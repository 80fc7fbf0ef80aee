//! The length of a cycle in rows.

use crate::cycles::fault::MeasureFault;
use crate::cycles::window::Window;
use std::num::{nearest_u64_to_f64, nearest_usize_to_f64};

/// A cycle: its whole rows, and the remaining fraction of a row.
#[derive(Clone, Copy)]
pub(crate) struct Length {
    pub(crate) rows: usize,
    part: f64,
    /// The sum of both.
    all: f64,
    /// The part of a cycle that a row lasts.
    pub(crate) step: f64,
}

impl Length {
    pub(crate) fn of(window: Window) -> Result<Length, MeasureFault> {
        let Ok(rows) = usize::try_from(window.cycle.rows_in(1)) else {
            return Err(MeasureFault::Digits);
        };
        let part = window.cycle.part();
        let cycles = nearest_u64_to_f64(window.cycle.cycles);
        Ok(Length {
            rows,
            part,
            all: nearest_usize_to_f64(rows) + part,
            step: cycles / nearest_u64_to_f64(window.cycle.rows),
        })
    }

    /// The last row that has no whole cycle before it.
    pub(crate) fn last_within(self) -> usize {
        if 0.0 < self.part || self.rows == 0 {
            self.rows
        } else {
            self.rows - 1
        }
    }

    /// The index of the row one cycle before a row, or next to that instant and after it.
    pub(crate) fn back(self, row: usize) -> Option<usize> {
        row.checked_sub(self.rows)
    }

    /// The same for two cycles.
    pub(crate) fn twice_back(self, row: usize) -> Option<usize> {
        let near = self.back(self.back(row)?)?;
        if 1.0 <= self.part + self.part {
            near.checked_sub(1)
        } else {
            Some(near)
        }
    }

    /// The value one cycle before a row, interpolated linearly between the two rows next to that
    /// instant.
    pub(crate) fn earlier(self, near: Option<f64>, far: Option<f64>) -> Option<f64> {
        between(self.part, near, far)
    }

    /// The value two cycles before a row.
    pub(crate) fn twice_earlier(self, near: Option<f64>, far: Option<f64>) -> Option<f64> {
        let part = self.part + self.part;
        between(if 1.0 <= part { part - 1.0 } else { part }, near, far)
    }

    /// The mean square of a cycle, from the sum of squares of its whole rows and the value of the
    /// row of which it has a fraction.
    pub(crate) fn mean_square(self, sum: f64, value: Option<f64>) -> Option<f64> {
        if 0.0 < self.part {
            let value = value?;
            Some((sum.max(0.0) + value * value * self.part) / self.all)
        } else {
            Some(sum.max(0.0) / self.all)
        }
    }
}

/// The value a fraction of a row before a row with a value, where the row before it has the other.
fn between(part: f64, near: Option<f64>, far: Option<f64>) -> Option<f64> {
    let near = near?;
    if 0.0 < part {
        Some(near * (1.0 - part) + far? * part)
    } else {
        Some(near)
    }
}
