//! The positions of times and values in the picture, in tenths of a pixel.

ghost use Rattle.std.specs.Prelude.{◌≡◌, ◌≤◌, ◌+◌, ◌≤ℤ◌, ◌-ℤ◌, ◌↔◌, IsTrue, unsigned_abs};

use crate::plan::down::Down;
use std::num::{nearest_u64_to_f64, saturating_f64_to_u32};

/// The left and right edges of panels, and the widths of panels and picture.
pub const LEFT: u32 = 760;

pub const RIGHT: u32 = 9160;

pub const ACROSS: u32 = 8400;

pub const WIDTH: u32 = 12000;

/// The times that are drawn, in nanoseconds since the trigger, or the numbers of the rows.
#[derive(Clone, Copy, Debug, PartialEq, Eq)]
pub struct Frame {
    pub from: i64,
    pub to: i64,
}

impl Frame {
    /// Whether a time is drawn.
    pub fn has(self, time: i64) -> bool
        ensures { IsTrue result ↔ (self.from ≤ℤ time) × (time ≤ℤ self.to) }
    {
        self.from <= time && time <= self.to
    }

    /// Its duration.
    pub fn span(self) -> u64
        ensures { result ≡ unsigned_abs (self.to -ℤ self.from) }
    {
        self.to.abs_diff(self.from)
    }

    /// The position of a time: within the panels, also where it is not drawn.
    pub fn across(self, time: i64) -> u32
        ensures left { 760 ≤ result }
        ensures right { result ≤ 9160 }
    {
        if time <= self.from {
            return LEFT;
        }
        let share = nearest_u64_to_f64(time.abs_diff(self.from))
            / nearest_u64_to_f64(self.span().max(1));
        // (the position of a time after the frame may be no u32; it is at the right edge)
        LEFT + saturating_f64_to_u32(share * 8400.0 + 0.5).min(ACROSS)
    }
}

/// A panel's upper edge and height, and the values at its edges.
#[derive(Clone, Copy, Debug)]
pub struct Panel {
    pub top: Down,
    pub height: Down,
    pub low: f64,
    pub high: f64,
}

impl Panel {
    /// The position of a value: within the panel, whatever the value.
    pub fn level(self, value: f64) -> Down
        ensures top { self.top.tenths ≤ result.tenths }
        ensures bottom { result.tenths ≤ self.top.tenths + self.height.tenths }
    {
        let share = (self.high - value) / (self.high - self.low);
        let height = nearest_u64_to_f64(u64::from(self.height.tenths));
        // (the position of a value outside the panel may be no u32; it is at the panel's edge)
        let down = saturating_f64_to_u32(share * height + 0.5);
        self.top.below(down.min(self.height.tenths))
    }
}
