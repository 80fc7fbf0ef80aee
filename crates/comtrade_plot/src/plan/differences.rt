//! How much the values of one channel differ from those of another.

ghost use Rattle.std.specs.Prelude.{◌≡◌, ◌<◌, ◌+◌, ◌⊎◌, ◌^◌};

use std::num::nearest_u64_to_f64;

/// The differences of two channels: their number, the one farthest from 0, its time, and the sum of
/// their squares.
#[derive(Clone, Copy, Debug)]
pub struct Differences {
    pub count: u64,
    pub greatest: f64,
    pub time: i64,
    squares: f64,
}

impl Differences {
    /// No differences.
    pub fn none() -> Differences
        ensures { result.count ≡ 0 }
    {
        Differences {
            count: 0,
            greatest: 0.0,
            time: 0,
            squares: 0.0,
        }
    }

    /// Adds the difference at a time. Of differences of the same size, the first one stays the
    /// greatest.
    pub fn with(self, time: i64, difference: f64) -> Differences
        requires { self.count + 1 < 2 ^ 64 }
        ensures count { result.count ≡ self.count + 1 }
        ensures first { self.count ≡ 0 → (result.greatest ≡ difference) × (result.time ≡ time) }
        ensures one { ((result.greatest ≡ self.greatest) × (result.time ≡ self.time))
            ⊎ ((result.greatest ≡ difference) × (result.time ≡ time)) }
    {
        let is_greatest = self.count == 0 || self.greatest.abs() < difference.abs();
        Differences {
            count: self.count + 1,
            greatest: if is_greatest {
                difference
            } else {
                self.greatest
            },
            time: if is_greatest { time } else { self.time },
            squares: self.squares + difference * difference,
        }
    }

    /// The root of the mean of the squares; None without a difference.
    pub fn rms(self) -> Option<f64> {
        if self.count == 0 {
            return None;
        }
        Some((self.squares / nearest_u64_to_f64(self.count)).sqrt())
    }
}

/// The value on a straight line between two values, this part of the distance after the first.
pub fn between(from: f64, to: f64, part: u64, distance: u64) -> f64 {
    from + (to - from) * (nearest_u64_to_f64(part) / nearest_u64_to_f64(distance))
}
