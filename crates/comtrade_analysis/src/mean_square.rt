//! Mean squares.

ghost use Rattle.std.specs.Prelude.{◌<◌, ◌≤◌};

use crate::wide::Wide;

/// A mean square of values: sum / (count · 10^(2·places)).
#[derive(Clone, Copy, Debug, PartialEq, Eq)]
pub struct MeanSquare {
    /// The sum of the squares of the values, which are in units of 10^-places.
    pub sum: Wide,
    pub count: u64,
    pub places: u8,
    ghost some: { 0 < count },
    ghost few: { places ≤ 80 },
}

/// Why the rows of a window have no mean square.
#[derive(Clone, Copy, Debug, PartialEq, Eq)]
pub enum MeanFault {
    /// A reading is missing, or there is no row.
    Missing,
    /// A value can't be computed exactly, or the sum of the squares needs more than 192 bits.
    Digits,
}
