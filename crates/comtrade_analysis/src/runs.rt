//! Runs of rows.

ghost use Rattle.std.specs.Prelude.{◌+◌, ◌^◌, ◌<◌};

/// A run of rows without a sample, which no row before or after it makes longer. Rows count from 0.
#[derive(Clone, Copy, Debug, PartialEq, Eq)]
pub struct Gap {
    pub first: usize,
    /// The number of rows.
    pub rows: usize,
    ghost some: { 0 < rows },
    ghost fits: { first + rows < 2 ^ 64 },
}

/// A run of rows in which readings are missing, which no row before or after it makes longer. Rows
/// count from 0.
#[derive(Clone, Copy, Debug, PartialEq, Eq)]
pub struct Outage {
    pub first: usize,
    /// The number of rows.
    pub rows: usize,
    /// The greatest number of readings that are missing in one of the rows.
    pub channels: usize,
    ghost some: { 0 < rows },
    ghost fits: { first + rows < 2 ^ 64 },
}
