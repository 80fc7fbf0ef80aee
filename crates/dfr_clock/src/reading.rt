//! What is read off the clocks, and what it tells.

/// The clocks when scans came. Times are in microseconds.
#[derive(Clone, Copy, Debug, PartialEq, Eq)]
pub struct Reading {
    /// How many scans have come, lost ones too.
    pub scans: u64,
    /// The wall clock: microseconds since 1970-01-01 00:00:00 UTC.
    pub wall: u64,
    /// The monotonic clock, which nobody sets.
    pub mono: u64,
}

/// By how much the wall clock was set, in microseconds.
#[derive(Clone, Copy, Debug, PartialEq, Eq)]
pub enum Jump {
    /// It was set to a later instant.
    Forward(u128),
    /// It was set to an earlier instant.
    Back(u128),
}

/// What a reading tells.
#[derive(Clone, Copy, Debug, PartialEq, Eq)]
pub struct Answer {
    /// So many lost scans belong between the scans before and those that came with this reading.
    pub lost: u32,
    /// The wall clock was set since the reading before.
    pub jump: Option<Jump>,
}
