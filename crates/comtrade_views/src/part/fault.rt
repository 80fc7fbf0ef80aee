//! Why the part that is asked for cannot be taken.

use comtrade_values::Memory;
use std::alloc::{AllocError, AllocFailed};
use thiserror::Error;

/// Why the part that is asked for cannot be taken.
#[derive(Clone, Copy, Debug, PartialEq, Eq, Error)]
pub enum PartFault<'a> {
    /// An allocation failed.
    #[error("out of memory")]
    Memory,
    /// A text is not a moment.
    #[error("\"{0}\" is not a valid time; use ms since the trigger (-20), an instant (2024-07-01T10:30:00.35) or row N")]
    Moment(&'a str),
    /// Neither rates nor stamps give the times of rows.
    #[error("the record does not say when its rows were taken: use row N")]
    Timeless,
    /// No row lies between the two moments.
    #[error("no row lies between the two moments")]
    NoRow,
    /// No channel has this name.
    #[error("no channel is called \"{0}\"")]
    NoChannel(&'a str),
    /// The names leave no channel.
    #[error("no channel is left")]
    Empty,
    /// Both sides are asked for.
    #[error("values can be primary or secondary, not both")]
    Sides,
    /// The ratio of the channel with this number, from 1, does not allow the conversion.
    #[error("the ratio of analogue channel {0} cannot convert its values to the other side")]
    Ratio(u64),
}

impl<'a> From<AllocError> for PartFault<'a> {
    fn from(_error: AllocError) -> PartFault<'a> {
        PartFault::Memory
    }
}

impl<'a> From<Memory> for PartFault<'a> {
    fn from(_error: Memory) -> PartFault<'a> {
        PartFault::Memory
    }
}

impl<'a, T: Drop> From<AllocFailed<T>> for PartFault<'a> {
    fn from(_error: AllocFailed<T>) -> PartFault<'a> {
        PartFault::Memory
    }
}
