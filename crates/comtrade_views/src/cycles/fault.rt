//! Why rows cannot be measured.

use comtrade_format::CycleFault;
use comtrade_values::Memory;
use std::alloc::AllocError;
use thiserror::Error;

/// Why rows cannot be measured.
#[derive(Clone, Copy, Debug, PartialEq, Eq, Error)]
pub enum MeasureFault {
    /// An allocation failed.
    #[error("out of memory")]
    Memory(#[from(alloc)] AllocError),
    /// The line frequency is not above 0 (C37.111-1999, 5.3.5).
    #[error("the configuration file gives no line frequency, so no cycles can be measured")]
    NoFrequency,
    /// No rate gives the times of rows (5.3.6).
    #[error("the configuration file gives no sampling rate: cycles cannot be measured from stamps alone")]
    NoRate,
    /// The rows have more than one rate.
    #[error("the rows have several rates: choose a window within one of them")]
    ManyRates,
    /// The rows of a cycle are not a quotient of two numbers of 64 bits.
    #[error("the rate and the line frequency have too many digits")]
    Digits,
    /// There are fewer than 3 rows per cycle.
    #[error("the rate gives fewer than 3 rows per cycle")]
    Slow,
    /// There are fewer than 8 rows per cycle.
    #[error("the rate gives fewer than 8 rows per cycle: too few to find the fault inception")]
    Coarse,
    /// There are this many rows, and a cycle has more.
    #[error("too few rows at one rate: {0}; a whole cycle has {1}")]
    Short(u64, u128),
    /// No measured channel has this name or number.
    #[error("no analogue channel has the name or number of the reference")]
    NoReference,
    /// The names of phases aren't those of three channels of one unit.
    #[error("--phases expects three different analogue channels of one unit, joined by commas")]
    NoPhases,
    /// No channel has a steady signal over two cycles.
    #[error("the frequency cannot be measured: no steady signal over the last two cycles")]
    NoSteady,
    /// The reference has no angle.
    #[error("the reference has no angle: a reading is missing, or it has no fundamental")]
    NoAngle,
}

impl From<CycleFault> for MeasureFault {
    fn from(fault: CycleFault) -> MeasureFault {
        match fault {
            CycleFault::NoFrequency => MeasureFault::NoFrequency,
            CycleFault::NoRate => MeasureFault::NoRate,
            CycleFault::Digits => MeasureFault::Digits,
            CycleFault::Slow => MeasureFault::Slow,
        }
    }
}

impl From<Memory> for MeasureFault {
    fn from(_error: Memory) -> MeasureFault {
        MeasureFault::Memory(AllocError)
    }
}
