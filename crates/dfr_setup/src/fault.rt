//! Why a detector is refused.

ghost use Rattle.std.specs.Prelude.{◌≡◌};
ghost use Rattle.dfr_setup.specs.Refusing as spec;
ghost use Rattle.dfr_setup.specs.declared.fault.DetectorRefusal.TheVariants as refusal;

use comtrade_values::Memory;
use std::alloc::{AllocError, AllocFailed};
use thiserror::Error;

/// What is wrong with a `detect` line, or with a detector of it.
#[derive(Clone, Copy, Debug, PartialEq, Eq, Error)]
pub enum DetectorFault {
    /// The words are not those of a detector.
    #[error("detect expects: NAME KIND LEVEL of CHANNELS [for N] [reset LEVEL] [window N], and for \
         a frequency [cycles N] least LEVEL, for a harmonic or unbalance least LEVEL; LEVEL is \
         NUMBER or NUMBER of NUMBER UNIT")]
    Words,
    /// A number can't be read, or a part of a quantity has over 36 digits or 80 places.
    #[error("a number of the detector cannot be read")]
    Number,
    /// The name can't be that of a status channel, or is a number.
    #[error("the detector's name is a number, or has over 64 characters or a comma")]
    Name,
    /// Another status channel has this name.
    #[error("another status channel has the detector's name")]
    Twice,
    /// There are 256 status channels already.
    #[error("more than 256 status channels, with the detectors")]
    Channels,
    /// No analogue channel has this number or id.
    #[error("an unknown analogue channel")]
    Channel,
    /// The rms value, the frequency or a wave of a channel with an offset.
    #[error("an rms value, a frequency or a wave of a channel with an offset")]
    Offset,
    /// The channels of a sum have different multipliers.
    #[error("a sum of channels with unequal multipliers")]
    Unequal,
    /// The unit of a level is not that of the channels, Hz or Hz/s of a frequency, or % of a share.
    #[error("a level's unit is not that of the channels, Hz of a frequency, Hz/s of its change, or % \
         of a share")]
    Unit,
    /// A sum of more than 256 channels.
    #[error("a sum of more than 256 channels")]
    Wide,
    /// A sequence is not one of three channels.
    #[error("a sequence needs three channels, as UA+UB+UC")]
    Phases,
    /// The level is below one sample or one mHz, or beyond what samples can reach.
    #[error("the level is below one sample, or beyond what the samples can reach")]
    Level,
    /// The same of the reset level.
    #[error("the reset level is below one sample, or beyond what the samples can reach")]
    Reset,
    /// The reset level lies on the wrong side of the level.
    #[error("the reset level lies above the level, or below it for `under`")]
    Side,
    /// The least half wave or rms value is below one sample, or beyond what samples can reach.
    #[error("the least level is below one sample, or beyond what the samples can reach")]
    Least,
    /// There is no such harmonic.
    #[error("the order of a harmonic is 2 to 5")]
    Order,
    /// The period of a wave has too few scans, or too many.
    #[error("the window of a harmonic or a sequence is not 12 to 4096 scans")]
    Period,
    /// A frequency is taken over no cycle, or over too many.
    #[error("a frequency is taken over 1 to 64 cycles")]
    Cycles,
    /// The rate is beyond that of a frequency.
    #[error("a frequency needs a rate of 1 to 1000000")]
    Rate,
    /// The cycles of a frequency don't lie in the window.
    #[error("the window is shorter than the cycles at the frequency of a level")]
    Short,
    /// The window is not 1 to 65,536 scans.
    #[error("the window is not 1 to 65536 scans")]
    Window,
    /// The level has to be met for no scan.
    #[error("the level has to be met for at least 1 scan")]
    Row,
}

/// The value, or the fault if there is none.
pub(crate) fn needed<T>(value: Option<T>, fault: DetectorFault) -> Result<T, DetectorFault>
    ensures { result ≡ spec.needed value fault }
{
    match value {
        Some(value) => Ok(value),
        None => Err(fault),
    }
}

/// Why a detector was not made.
#[derive(Clone, Copy, Debug, PartialEq, Eq)]
pub enum DetectorRefusal {
    /// What is wrong with it.
    Fault(DetectorFault),
    /// An allocation failed.
    Memory,
}

impl From<DetectorFault> for DetectorRefusal {
    ghost from_gives = { λ fault e. e ≡ refusal.Fault fault };

    fn from(fault: DetectorFault) -> DetectorRefusal {
        DetectorRefusal::Fault(fault)
    }
}

impl From<Memory> for DetectorRefusal {
    ghost from_gives = { λ _ e. e ≡ refusal.Memory };

    fn from(_error: Memory) -> DetectorRefusal {
        DetectorRefusal::Memory
    }
}

impl From<AllocError> for DetectorRefusal {
    ghost from_gives = { λ _ e. e ≡ refusal.Memory };

    fn from(_error: AllocError) -> DetectorRefusal {
        DetectorRefusal::Memory
    }
}

impl<T: Drop> From<AllocFailed<T>> for DetectorRefusal {
    ghost from_gives = { λ _ e. e ≡ refusal.Memory };

    fn from(_error: AllocFailed<T>) -> DetectorRefusal {
        DetectorRefusal::Memory
    }
}
