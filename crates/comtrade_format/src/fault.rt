//! The errors of the writers.

ghost use Rattle.std.specs.Prelude.{◌≡◌};
ghost use Rattle.comtrade_format.specs.declared.fault.WriteFault.TheVariants.{Memory};

use std::alloc::AllocError;
use thiserror::Error;

/// Why a file can't be written. The checks run in the order of the variants. Of one variant, the
/// lowest line is reported, then the lowest field; or the lowest row, then the lowest channel. All
/// of them count from 1.
#[derive(Clone, Copy, Debug, PartialEq, Eq, Error)]
pub enum WriteFault {
    /// The parts of the file contradict each other or exceed a limit:
    ///
    /// - the number of channels isn't 1 to 999,999;
    /// - `nrates` is over 999;
    /// - `rates` doesn't have `nrates` entries, or one if `nrates` is 0 (5.3.6);
    /// - an `endsamp` is below the one before it or over 9,999,999,999;
    /// - the number of rows isn't the last `endsamp`;
    /// - a row doesn't have one value per analogue channel and one bit per status channel;
    /// - an instant is outside the years 1 to 9999;
    /// - a `min` or `max` is outside -99,999 to 99,999 (5.3.3).
    #[error("the parts of the file do not fit each other")]
    Shape,
    /// Only from `cfg_bytes`: line and field of a text that the file can't hold. A text has bytes
    /// 20 to 7E (hexadecimal) without a comma, and no blank at either end. Station, device, id and
    /// component have at most 64 bytes, a phase has at most 2, and a unit has 1 to 32 (5.3.1,
    /// 5.3.3, 5.3.4).
    #[error("line {0}, field {1} of the configuration file: the text cannot be written there")]
    Text(u64, u32),
    /// Only from the data writers: row and channel of a value out of range. The range is -99,999 to
    /// 99,998 for ASCII and -32,767 to 32,767 for BINARY (clause 6).
    #[error("row {0}: the data file cannot hold the value of channel {1}")]
    Value(u64, u32),
    /// Only from the data writers: the row whose number or time stamp is too large. Both are at
    /// most 9,999,999,999 in ASCII. In BINARY the number is at most 4,294,967,295, the stamp
    /// 4,294,967,294 (clause 6).
    #[error("row {0}: the data file cannot hold the row's number or time stamp")]
    Stamp(u64),
    /// An allocation failed. The file may have another error as well.
    #[error("out of memory")]
    Memory,
}

impl From<AllocError> for WriteFault {
    ghost from_gives = { λ _ e. e ≡ Memory };

    fn from(_error: AllocError) -> WriteFault {
        WriteFault::Memory
    }
}
