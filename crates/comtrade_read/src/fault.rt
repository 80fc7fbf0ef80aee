//! The errors of the reader.

ghost use Rattle.std.specs.Prelude.{◌≡◌};
ghost use Rattle.comtrade_read.specs.declared.fault.ReadFault.TheVariants.{Memory};

use std::alloc::{AllocError, AllocFailed};
use thiserror::Error;

/// Why a file can't be read: the first error in it. The lines are checked in order. Of one line the
/// first of these is reported: it is missing, it has the wrong number of fields, a field can't be
/// read (the leftmost), it contradicts itself. Lines and fields count from 1. The clauses are those
/// of C37.111-1999.
#[derive(Clone, Copy, Debug, PartialEq, Eq, Error)]
pub enum ReadFault {
    /// The first line has only two fields, or its third isn't the revision year 1999 (5.3.1).
    #[error("the first line is not that of a file of 1999")]
    Revision,
    /// The line has the wrong number of fields.
    #[error("line {0} has the wrong number of fields")]
    Fields(u64),
    /// Line and field: the field can't be read or is out of its range. In the first line, in an
    /// instant and in the data type the error is `Revision`, `Instant` or `Kind` instead.
    #[error("line {0}, field {1} cannot be read or is out of its range")]
    Number(u64, u32),
    /// The channel counts don't add up or are 0 (5.3.2), a channel's number isn't its position
    /// (5.3.3, 5.3.4), or a rate's last sample is below the one before it (5.3.6).
    #[error("line {0}: a number contradicts an earlier line or its own fields")]
    Counts(u64),
    /// The line has two fields, but they aren't a date and a time of day in the years 1 to
    /// 9999 (5.3.7).
    #[error("line {0} is not a date and a time of day")]
    Instant(u64),
    /// The data type is neither ASCII nor BINARY, in upper or lower case (5.3.8).
    #[error("the data type is neither ASCII nor BINARY")]
    Kind,
    /// The file ends before this line. Blank lines at its end don't count.
    #[error("line {0} is missing")]
    Missing(u64),
    /// The file continues after its last line with text that isn't blank. The number is that of the
    /// first line after the last one.
    #[error("line {0} comes after the last line")]
    Extra(u64),
    /// The length of BINARY data isn't that of the expected rows (clause 6).
    #[error("the length of the binary data does not fit its rows")]
    Length,
    /// An allocation failed. The file may have another error as well.
    #[error("out of memory")]
    Memory,
}

impl From<AllocError> for ReadFault {
    ghost from_gives = { λ _ e. e ≡ Memory };

    fn from(_e: AllocError) -> ReadFault {
        ReadFault::Memory
    }
}

impl<T: Drop> From<AllocFailed<T>> for ReadFault {
    ghost from_gives = { λ _ e. e ≡ Memory };

    fn from(_e: AllocFailed<T>) -> ReadFault {
        ReadFault::Memory
    }
}
