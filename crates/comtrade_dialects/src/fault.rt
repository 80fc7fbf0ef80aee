//! Why a pair cannot be imported.

ghost use Rattle.std.specs.Prelude.{◌≡◌};
ghost use Rattle.comtrade_dialects.specs.declared.fault.ImportFault.TheVariants.{Memory};

use comtrade_format::WriteFault;
use comtrade_values::Memory as NoMemory;
use thiserror::Error;

/// What is wrong with a line, a row or a whole file.
#[derive(Clone, Copy, Debug, Error)]
pub enum Why {
    #[error("the file is empty")]
    Empty,
    #[error("expected the station, device and year of a configuration file")]
    FirstLine,
    #[error("expected a year from 1991 to 2013")]
    Year,
    #[error("expected channel counts such as 5,3A,2D")]
    Counts,
    #[error("the channel counts exceed the number of lines")]
    ManyChannels,
    #[error("expected at least one channel")]
    NoChannel,
    #[error("an analogue channel must have 10 or 13 fields")]
    AnalogFields,
    #[error("one comma too many: it is ambiguous which field it belongs to")]
    Commas,
    #[error("a status channel must have 3 or 5 fields")]
    StatusFields,
    #[error("the fourth field may be the component or the normal state")]
    Normal,
    #[error("a field is not a valid number")]
    Number,
    #[error("the multiplier a is missing")]
    NoFactor,
    #[error("the side must be P or S")]
    Side,
    #[error("a bit must be 0 or 1")]
    Bit,
    #[error("expected a rate and its last row, such as 1000,12")]
    Rate,
    #[error("more than 999 rates")]
    ManyRates,
    #[error("the last row of a rate is below that of the previous rate")]
    RateOrder,
    #[error("the line is missing")]
    Missing,
    #[error("expected a date and a time of day")]
    Instant,
    #[error("the date or time of day does not exist")]
    NoDate,
    #[error("expected the data type ASCII, BINARY, BINARY32 or FLOAT32")]
    Kind,
    #[error("the data type is unclear: the data could be of two types or of none")]
    NoKind,
    #[error("the data type is unclear: the rows fit BINARY32 and FLOAT32, but not BINARY")]
    Wide,
    #[error("the data type is unclear: the rows fit BINARY with two spare bytes, BINARY32 and FLOAT32")]
    WideOrSpare,
    #[error("unknown text after the last line")]
    Extra,
    #[error("the number of fields does not match the channel counts")]
    RowFields,
    #[error("a value is not a valid number")]
    Value,
    #[error("the data size does not match the channel counts, and the row numbers indicate no other row size")]
    Length,
    #[error("the row numbers follow no pattern, and the number of rows is not endsamp")]
    NoPattern,
    #[error("the time stamp is below an earlier one, and there is no rate")]
    StampBack,
    #[error("the data have no rows")]
    NoRow,
    #[error("the channel needs a multiplier or offset that a configuration file cannot hold")]
    Scale,
    #[error("the CFG section is missing")]
    NoCfg,
    #[error("the DAT section is missing")]
    NoDat,
    #[error("a section occurs twice")]
    Twice,
    #[error("the repaired pair cannot be written as files of 1999")]
    Written(WriteFault),
}

/// Why a pair cannot be imported, and where: the line of a file or the row of binary data, counted
/// from 1; 0 means the whole file.
#[derive(Clone, Copy, Debug, Error)]
pub enum ImportFault {
    #[error("configuration file, line {0}: {1}")]
    Cfg(u64, Why),
    #[error("data file, row {0}: {1}")]
    Dat(u64, Why),
    #[error("{0}")]
    Whole(Why),
    #[error("out of memory")]
    Memory,
}

/// Converts any error that means out of memory.
impl<E: Drop> From<E> for ImportFault
where
    NoMemory: From<E>,
{
    ghost from_gives = { λ _ e. e ≡ Memory };

    fn from(_e: E) -> ImportFault {
        ImportFault::Memory
    }
}
