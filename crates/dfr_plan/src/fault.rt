//! Why the lines of a plan are refused.

ghost use Rattle.std.specs.Prelude.{◌≡◌};
ghost use Rattle.dfr_plan.specs.Refusing as spec;
ghost use Rattle.dfr_plan.specs.declared.fault.LineRefusal.TheVariants as refusal;

use dfr_bay::SettingsFault;
use std::alloc::{AllocError, AllocFailed};
use thiserror::Error;

/// What is wrong with a line.
#[derive(Clone, Copy, Debug, PartialEq, Eq, Error)]
pub enum PlanFault {
    /// The first word is none of a plan.
    #[error("unknown word: below `go` a plan has stream, value, goose, contact, follow and clock")]
    Word,
    /// The line has a wrong number of fields.
    #[error("wrong number of fields")]
    Fields,
    /// A number can't be read, or doesn't fit 32 bits.
    #[error("a number that cannot be read")]
    Number,
    /// A stream or a control block has no name.
    #[error("the name of a stream or of a control block is missing")]
    Name,
    /// The application's number is beyond 16 bits.
    #[error("an APPID is 0 to 0xFFFF")]
    AppId,
    /// The address is not six bytes, as 00:0c:cd:04:00:11.
    #[error("an address that cannot be read")]
    Address,
    /// There are 256 streams already.
    #[error("more than 256 streams")]
    Streams,
    /// An earlier line has this stream.
    #[error("another line has this stream")]
    SameStream,
    /// No stream of an earlier line has this number.
    #[error("an unknown stream: streams are counted from 1, in the order of their lines")]
    Stream,
    /// No unit has so many values.
    #[error("the value is 0 to 255")]
    Value,
    /// The divisor is 0.
    #[error("the divisor is 0")]
    Divisor,
    /// The last field is not `clip`.
    #[error("what may stand after the mask is clip")]
    Clip,
    /// There are more lines `value` than analogue channels.
    #[error("more values than the set-up has analogue channels")]
    ManyValues,
    /// The set-up has no analogue channel of this name.
    #[error("an unknown analogue channel")]
    Channel,
    /// The name is that of another channel than the next.
    #[error("values stand in the order of the analogue channels, one for each")]
    ChannelOrder,
    /// An earlier line has this control block.
    #[error("another line has this control block")]
    SameBlock,
    /// The field after the name is neither `stays` nor `normal`.
    #[error("what may stand after a control block is stays or normal")]
    Doubt,
    /// No control block of an earlier line has this number.
    #[error("an unknown control block: they are counted from 1, in the order of their lines")]
    Block,
    /// No dataset has so many elements.
    #[error("the element is 0 to 1023")]
    Element,
    /// There are more lines `contact` than status channels.
    #[error("more contacts than the set-up has status channels")]
    ManyContacts,
    /// The set-up has no status channel of this name.
    #[error("an unknown status channel")]
    Contact,
    /// The name is that of another contact than the next.
    #[error("contacts stand in the order of the status channels, one for each")]
    ContactOrder,
    /// An earlier line has this setting.
    #[error("a setting that another line has")]
    Twice,
    /// The streams can't be followed so.
    #[error("{0}")]
    Follow(SettingsFault),
    /// What dates the scans is neither `global` nor `capture`.
    #[error("the clock is global or capture")]
    Clock,
}

/// The value, or the fault if there is none.
pub(crate) fn needed<T>(value: Option<T>, fault: PlanFault) -> Result<T, PlanFault>
    ensures { result ≡ spec.needed value fault }
{
    match value {
        Some(value) => Ok(value),
        None => Err(fault),
    }
}

/// Why a line was not added.
#[derive(Clone, Copy, Debug, PartialEq, Eq)]
pub(crate) enum LineRefusal {
    /// What is wrong with it.
    Fault(PlanFault),
    /// An allocation failed.
    Memory,
}

impl From<PlanFault> for LineRefusal {
    ghost from_gives = { λ fault e. e ≡ refusal.Fault fault };

    fn from(fault: PlanFault) -> LineRefusal {
        LineRefusal::Fault(fault)
    }
}

impl From<AllocError> for LineRefusal {
    ghost from_gives = { λ _ e. e ≡ refusal.Memory };

    fn from(_error: AllocError) -> LineRefusal {
        LineRefusal::Memory
    }
}

impl<T: Drop> From<AllocFailed<T>> for LineRefusal {
    ghost from_gives = { λ _ e. e ≡ refusal.Memory };

    fn from(_error: AllocFailed<T>) -> LineRefusal {
        LineRefusal::Memory
    }
}

/// Why a plan is refused. A line of the text is named first.
#[derive(Clone, Copy, Debug, PartialEq, Eq, Error)]
pub enum PlanRefusal {
    /// The line with this number, from 1, is refused.
    #[error("line {0}: {1}")]
    Line(u64, PlanFault),
    /// There is no stream.
    #[error("no stream: the set-up has no plan below go")]
    NoStream,
    /// There are fewer lines `value` than analogue channels.
    #[error("fewer values than the set-up has analogue channels")]
    FewValues,
    /// There are fewer lines `contact` than status channels.
    #[error("fewer contacts than the set-up has status channels")]
    FewContacts,
    /// The rate of the set-up is none of a stream.
    #[error("{0}")]
    Rate(SettingsFault),
    /// An allocation failed.
    #[error("out of memory")]
    Memory,
}
