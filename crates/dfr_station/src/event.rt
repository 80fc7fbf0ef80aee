//! The events that a station reports.

use crate::intake::Why;
use dfr_folder::Key;
use dfr_recorder::{Extent, Hit, TriggerFault};

/// Why a line is skipped or refused.
#[derive(Clone, Copy, Debug, PartialEq, Eq)]
pub enum Skipped {
    /// An unknown or misplaced word, or text after a word that takes none.
    Word,
    /// A wrong number of fields, or of words of a rule.
    Fields,
    /// A field that can't be read.
    Number,
    /// A rule names a missing channel.
    NoChannel,
    /// More than 32 rules.
    TooMany,
    /// A line of more than 65,536 bytes.
    Long,
    /// The queue of orders is full.
    Busy,
    /// It tells the time, and the clock doesn't date the scans.
    Undated,
    /// An allocation failed.
    Memory,
}

/// Why a store does not take a pair.
#[derive(Clone, Copy, Debug, PartialEq, Eq)]
pub enum Trouble {
    /// No space, a quota, or a limit on the size of a file.
    Full,
    /// There is no folder.
    Gone,
    /// The folder can't be written: no permission, or a read-only file system.
    Denied,
    /// An allocation failed.
    Memory,
    /// Any other error of the system.
    Other,
    /// As many pairs of this hour were stored as may be. Such a pair is not tried again.
    Storm,
}

impl Trouble {
    ghost use Rattle.std.specs.Prelude.{◌≡◌, ◌≢◌, MatchBool};

    /// Whether it is a storm.
    pub(crate) fn is_storm(self) -> bool
        ensures { MatchBool result (self ≡ Trouble.Storm) (self ≢ Trouble.Storm) }
    {
        matches!(self, Trouble::Storm)
    }
}

/// Who gave an order.
#[derive(Clone, Copy, Debug, PartialEq, Eq)]
pub enum Asked {
    /// A line of the input.
    Input,
    /// An operator.
    Operator,
}

/// The answer to an order.
#[derive(Clone, Copy, Debug, PartialEq, Eq)]
pub enum Replied {
    /// What a manual trigger did, or why it was refused.
    Trigger(Result<Hit, TriggerFault>),
    /// Whether the rules were set. If not, a rule names a missing channel.
    Rules(bool),
    /// The input is ended.
    Stop,
}

/// How the wall clock is followed.
#[derive(Clone, Copy, Debug, PartialEq, Eq)]
pub struct Followed {
    /// By how many microseconds the newest scan is later than by the rate alone.
    pub offset: i64,
    /// By how many parts per billion scans come faster than the rate says; below 0 if they come
    /// slower. None in the first seconds.
    pub drift: Option<i64>,
}

/// How the wall clock and the scans stand to each other.
#[derive(Clone, Copy, Debug, PartialEq, Eq)]
pub struct ClockState {
    /// How many microseconds the wall clock was ahead of the time of the newest scan by the rate alone
    /// when that scan was read.
    pub ahead: i64,
    /// None if the clock doesn't date records.
    pub followed: Option<Followed>,
}

/// An event.
#[derive(Clone, Copy, Debug, PartialEq, Eq)]
pub enum Event {
    /// Recording begins: the instant of scan 0, in microseconds since 1970-01-01 00:00:00 UTC, and
    /// the scans per second.
    Started {
        start: i64,
        rate: u32,
    },
    /// Of the scans from `first` to `last`, `count` were lost for the reason `why`. Of values that are
    /// out of range it names the channel of the first one.
    Lost {
        first: u64,
        last: u64,
        count: u64,
        why: Why,
    },
    /// A line of the input that is not a scan line was skipped. Lines count from 1.
    Line {
        line: u64,
        why: Skipped,
    },
    /// A line of the operator was refused.
    Order(Skipped),
    /// An order was answered after `at` scans.
    Reply {
        asked: Asked,
        at: u64,
        reply: Replied,
    },
    /// A record's pair was stored under this name. `clock` is as in `Minute`. The record was closed
    /// with lost scans after the input ended, if `is_cut`.
    Record {
        extent: Extent,
        key: Key,
        clock: Option<ClockState>,
        is_cut: bool,
    },
    /// A record was given up, whose pair would have had this name. `why` is the reason for which the
    /// store did not take it last.
    Unwritten {
        extent: Extent,
        key: Key,
        why: Trouble,
    },
    /// So many finished records wait, as many as may. No trigger opens a record.
    ShelfFull(u32),
    /// The shelf has room again.
    ShelfFree,
    /// At so many more scans a rule fired while the shelf was full, and opened no record.
    Unopened(u64),
    /// The store did not take a pair. It is tried again each second.
    Trouble(Trouble),
    /// The store takes pairs again.
    Over,
    /// So many of the oldest pairs were removed.
    Removed(u64),
    /// A record was open when the input ended, and can't be closed. It is not written.
    Unfinished,
    /// The input ended within a frame, of which so many bytes came.
    Cut(u64),
    /// After so many scans, bytes came that are no counted frame. The next one is looked for.
    Noise(u64),
    /// The input can't be read any more; recording ends.
    Broken,
    /// An allocation failed. What needed it is tried again.
    Memory,
    /// So many events were not reported, since the queue was full.
    Missed(u64),
    /// No scan has come for so many seconds.
    Silent(u64),
    /// Scans come again.
    Heard,
    /// The counts of each minute: scans, lost scans among them, records written, records that wait,
    /// and scans at which a rule fired while the shelf was full. `clock` is None before the first scan.
    Minute {
        scans: u64,
        lost: u64,
        records: u64,
        waiting: u64,
        missed: u64,
        clock: Option<ClockState>,
    },
    /// Records were to have the dates of the clock, but it could not be read with the first scan: they
    /// have the instants of the rate.
    Undated,
    /// The wall clock was set, by so many microseconds; below 0 if it was set back.
    ClockSet(i64),
    /// Recording ended: scans, lost scans among them, records written, and `left`, the scans for
    /// which no step was made.
    Ended {
        scans: u64,
        lost: u64,
        records: u64,
        left: u64,
    },
}
