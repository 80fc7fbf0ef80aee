//! The steps of a recorder, and its answers.

use crate::Record;
use dfr_channels::{Rules, Scan};
use std::alloc::{Allocator, Global};
use thiserror::Error;

/// What a trigger did, with the number of the record that it opened or met.
#[derive(Clone, Copy, Debug, PartialEq, Eq)]
pub enum Hit {
    /// No record was open; it opened this one.
    Opened(u64),
    /// The open record now ends `post` scans after the trigger. It may have ended there before.
    Extended(u64),
    /// Ending `post` scans after the trigger would make the open record longer than `longest`
    /// scans. It now ends when it has `longest` scans.
    AtLimit(u64),
    /// No record was open, and the shelf was full of finished records. None was opened.
    ShelfFull,
}

/// The answer to an accepted scan.
#[derive(Clone, Copy, Debug, PartialEq, Eq)]
pub struct Scanned {
    /// The scan's number, from 0.
    pub number: u64,
    /// What its trigger did, if a rule fired.
    pub trigger: Option<Hit>,
    /// The number of the record that it closed, if any.
    pub closed: Option<u64>,
}

/// Why a scan is refused, in the order of the tests.
#[derive(Clone, Copy, Debug, PartialEq, Eq)]
pub enum ScanRefusal {
    /// The number of readings or bits is not the layout's.
    Shape,
    /// The lowest channel, from 0, whose value is out of its range.
    Range(u32),
    /// Its instant would be after the year 9999.
    ClockEnd,
    /// An allocation failed.
    Memory,
}

/// Why a lost scan is refused, in the order of the tests.
#[derive(Clone, Copy, Debug, PartialEq, Eq)]
pub enum LostRefusal {
    /// Its instant would be after the year 9999.
    ClockEnd,
    /// An allocation failed.
    Memory,
}

/// Why a manual trigger did nothing. The tests run in the order `NoScan`, `Covered`, `ShelfFull`,
/// `Memory`.
#[derive(Clone, Copy, Debug, PartialEq, Eq, Error)]
pub enum TriggerFault {
    /// No scan has been accepted yet.
    #[error("no scan has been accepted yet")]
    NoScan,
    /// No record is open, and the shelf is full of finished records.
    #[error("the queue of finished records is full")]
    ShelfFull,
    /// An allocation failed.
    #[error("out of memory")]
    Memory,
    /// Under unshared limits: no record is open, and the newest one already has the last scan.
    #[error("the newest record already has the last scan")]
    Covered,
}

/// One call of a recorder.
#[derive(Drop, Debug)]
pub enum Step<A: Allocator = Global> {
    /// Process a scan.
    Scan(Scan<A>),
    /// Fill the place of a lost scan.
    Lost,
    /// A manual trigger at the last scan.
    Trigger,
    /// Take the oldest finished record.
    Take,
    /// Set the rules in force from the next scan on.
    SetRules(Rules<A>),
}

/// The answer to a step.
#[derive(Drop, Debug)]
pub enum Answer<A: Allocator = Global> {
    Scan(Result<Scanned, ScanRefusal>),
    Lost(Result<Scanned, LostRefusal>),
    Trigger(Result<Hit, TriggerFault>),
    /// The oldest finished record; None if none waits.
    Take(Option<Record<A>>),
    /// Whether the rules were set: false if they don't fit the layout.
    SetRules(bool),
}
