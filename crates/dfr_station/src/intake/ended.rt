//! The result of a recording, and why one failed.

use dfr_clock::Timebase;
use dfr_live::{EndFault, Ended, OpenFault};
use std::alloc::{Allocator, Global};
use thiserror::Error;

/// Why a recording didn't start, or did not reach its end.
#[derive(Clone, Copy, Debug, PartialEq, Eq, Error)]
pub enum RunFault {
    /// An allocation failed.
    #[error("out of memory")]
    Memory,
    /// A thread could not be started. Nothing was recorded.
    #[error("a thread could not be started")]
    Thread,
    /// The recorder could not be opened.
    #[error("the recorder was not opened: {0}")]
    Open(OpenFault),
    /// The recording could not be ended.
    #[error("the recording was not ended: {0}")]
    End(EndFault),
    /// There were more scans, or more lost scans in a row, than can be counted.
    #[error("more scans, or more lost scans in a row, than can be counted")]
    Counter,
}

/// What came and what was written until the input ended.
#[derive(Clone, Copy, Debug, PartialEq, Eq, Drop)]
pub struct Counts {
    /// Scans that came.
    pub scans: u64,
    /// Lost scans among them.
    pub lost: u64,
    /// Scans for which no step was made.
    pub left: u64,
    /// Records that the store took.
    pub records: u64,
    /// Records that were given up.
    pub unwritten: u64,
    /// How many microseconds the wall clock was ahead of the time of the newest scan when that scan
    /// was read. None without a scan.
    pub clock: Option<i64>,
    /// The input couldn't be read to its end.
    pub is_broken: bool,
}

impl Counts {
    ghost use Rattle.std.specs.Prelude.{◌≡◌, ◌-◌, ◌&&◌, ◌==◌, ◌<◌, not, nat_lt};

    /// These counts, if so many steps were made.
    pub(crate) fn after(self, steps: u64) -> Counts
        ensures { result ≡ record self { left = self.scans - steps } }
    {
        Counts {
            left: self.scans.saturating_sub(steps),
            ..self
        }
    }

    /// Whether scans came, the input was read to its end, and no record was given up.
    pub fn is_whole(self) -> bool
        ensures { result ≡ (nat_lt 0 self.scans && (not self.is_broken && (self.unwritten == 0))) }
    {
        self.scans > 0 && !self.is_broken && self.unwritten == 0
    }
}

/// What a recording leaves at its end.
#[derive(Drop)]
pub struct Recorded<A: Allocator = Global> {
    pub ended: Ended<A>,
    pub counts: Counts,
    /// What dates the record that is open, if the clock does.
    pub times: Option<Timebase<A>>,
}
