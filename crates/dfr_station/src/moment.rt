//! What the clocks show when scans are read.

use crate::telling::now;
use dfr_clock::Reading;
use std::time::Clock;

/// How far apart two reads of the monotonic clock may be, with one of the wall clock between them,
/// in microseconds.
const APART: u64 = 1_000;

/// How often the clocks are read again.
const TRIES: u32 = 8;

/// The clocks at a moment.
#[derive(Clone, Copy, Debug, PartialEq, Eq)]
pub(crate) struct Moment {
    /// The wall clock, in microseconds since 1970-01-01 00:00:00 UTC; 0 if it can't be read.
    pub(crate) at: i64,
    /// The monotonic clock, in microseconds. None if a clock can't be read, or if it isn't known well
    /// enough what both showed at once.
    mono: Option<u64>,
}

/// The microseconds on the monotonic clock.
fn monotonic(clock: &impl Clock) -> Option<u64> {
    match clock.monotonic() {
        Ok(time) => u64::try_from(time.as_micros()).ok(),
        Err(_) => None,
    }
}

impl Moment {
    /// The clocks, read once.
    fn read(clock: &impl Clock) -> Moment {
        let before = monotonic(clock);
        let at = now(clock);
        let after = monotonic(clock);
        let mono = match (before, after) {
            (Some(before), Some(after)) if at > 0 && after.abs_diff(before) <= APART => Some(
                before,
            ),
            _ => None,
        };
        Moment { at, mono }
    }

    /// This moment. The clocks are read again if the thread stood still meanwhile.
    pub(crate) fn now(clock: &impl Clock) -> Moment {
        for _ in 0..TRIES {
            let moment = Moment::read(clock);
            if moment.mono.is_some() {
                return moment;
            }
        }
        Moment::read(clock)
    }

    /// What it tells if so many scans had come; None if the clocks aren't known.
    pub(crate) fn reading(self, scans: u64) -> Option<Reading> {
        match (u64::try_from(self.at), self.mono) {
            (Ok(wall), Some(mono)) => Some(Reading { scans, wall, mono }),
            _ => None,
        }
    }
}
