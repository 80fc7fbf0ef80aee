//! Watches the time while the input is read: whether a minute has passed, and how long no scan has
//! come.

use crate::event::Event;
use std::time::Clock;

/// The input is silent once no scan has come for so long, in seconds.
const SILENCE: u64 = 10;

/// When the last minute line was due, and since when no scan has come.
#[derive(Clone, Copy, Debug, Drop)]
pub(crate) struct Watch {
    /// The minute of the last minute line, or of the start, on the monotonic clock.
    minute: u64,
    /// How many scans had come at the last look.
    came: u64,
    /// When the last of them was seen, in milliseconds on the monotonic clock.
    since: u64,
    /// The silence has been reported.
    is_silent: bool,
}

/// The milliseconds on the monotonic clock; 0 if it can't be read.
pub(crate) fn millis(clock: &impl Clock) -> u64 {
    match clock.monotonic() {
        Ok(time) => u64::try_from(time.as_millis()).unwrap_or(u64::MAX),
        Err(_) => 0,
    }
}

/// The minute of an instant in milliseconds.
fn minute_of(millis: u64) -> u64 {
    millis / 60_000
}

impl Watch {
    /// Begins at this instant, in milliseconds on the monotonic clock.
    pub(crate) fn new(millis: u64) -> Watch {
        Watch {
            minute: minute_of(millis),
            came: 0,
            since: millis,
            is_silent: false,
        }
    }

    /// Whether the line of each minute is due. If so, its minute is noted.
    pub(crate) fn is_minute(&mut self, millis: u64) -> bool {
        let minute = minute_of(millis);
        let is_due = self.minute < minute;
        if is_due {
            self.minute = minute;
        }
        is_due
    }

    /// The event to report at this instant if so many scans have come: the input is silent, or
    /// scans come again.
    pub(crate) fn silence(&mut self, came: u64, millis: u64) -> Option<Event> {
        if came != self.came {
            let was_silent = self.is_silent;
            self.came = came;
            self.since = millis;
            self.is_silent = false;
            return was_silent.then_some(Event::Heard);
        }
        if self.is_silent || millis.abs_diff(self.since) < SILENCE * 1_000 {
            return None;
        }
        self.is_silent = true;
        Some(Event::Silent(SILENCE))
    }
}
