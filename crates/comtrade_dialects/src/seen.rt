//! Row numbers and stamps of a file that reads exactly, one row after the other.

use crate::clock::{Clock, time_of_whole};
use crate::doubts::Doubts;
use comtrade_format::{Border, Head};
use comtrade_values::Decimal;
use std::alloc::{AllocError, Allocator};

/// The times of rows given the rates, if there are any and this one gives the interval across each
/// border.
pub(crate) fn clock_with<A: Allocator + Copy>(
    alloc: A,
    head: &Head<A>,
    border: Border,
) -> Result<Option<Clock<A>>, AllocError> {
    if head.nrates == 0 {
        return Ok(None);
    }
    Clock::new(alloc, head.rates.items(), border)
}

/// What the stamps so far say of the times.
#[derive(Clone, Copy)]
struct Sight {
    /// The run of rates of the last row.
    at: usize,
    /// The time that the first stamp means less the time that the rates give.
    start: Option<i128>,
    /// The time of one stamp unit.
    unit: i128,
}

impl Sight {
    /// Whether a stamp is near the time that the rates give to its row, which is counted from 0;
    /// None if 128 bits cannot hold its time.
    fn is_near<A: Allocator>(
        &mut self,
        clock: &Clock<A>,
        index: u64,
        time: Option<i128>,
    ) -> Option<bool> {
        let (wanted, half) = clock.time_of(&mut self.at, index)?;
        let late = time?.checked_sub(wanted)?;
        let first = match self.start {
            Some(first) => first,
            None => late,
        };
        self.start = Some(first);
        let off = late.checked_sub(first)?.unsigned_abs();
        Some(off <= half.max(self.unit).unsigned_abs())
    }
}

/// The oddities of row numbers and stamps, one row after the other.
#[derive(Clone, Copy)]
pub(crate) struct TimesSeen {
    timemult: Decimal,
    sight: Sight,
    /// How many rows were taken, the number of the last one, and the last stamp.
    rows: u64,
    number: Option<u64>,
    stamp: Option<u64>,
}

impl TimesSeen {
    /// Before the first row.
    pub(crate) fn new(timemult: Decimal) -> TimesSeen {
        let sight = Sight {
            at: 0,
            start: None,
            unit: time_of_whole(1, timemult).unwrap_or(0), // (then no stamp but 0 has a time either)
        };
        TimesSeen {
            timemult,
            sight,
            rows: 0,
            number: None,
            stamp: None,
        }
    }

    /// Takes the number and the stamp of the next row, and adds what is odd about them. A stamp that
    /// has no time disagrees with the rates.
    pub(crate) fn take<A: Allocator + Copy>(
        &mut self,
        doubts: &mut Doubts,
        clock: &Option<Clock<A>>,
        number: u64,
        stamp: Option<u64>,
    ) {
        let index = self.rows;
        let place = index.saturating_add(1); // (no file has 2^64 rows)
        self.rows = place;
        if self.number.is_some_and(|before| number <= before) {
            doubts.repeated.add(place, 0);
        }
        self.number = Some(number);
        let Some(stamp) = stamp else {
            return;
        };
        if self.stamp.is_some_and(|before| stamp < before) {
            doubts.falling.add(place, 0);
        }
        self.stamp = Some(stamp);
        if let Some(clock) = clock {
            let time = time_of_whole(stamp, self.timemult);
            if self.sight.is_near(clock, index, time) != Some(true) {
                doubts.off.add(place, 0);
            }
        }
    }
}
