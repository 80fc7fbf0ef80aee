//! The times of rows, given the rates or the time stamps. Times are in picoseconds since the
//! first row.

use crate::nearest::rounded;
use crate::num::Num;
use comtrade_format::{Border, Rate};
use comtrade_values::{Decimal, Exact};
use std::alloc::{AllocError, Allocator};

/// A run of rows at one rate.
#[derive(Clone, Copy)]
struct RateSpan {
    /// The row from which the rows of the run are counted, and its time.
    from: u64,
    base: i128,
    end: u64,
    units: i128,
    places: u32,
}

/// The times of rows, given the rates.
#[derive(Drop)]
pub(crate) struct Clock<A: Allocator> {
    runs: Vec<RateSpan, A>,
}

const SECOND: i128 = 1_000_000_000_000;

impl RateSpan {
    fn time_of(&self, row: u64) -> Option<i128> {
        let rows = i128::from(row.checked_sub(self.from)?);
        let part = 10i128.checked_pow(self.places)?.checked_mul(SECOND)?;
        let time = rows.checked_mul(part)?.checked_div(self.units)?;
        self.base.checked_add(time)
    }
}

impl<A: Allocator + Copy> Clock<A> {
    /// The clock of these rates, if this rate gives the interval across each border.
    pub(crate) fn new(
        alloc: A,
        rates: &[Rate],
        border: Border,
    ) -> Result<Option<Clock<A>>, AllocError> {
        let mut runs: Vec<RateSpan, A> = Vec::new(alloc);
        let mut from = 0u64;
        let mut base = 0i128;
        for rate in rates {
            let run = RateSpan {
                from,
                base,
                end: rate.endsamp,
                units: rate.samp.units(),
                places: u32::from(rate.samp.places()),
            };
            from = match border {
                Border::Old => rate.endsamp,
                Border::New if 0 < rate.endsamp => rate.endsamp - 1,
                Border::New => 0,
            };
            match run.time_of(from) {
                Some(time) if 0 < run.units => base = time,
                _ => return Ok(None),
            }
            runs.push(run)?;
        }
        if runs.is_empty() {
            Ok(None)
        } else {
            Ok(Some(Clock { runs }))
        }
    }
}

impl<A: Allocator> Clock<A> {
    /// The time of a row (counted from 0), and half the interval there. `at` is the run of an
    /// earlier row.
    pub(crate) fn time_of(&self, at: &mut usize, row: u64) -> Option<(i128, i128)> {
        let last = self.runs.len().checked_sub(1)?;
        for _ in 0..self.runs.len() {
            match self.runs.get(*at) {
                Some(run) if run.end <= row && *at < last => *at += 1,
                _ => break,
            }
        }
        let run = self.runs.get(*at)?;
        let part = 10i128.checked_pow(run.places)?.checked_mul(SECOND)?;
        Some((run.time_of(row)?, part.checked_div(run.units)? / 2))
    }
}

/// The time that a stamp means, in picoseconds.
pub(crate) fn time_of_stamp(stamp: Num, timemult: Decimal) -> Option<i128> {
    let number = Exact {
        units: i128::from(stamp.mant),
        places: -stamp.ten,
    };
    time_of_number(number, timemult)
}

/// The time that a stamp of a file of 1999 means, in picoseconds.
pub(crate) fn time_of_whole(stamp: u64, timemult: Decimal) -> Option<i128> {
    let number = Exact {
        units: i128::from(stamp),
        places: 0,
    };
    time_of_number(number, timemult)
}

/// The time that a number of stamp units means, in picoseconds.
fn time_of_number(number: Exact, timemult: Decimal) -> Option<i128> {
    let time = number.times(Exact::of(timemult))?;
    let more = 6i32.checked_sub(time.places)?;
    if 0 <= more {
        let part = 10i128.checked_pow(more.unsigned_abs())?;
        return time.units.checked_mul(part);
    }
    match 10i128.checked_pow(more.unsigned_abs()) {
        Some(part) => rounded(time.units, part),
        None => Some(0), // the divisor is above all numbers of 128 bits
    }
}
