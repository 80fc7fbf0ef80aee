//! Time stamps that overflow at 2^32, in data without a rate.

use crate::clock::time_of_stamp;
use crate::fault::{ImportFault, Why};
use crate::key::Key;
use crate::note::{Notes, Place};
use crate::num::Num;
use crate::numbers::Tick;
use comtrade_values::Decimal;
use std::alloc::Allocator;

/// 2^32, at which stamps overflow.
const LIMIT: i64 = 4_294_967_296;

/// The least fall that is taken for an overflow: 2^32 - 2^28.
const FALL: i64 = 4_026_531_840;

/// Whether stamps overflow between two rows.
fn is_wrap(before: Num, now: Num) -> bool {
    match (before.whole(), now.whole()) {
        (Some(before), Some(now)) => {
            0 <= now && FALL <= before && before < LIMIT && now <= before - FALL
        }
        _ => false,
    }
}

/// Whether a stamp means an earlier time than the one before it.
fn falls(before: Num, now: Num, timemult: Decimal) -> bool {
    match (
        time_of_stamp(before, timemult),
        time_of_stamp(now, timemult),
    ) {
        (Some(before), Some(now)) => now < before,
        _ => false,
    }
}

/// The stamp after so many overflows.
fn raised(stamp: Num, wraps: u32) -> Option<Num> {
    if wraps == 0 {
        return Some(stamp);
    }
    let more = i64::from(wraps).checked_mul(LIMIT)?;
    Some(Num::of(stamp.whole()?.checked_add(more)?))
}

/// Undoes overflows of stamps, and notes each. Refuses other stamps that go backwards.
pub(crate) fn undo_wraps<A: Allocator + Copy>(
    notes: &mut Notes<A>,
    ticks: &mut [Tick],
    timemult: Decimal,
) -> Result<(), ImportFault> {
    let mut before: Option<Num> = None;
    let mut wraps = 0u32;
    for (row, tick) in (1u64..).zip(ticks.iter_mut()) {
        let Some(stamp) = tick.stamp else {
            continue;
        };
        if let Some(before) = before {
            if is_wrap(before, stamp) {
                notes.tell(Key::StampsWrapped, Place::Row(row), &[])?;
                let Some(more) = wraps.checked_add(1) else {
                    return Err(ImportFault::Dat(row, Why::Value));
                };
                wraps = more;
            } else if falls(before, stamp, timemult) {
                return Err(ImportFault::Dat(row, Why::StampBack));
            }
        }
        before = Some(stamp);
        match raised(stamp, wraps) {
            Some(stamp) => tick.stamp = Some(stamp),
            None => return Err(ImportFault::Dat(row, Why::Value)),
        }
    }
    Ok(())
}
