//! The stamps that are written.

use crate::clock::{Clock, time_of_stamp};
use crate::fault::{ImportFault, Why};
use crate::key::Key;
use crate::nearest::rounded;
use crate::note::Notes;
use crate::num::Num;
use crate::numbers::Tick;
use crate::stamps::StampTrack;
use comtrade_values::{Decimal, put, put_number};
use std::alloc::Allocator;

/// The stamps given by the rates, in whole microseconds; none at all if one exceeds the limit of
/// the form.
pub(crate) fn stamps_by_rate<A: Allocator + Copy>(
    alloc: A,
    track: &StampTrack<'_>,
    clock: &Clock<A>,
) -> Result<Vec<Option<u64>, A>, ImportFault> {
    let mut list = Vec::new(alloc);
    let mut at = 0usize;
    let mut fits = true;
    for i in 0..track.ticks.len() {
        let stamp = match clock.time_of(&mut at, i as u64) {
            Some((time, _)) => stamp_within(track.most, rounded(time, 1_000_000)),
            None => None,
        };
        fits = fits && stamp.is_some();
        list.push(stamp)?;
    }
    if !fits {
        for stamp in list.iter_mut() {
            *stamp = None;
        }
    }
    Ok(list)
}

/// A number as a stamp of at most this size.
fn stamp_within(most: i128, number: Option<i128>) -> Option<u64> {
    let number = number?;
    if most < number {
        return None;
    }
    u64::try_from(number).ok()
}

/// The time that a tick's stamp means, if it has one.
pub(crate) fn time_of_tick(tick: &Tick, timemult: Decimal) -> Option<i128> {
    time_of_stamp(tick.stamp?, timemult)
}

/// The time of a tick since the start, divided by so much, if it has one.
pub(crate) fn time_since(
    track: &StampTrack<'_>,
    tick: &Tick,
    start: Option<i128>,
    part: i128,
) -> Option<u64> {
    let time = time_of_tick(tick, track.timemult)?;
    u64::try_from(rounded(time.checked_sub(start?)?, part)?).ok()
}

/// The time from which stamps are counted: that of the least stamp.
pub(crate) fn start_of(track: &StampTrack<'_>) -> Option<i128> {
    let mut start: Option<i128> = None;
    for tick in track.ticks {
        if let Some(time) = time_of_tick(tick, track.timemult) {
            start = Some(start.map_or(time, |start| start.min(time)));
        }
    }
    start
}

/// The unit of whole stamps in picoseconds; a microsecond if stamps with a point would lose more,
/// or if the unit is below a picosecond or beyond 128 bits.
fn unit_of(track: &StampTrack<'_>, one: Decimal) -> (i128, Decimal) {
    match time_of_stamp(Num::of(1), track.timemult) {
        Some(unit) if 1 <= unit && (!track.is_pointed || unit <= 1_000_000) => {
            (unit, track.timemult)
        }
        _ => (1_000_000, one),
    }
}

/// A stamp counted from the start in steps, if it is of at most this size.
fn kept_stamp(
    (timemult, most): (Decimal, i128),
    stamp: Num,
    start: Option<i128>,
    step: Option<i128>,
) -> Option<u64> {
    let time = time_of_stamp(stamp, timemult)?;
    stamp_within(most, rounded(time.checked_sub(start?)?, step?))
}

/// Whether the form of the data can hold all stamps, counted from the start in steps.
fn all_fit(track: &StampTrack<'_>, start: Option<i128>, step: Option<i128>) -> bool {
    for tick in track.ticks {
        if let Some(stamp) = tick.stamp
            && kept_stamp((track.timemult, track.most), stamp, start, step).is_none()
        {
            return false;
        }
    }
    true
}

/// The unit and the time multiplier by which the form of the data can hold all stamps, and how many
/// times as long as the given unit it is: the least power of ten. None if there is none.
fn fitting(
    track: &StampTrack<'_>,
    (start, part): (Option<i128>, i128),
    unit: i128,
    timemult: Decimal,
) -> Option<(i128, Decimal, u64)> {
    let mut times = 1u64;
    for _ in 0..19 {
        let longer = unit.checked_mul(i128::from(times))?;
        if all_fit(track, start, longer.checked_mul(part)) {
            let units = timemult.units().checked_mul(i128::from(times))?;
            return Some((longer, Decimal::new(units, timemult.places())?, times));
        }
        times = times.checked_mul(10)?;
    }
    None
}

/// The unit of the stamps that are kept, and their time multiplier. Notes stamps that the form of
/// the data cannot hold; where they are written, the unit is longer than that of the file.
fn told_unit<A: Allocator + Copy>(
    notes: &mut Notes<A>,
    track: &StampTrack<'_>,
    (start, part): (Option<i128>, i128),
    unit: i128,
    timemult: Decimal,
) -> Result<(i128, Decimal), ImportFault> {
    let Some((longer, timemult_of_longer, times)) = fitting(track, (start, part), unit, timemult)
    else {
        return Ok((unit, timemult));
    };
    if times == 1 {
        return Ok((unit, timemult));
    }
    let mut piece = Vec::new(notes.allocator());
    if track.is_written {
        put(&mut piece, "counted in a unit ")?;
        put_number(&mut piece, times)?;
        put(&mut piece, " times as long")?;
    }
    notes.tell(Key::StampsLong, track.place, &piece)?;
    if track.is_written {
        Ok((longer, timemult_of_longer))
    } else {
        Ok((unit, timemult))
    }
}

/// The stamps that are kept, counted from 0, and their time multiplier.
pub(crate) fn kept<A: Allocator + Copy>(
    alloc: A,
    notes: &mut Notes<A>,
    track: &StampTrack<'_>,
    part: i128,
) -> Result<(Vec<Option<u64>, A>, Decimal), ImportFault> {
    let start = start_of(track);
    if start.is_some_and(|start| start != 0) {
        notes.tell(Key::StampsShifted, track.place, &[])?;
    }
    if track.is_pointed {
        notes.tell(Key::StampsDecimal, track.place, &[])?;
    }
    let Some(one) = Decimal::new(1, 0) else {
        return Err(ImportFault::Whole(Why::Number));
    };
    let (unit, timemult) = unit_of(track, one);
    let (unit, timemult) = told_unit(notes, track, (start, part), unit, timemult)?;
    let step = unit.checked_mul(part);
    let most = if track.is_written {
        track.most
    } else {
        i128::from(u64::MAX)
    };
    let mut list = Vec::new(alloc);
    for (row, tick) in (1u64..).zip(track.ticks.iter()) {
        let Some(stamp) = tick.stamp else {
            list.push(None)?;
            continue;
        };
        let Some(kept) = kept_stamp((track.timemult, most), stamp, start, step) else {
            return Err(ImportFault::Dat(row, Why::Value));
        };
        list.push(Some(kept))?;
    }
    Ok((list, timemult))
}
