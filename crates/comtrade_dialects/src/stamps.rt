//! Decides what becomes of the numbers and time stamps of all rows.

use crate::clock::{Clock, time_of_stamp};
use crate::draft::{ConfigDraft, Revision};
use crate::fault::ImportFault;
use crate::kept_stamps::{kept, stamps_by_rate, start_of, time_of_tick, time_since};
use crate::key::Key;
use crate::nearest::rounded;
use crate::note::{Notes, Place};
use crate::num::Num;
use crate::numbers::{Numbering, Tick, rates_for, run_of, tell_lost, tell_numbers};
use comtrade_format::{Border, Rate, search_in};
use comtrade_values::Decimal;
use std::alloc::Allocator;

/// The times that are written: the stamps, their multiplier, and the rates.
#[derive(Drop)]
pub(crate) struct Times<A: Allocator> {
    pub stamps: Vec<Option<u64>, A>,
    pub timemult: Decimal,
    pub rates: Vec<Rate, A>,
}

/// The numbers and stamps of all rows, as they were read.
#[derive(Clone, Copy)]
pub(crate) struct StampTrack<'a> {
    pub ticks: &'a [Tick],
    pub timemult: Decimal,
    /// The greatest stamp that the form of the data can hold.
    pub most: i128,
    /// Stamps are written in this form, and not only shown.
    pub is_written: bool,
    /// Whether a stamp has a point.
    pub is_pointed: bool,
    pub place: Place,
}

/// By what a stamp is divided, and with the times of which rows it is compared.
#[derive(Clone, Copy)]
struct StampScale {
    part: i128,
    by_number: bool,
}

/// Whether the time of a stamp, counted from the start, is that of its row within half an interval,
/// or within one stamp unit if that is more. None if 128 bits cannot hold a time.
fn is_near(
    since: Option<i128>,
    (wanted, half): (i128, i128),
    unit: i128,
    part: i128,
) -> Option<bool> {
    let off = rounded(since?, part)?.checked_sub(wanted)?;
    Some(off.unsigned_abs() <= half.max(unit).unsigned_abs())
}

/// Whether all stamps agree with the rates.
fn agrees<A: Allocator + Copy>(
    track: &StampTrack<'_>,
    clock: &Clock<A>,
    sight: StampScale,
) -> bool {
    let Some(first) = track.ticks.first() else {
        return true;
    };
    let start = match first.stamp {
        Some(_) => time_of_tick(first, track.timemult),
        None => Some(0),
    };
    let (Some(start), Some(unit)) = (start, time_of_stamp(Num::of(1), track.timemult)) else {
        return false;
    };
    let mut at = 0usize;
    for (i, tick) in track.ticks.iter().enumerate() {
        if tick.stamp.is_none() {
            continue;
        }
        let row = if sight.by_number {
            tick.number.abs_diff(first.number)
        } else {
            i as u64
        };
        let Some(wanted) = clock.time_of(&mut at, row) else {
            return false;
        };
        let since = time_of_tick(tick, track.timemult).and_then(|time| time.checked_sub(start));
        if is_near(since, wanted, unit, sight.part) != Some(true) {
            return false;
        }
    }
    true
}

fn stamps_fall(ticks: &[Tick], timemult: Decimal) -> bool {
    let mut before: Option<i128> = None;
    for tick in ticks {
        let time = time_of_tick(tick, timemult);
        if let (Some(before), Some(time)) = (before, time) {
            if time < before {
                return true;
            }
        }
        before = time;
    }
    false
}

fn are_same(ticks: &[Tick]) -> bool {
    let mut first: Option<i64> = None;
    for tick in ticks {
        let Some(stamp) = tick.stamp else {
            return false;
        };
        let n = stamp.whole();
        if n.is_none() || first.is_some() && first != n {
            return false;
        }
        first = n;
    }
    1 < ticks.len()
}

/// What the stamps turn out to be.
#[derive(Clone, Copy, PartialEq, Eq)]
enum StampMeaning {
    /// There are none.
    None,
    /// They are kept except for a shift and rounding, and divided by this number.
    Kept(i128),
    /// The times come from the rates.
    ByRate,
}

/// Decides on stamps if there are rates.
fn beside_rates<A: Allocator + Copy>(
    notes: &mut Notes<A>,
    track: &StampTrack<'_>,
    clock: &Clock<A>,
) -> Result<StampMeaning, ImportFault> {
    let plain = StampScale {
        part: 1,
        by_number: false,
    };
    if track.ticks.len() < 2 || agrees(track, clock, plain) {
        return Ok(StampMeaning::Kept(1));
    }
    let nanos = StampScale {
        part: 1_000,
        by_number: false,
    };
    let is_micro = time_of_stamp(Num::of(1), track.timemult) == Some(1_000_000);
    if is_micro && agrees(track, clock, nanos) {
        notes.tell(Key::StampsNs, track.place, &[])?;
        return Ok(StampMeaning::Kept(1_000));
    }
    if stamps_fall(track.ticks, track.timemult) {
        notes.tell(Key::StampsRestart, track.place, &[])?;
    } else {
        notes.tell(Key::StampsAgainstRate, track.place, b"the rate is used")?;
    }
    Ok(StampMeaning::ByRate)
}

fn without_rates<A: Allocator + Copy>(
    notes: &mut Notes<A>,
    track: &StampTrack<'_>,
    draft: &ConfigDraft<A>,
) -> Result<StampMeaning, ImportFault> {
    if are_same(track.ticks) {
        notes.tell(Key::TimesUnknown, track.place, &[])?;
        return Ok(StampMeaning::Kept(1));
    }
    if draft.revision == Revision::Of2013 && draft.has_nanos {
        notes.tell(Key::StampsNs, track.place, &[])?;
        return Ok(StampMeaning::Kept(1_000));
    }
    Ok(StampMeaning::Kept(1))
}

fn has_no_stamp(ticks: &[Tick]) -> bool {
    for tick in ticks {
        if tick.stamp.is_some() {
            return false;
        }
    }
    true
}

fn found_of<A: Allocator + Copy>(
    notes: &mut Notes<A>,
    track: &StampTrack<'_>,
    draft: &ConfigDraft<A>,
    clock: Option<&Clock<A>>,
) -> Result<StampMeaning, ImportFault> {
    if has_no_stamp(track.ticks) {
        let key = if clock.is_some() {
            Key::StampsAbsent
        } else {
            Key::TimesUnknown
        };
        notes.tell(key, track.place, &[])?;
        return Ok(StampMeaning::None);
    }
    match clock {
        Some(clock) => beside_rates(notes, track, clock),
        None => without_rates(notes, track, draft),
    }
}

/// Whether rows are lost: the numbers have gaps, and so do the stamps.
fn are_lost<A: Allocator + Copy>(track: &StampTrack<'_>, clock: &Clock<A>) -> bool {
    let plain = StampScale {
        part: 1,
        by_number: false,
    };
    let numbered = StampScale {
        part: 1,
        by_number: true,
    };
    agrees(track, clock, numbered) && !agrees(track, clock, plain)
}

/// Which rate gives the interval across each border, by the stamps divided by so much.
fn border_by(track: &StampTrack<'_>, rates: &[Rate], part: i128) -> Border {
    let Some(pico) = Decimal::new(1, 6) else {
        return Border::Old;
    };
    let start = start_of(track);
    let mut search = search_in(rates, true, pico);
    for (i, tick) in track.ticks.iter().enumerate() {
        search = search.after(i as u64, time_since(track, tick, start, part));
    }
    search.border()
}

/// Which rate gives the interval across each border, by stamps that may be in nanoseconds.
fn border_in(track: &StampTrack<'_>, rates: &[Rate]) -> Border {
    if rates.len() < 2 {
        return Border::Old;
    }
    match border_by(track, rates, 1) {
        Border::Old => border_by(track, rates, 1_000),
        Border::New => Border::New,
    }
}

/// The times that are written. `is_cut` if an incomplete row was left out.
pub(crate) fn times_of<A: Allocator + Copy>(
    alloc: A,
    notes: &mut Notes<A>,
    draft: &ConfigDraft<A>,
    track: &StampTrack<'_>,
    is_cut: bool,
) -> Result<Times<A>, ImportFault> {
    let run = run_of(track.ticks);
    let mut is_lost = false;
    for border in [Border::Old, Border::New] {
        if let Some(clock) = Clock::new(alloc, &draft.rates.list, border)? {
            is_lost = is_lost || run == Numbering::Gaps && are_lost(track, &clock);
        }
    }
    if is_lost {
        tell_lost(notes, track.ticks)?;
        let (stamps, timemult) = kept(alloc, notes, track, 1)?;
        return Ok(Times {
            stamps,
            timemult,
            rates: Vec::new(alloc),
        });
    }
    if run != Numbering::Plain {
        tell_numbers(notes, track.ticks)?;
    }
    let rates = rates_for(alloc, notes, draft, track.ticks.len() as u64, is_cut)?;
    let clock = Clock::new(alloc, &rates, border_in(track, &rates))?;
    let found = found_of(notes, track, draft, clock.as_ref())?;
    let (stamps, timemult) = settled(alloc, notes, track, clock.as_ref(), found)?;
    Ok(Times {
        stamps,
        timemult,
        rates,
    })
}

/// The stamps that are written, and their multiplier.
fn settled<A: Allocator + Copy>(
    alloc: A,
    notes: &mut Notes<A>,
    track: &StampTrack<'_>,
    clock: Option<&Clock<A>>,
    found: StampMeaning,
) -> Result<(Vec<Option<u64>, A>, Decimal), ImportFault> {
    match (found, clock, Decimal::new(1, 0)) {
        (StampMeaning::ByRate, Some(clock), Some(one)) => Ok((
            stamps_by_rate(alloc, track, clock)?,
            one,
        )),
        (StampMeaning::Kept(part), _, _) => kept(alloc, notes, track, part),
        _ => {
            let mut list = Vec::new(alloc);
            for _ in 0..track.ticks.len() {
                list.push(None)?;
            }
            Ok((list, track.timemult))
        }
    }
}
