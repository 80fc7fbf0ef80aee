//! The timebase of a station, which two threads share: the acquisition takes in readings of the
//! clocks, and the export asks for dates.

ghost use Rattle.std.specs.Prelude.{◌≡◌, ◌≤◌, pos, IfOk, IfSome, is_some};
ghost use Rattle.dfr_station.specs.Dated.{is_followed};
ghost use Rattle.dfr_station.specs.Followed as spec;

use crate::event::{ClockState, Followed};
use dfr_clock::{Drift, Jump, Reading, Settings, Timebase};
use std::alloc::{AllocError, Allocator};

/// How many parts of the course of time are kept, for records that are written late: those of nine
/// hours at least.
const KEPT: usize = 4_096;

/// How the clock is followed. At most `gap` lost scans stand for a gap.
fn settings_at(rate: u32, gap: u32) -> Settings
    ensures { result ≡ record {
      rate = rate;
      window = 8_000_000;
      slew = 1_000;
      late = 2_500_000;
      apart = 50_000;
      step = 2_000;
      most = gap;
    } }
{
    Settings {
        rate,
        window: 8_000_000,
        slew: 1_000,
        late: 2_500_000,
        apart: 50_000,
        step: 2_000,
        most: gap,
    }
}

/// The timebase that begins with this reading. None if there is none, or it counts no scan.
pub(crate) fn timebase_of<A: Allocator>(
    alloc: A,
    rate: u32,
    gap: u32,
    first: Option<Reading>,
) -> Result<Option<Timebase<A>>, AllocError>
    requires rate { (1 ≤ rate) × (rate ≤ 1_000_000) }
    ensures { IfOk result (λ timebase. is_some timebase ≡ is_followed first) }
{
    let Some(first) = first else {
        return Ok(None);
    };
    if first.scans == 0 {
        return Ok(None);
    }
    let timebase = Timebase::new(alloc, settings_at(rate, gap), first, KEPT)?;
    Ok(Some(timebase))
}

/// A number of the timebase as one of 64 bits; the greatest one if it is beyond.
fn size_of(number: u128) -> i64
    ensures { result ≡ pos (spec.size_of number) }
{
    match i64::try_from(number) {
        Ok(number) => number,
        Err(_) => i64::MAX,
    }
}

/// By how many microseconds the clock was set.
pub(crate) fn micros_of(jump: Jump) -> i64
    ensures { result ≡ spec.micros_of jump }
{
    match jump {
        Jump::Forward(micros) => size_of(micros),
        Jump::Back(micros) => -size_of(micros),
    }
}

/// By how many parts per billion scans come faster than the rate says.
fn parts_of(drift: Drift) -> i64
    ensures { result ≡ spec.parts_of drift }
{
    match drift {
        Drift::Fast(parts) => size_of(parts),
        Drift::Slow(parts) => -size_of(parts),
    }
}

/// How the clock is followed, where scan 0 has this instant by the set-up.
pub(crate) fn followed_by<A: Allocator>(timebase: &Timebase<A>, start: i64) -> Option<Followed>
    ensures { IfSome result (λ followed. spec.IsFollowed timebase.now start followed) }
{
    let start = u64::try_from(start).ok()?;
    let offset = i64::try_from(timebase.offset(start)).ok()?;
    Some(Followed {
        offset,
        drift: match timebase.drift() {
            Some(drift) => Some(parts_of(drift)),
            None => None,
        },
    })
}

/// How the wall clock and the scans stand to each other, if the clock was so much ahead of the newest
/// scan.
pub(crate) fn clock_state<A: Allocator>(
    ahead: Option<i64>,
    start: i64,
    times: Option<&Timebase<A>>,
) -> Option<ClockState> {
    let ahead = ahead?;
    let followed = match times {
        Some(timebase) => followed_by(timebase, start),
        None => None,
    };
    Some(ClockState { ahead, followed })
}

/// What is known of the clock when a record is written.
#[derive(Clone, Copy)]
pub(crate) struct Clocked {
    pub(crate) state: Option<ClockState>,
    /// The converter told the time by which the record's trigger has a date.
    pub(crate) is_told: bool,
}

/// Whether the converter told the time by which scan k has a date.
pub(crate) fn is_told<A: Allocator>(times: Option<&Timebase<A>>, k: u64) -> bool {
    match times {
        Some(timebase) => timebase.is_told(k),
        None => false,
    }
}
