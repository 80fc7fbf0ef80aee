//! What dates the scans: the machine's clock, the capture, or the set-up alone.

ghost use Rattle.std.specs.Prelude.{◌≡◌, ◌+◌, ◌*◌, ◌/◌, pos, is_some, if◌then◌else◌};
ghost use Rattle.dfr_header.specs.declared.clock.Dates.TheVariants.{Wall, Capture};

use crate::record::Plan;
use crate::words::Asked;
use dfr_clock::Reading;
use dfr_station::{Dates, Event, First, Printer, Sources, now};
use std::alloc::Global;
use std::sync::Wait;
use std::time::Clock;

/// The microsecond of this nanosecond.
fn micros_of(time: u64) -> i64
    ensures { result ≡ pos (time / 1_000) }
{
    (time / 1_000) as i64
}

/// A reading of the clocks by which scan 0 came at this nanosecond, and each other one by the rate. It
/// counts the scans of a billion seconds: until these came the machine's clock, which says nothing of
/// a stored capture, is not asked. What the lines tell counts as ever.
fn reading_at(time: u64, rate: u32) -> Reading
    ensures scans { result.scans ≡ rate * 1_000_000_000 + 1 }
    ensures wall { result.wall ≡ time / 1_000 + 1_000_000_000 * 1_000_000 }
{
    Reading {
        scans: u64::from(rate) * 1_000_000_000 + 1,
        wall: time / 1_000 + 1_000_000_000 * 1_000_000,
        mono: 0,
    }
}

/// The nanosecond of the first scan, if the input is a stored capture: one that waits.
fn stored_at<R: Wait>(rt: &R, plan: &Plan, waits: bool) -> Option<u64> {
    match &plan.first {
        Some(first) if waits => first.known(rt),
        _ => None,
    }
}

/// What gives records their dates, where the first scan of a stored capture came at this nanosecond.
fn sources_of(told: Dates, stored: Option<u64>) -> Sources
    ensures told { result.told ≡ told }
    ensures followed { result.followed ≡ (if is_some stored then Capture else Wall) }
{
    Sources {
        followed: if stored.is_some() {
            Dates::Capture
        } else {
            Dates::Wall
        },
        told,
    }
}

/// Decides what dates the scans. Returns the instant of scan 0, in microseconds since 1970-01-01
/// 00:00:00 UTC, and what gives records their dates.
pub(crate) fn date<P: Printer, R: Wait + Clock>(
    rt: &R,
    asked: &Asked<'_>,
    plan: &Plan,
    waits: bool,
    first: &mut First<Global>,
    printer: &mut P,
) -> (i64, Sources) {
    let stored = stored_at(rt, plan, waits);
    if !asked.has_dates(waits) {
        first.clocks = None;
    } else if let Some(time) = stored {
        first.clocks = Some(reading_at(time, plan.rate));
    } else if !first.is_followed() && !first.is_empty() {
        printer.print(now(rt), Event::Undated);
    }
    let start = match (asked.start, stored) {
        (Some(start), _) => start,
        (None, Some(time)) => micros_of(time),
        (None, None) => first.start(plan.rate),
    };
    (start, sources_of(plan.told, stored))
}
