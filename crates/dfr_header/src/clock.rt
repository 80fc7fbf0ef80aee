//! How the wall clock and the scans stood to each other.

ghost use Rattle.std.specs.Prelude.{◌≡◌, ◌++◌, OnOk};
ghost use Rattle.dfr_header.specs.Headers as spec;

use crate::lines::{put_parts_line, put_seconds_line};
use comtrade_values::put;
use std::alloc::{AllocError, Allocator};

/// What gave a record its instants.
#[derive(Clone, Copy, Debug, PartialEq, Eq)]
pub enum Dates {
    /// The instant of the first scan of the recording, and the sampling rate.
    Rate,
    /// The wall clock of the machine, which was followed.
    Wall,
    /// The converter, which told the time with its scans.
    Converter,
    /// The global clock to which the streams of a process bus say they are synchronised.
    Global,
    /// The time stamps of a capture.
    Capture,
}

/// How the wall clock and the scans stood to each other when a header was made.
#[derive(Clone, Copy, Debug, PartialEq, Eq)]
pub struct Clock {
    /// How many microseconds the wall clock was ahead of the time of the newest scan by the rate
    /// alone.
    pub ahead: i64,
    /// By how many microseconds the newest scan was later than by the rate alone. None if the clock
    /// doesn't date records.
    pub offset: Option<i64>,
    /// By how many parts per billion scans came faster than the rate says; below 0 if they came
    /// slower. None if it isn't known.
    pub drift: Option<i64>,
}

fn put_offset<A: Allocator>(out: &mut Vec<u8, A>, offset: Option<i64>) -> Result<(), AllocError>
    ensures { OnOk result (out.new.items ≡ out.old.items ++ spec.offset_text offset) }
{
    match offset {
        Some(micros) => put_seconds_line(out, "Offset, later than by the rate: ", micros),
        None => Ok(()),
    }
}

fn put_drift<A: Allocator>(out: &mut Vec<u8, A>, drift: Option<i64>) -> Result<(), AllocError>
    ensures { OnOk result (out.new.items ≡ out.old.items ++ spec.drift_text drift) }
{
    match drift {
        Some(parts) => put_parts_line(out, "Drift, faster than the rate: ", parts),
        None => Ok(()),
    }
}

/// Appends how the clock is followed, if it is.
fn put_followed<A: Allocator>(
    out: &mut Vec<u8, A>,
    offset: Option<i64>,
    drift: Option<i64>,
) -> Result<(), AllocError>
    ensures { OnOk result (out.new.items ≡ out.old.items ++ (spec.offset_text offset ++ spec.drift_text drift)) }
{
    put_offset(out, offset)?;
    put_drift(out, drift)
}

/// Appends how far the wall clock was ahead.
#[tactic(auto, unfolding(crate::specs::Headers::ahead_text))]
fn put_ahead<A: Allocator>(out: &mut Vec<u8, A>, micros: i64) -> Result<(), AllocError>
    ensures { OnOk result (out.new.items ≡ out.old.items ++ spec.ahead_text micros) }
{
    put_seconds_line(out, "Wall clock, ahead of the rate: ", micros)
}

#[tactic(auto, unfolding(crate::specs::Headers::state_text))]
fn put_state<A: Allocator>(out: &mut Vec<u8, A>, clock: Clock) -> Result<(), AllocError>
    ensures { OnOk result (out.new.items ≡ out.old.items ++ spec.state_text clock) }
{
    put_ahead(out, clock.ahead)?;
    put_followed(out, clock.offset, clock.drift)
}

/// Appends how the wall clock and the scans stood to each other, if that is known.
fn put_clock<A: Allocator>(out: &mut Vec<u8, A>, clock: Option<Clock>) -> Result<(), AllocError>
    ensures { OnOk result (out.new.items ≡ out.old.items ++ spec.clock_text clock) }
{
    match clock {
        Some(clock) => put_state(out, clock),
        None => Ok(()),
    }
}

fn put_dates<A: Allocator>(out: &mut Vec<u8, A>, dates: Dates) -> Result<(), AllocError>
    ensures { OnOk result (out.new.items ≡ out.old.items ++ spec.dates_text dates) }
{
    match dates {
        Dates::Rate => put(
            out,
            "Instants: of the first scan of the recording and the sampling rate\r\n",
        ),
        Dates::Wall => put(out, "Instants: of the wall clock, which was followed\r\n"),
        Dates::Converter => put(out, "Instants: of the converter, which told the time\r\n"),
        Dates::Global => put(
            out,
            "Instants: of the global clock of the streams (smpSynch 2)\r\n",
        ),
        Dates::Capture => put(out, "Instants: of the time stamps of the capture\r\n"),
    }
}

/// Appends what the instants are, and how the clock stood.
pub(crate) fn put_time<A: Allocator>(
    out: &mut Vec<u8, A>,
    dates: Dates,
    clock: Option<Clock>,
) -> Result<(), AllocError>
    ensures { OnOk result (out.new.items ≡ out.old.items ++ (spec.dates_text dates ++ spec.clock_text clock)) }
{
    put_dates(out, dates)?;
    put_clock(out, clock)
}
