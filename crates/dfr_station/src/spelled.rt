//! Words, instants and times as the lines of events have them.

ghost use Rattle.std.specs.Prelude.{◌≡◌, ◌+◌, ◌/◌, ◌++◌, unsigned_abs, OnOk};
ghost use Rattle.dfr_station.specs.Printed as spec;

use crate::event::{ClockState, Followed, Skipped, Trouble};
use crate::intake::Why;
use comtrade_values::{has_date, put, put_civil, put_padded, put_with};
use std::alloc::{AllocError, Allocator};

/// Appends an instant, in microseconds since 1970-01-01 00:00:00 UTC,
/// as `yyyy-mm-ddThh:mm:ss.ffffff`.
pub(crate) fn put_instant<A: Allocator>(
    out: &mut Vec<u8, A>,
    instant: i64,
) -> Result<(), AllocError>
    ensures { OnOk result (out.new.items ≡ out.old.items ++ spec.instant_text instant) }
{
    if has_date(instant) {
        put_civil(out, instant, b'T')
    } else {
        put(out, "?")
    }
}

/// The size of a number of microseconds in milliseconds, to the nearest.
fn rounded_millis(micros: i64) -> u64
    ensures { result ≡ (unsigned_abs micros + 500) / 1_000 }
{
    (micros.unsigned_abs() + 500) / 1_000
}

pub(crate) fn put_skipped_word<A: Allocator>(
    out: &mut Vec<u8, A>,
    why: Skipped,
) -> Result<(), AllocError>
    ensures { OnOk result (out.new.items ≡ out.old.items ++ spec.skipped_word why) }
{
    match why {
        Skipped::Word => put(out, "word"),
        Skipped::Fields => put(out, "fields"),
        Skipped::Number => put(out, "number"),
        Skipped::NoChannel => put(out, "no-channel"),
        Skipped::TooMany => put(out, "too-many"),
        Skipped::Long => put(out, "long"),
        Skipped::Busy => put(out, "busy"),
        Skipped::Undated => put(out, "undated"),
        Skipped::Memory => put(out, "memory"),
    }
}

#[tactic(auto, unfolding(crate::specs::Printed::line_text))]
pub(crate) fn put_skipped<A: Allocator>(
    out: &mut Vec<u8, A>,
    line: u64,
    why: Skipped,
) -> Result<(), AllocError>
    ensures { OnOk result (out.new.items ≡ out.old.items ++ spec.line_text line why) }
{
    put_with(out, "skipped line ", line)?;
    put(out, " ")?;
    put_skipped_word(out, why)
}

/// Appends that a line of an operator was refused.
pub(crate) fn put_refused<A: Allocator>(
    out: &mut Vec<u8, A>,
    why: Skipped,
) -> Result<(), AllocError>
    ensures { OnOk result (out.new.items ≡ out.old.items ++ spec.refused_text why) }
{
    put(out, "operator refused ")?;
    put_skipped_word(out, why)
}

pub(crate) fn put_trouble_word<A: Allocator>(
    out: &mut Vec<u8, A>,
    trouble: Trouble,
) -> Result<(), AllocError>
    ensures { OnOk result (out.new.items ≡ out.old.items ++ spec.trouble_word trouble) }
{
    match trouble {
        Trouble::Full => put(out, "full"),
        Trouble::Gone => put(out, "gone"),
        Trouble::Denied => put(out, "denied"),
        Trouble::Memory => put(out, "memory"),
        Trouble::Other => put(out, "other"),
        Trouble::Storm => put(out, "storm"),
    }
}

pub(crate) fn put_why<A: Allocator>(out: &mut Vec<u8, A>, why: Why) -> Result<(), AllocError>
    ensures { OnOk result (out.new.items ≡ out.old.items ++ spec.why_text why) }
{
    match why {
        Why::Told => put(out, "told"),
        Why::Unread => put(out, "unread"),
        Why::Shape => put(out, "shape"),
        Why::Range(channel) => put_with(out, "range ", channel as u64),
        Why::Full => put(out, "full"),
        Why::Memory => put(out, "memory"),
        Why::Counted => put(out, "counted"),
        Why::Silent => put(out, "silent"),
    }
}

fn put_sign<A: Allocator>(out: &mut Vec<u8, A>, is_negative: bool) -> Result<(), AllocError>
    ensures { OnOk result (out.new.items ≡ out.old.items ++ spec.sign_text is_negative) }
{
    put(out, if is_negative { "-" } else { "+" })
}

/// Appends a number of thousandths with a sign and three decimal places.
#[tactic(auto, unfolding(crate::specs::Printed::thousandths_text))]
fn put_thousandths<A: Allocator>(
    out: &mut Vec<u8, A>,
    is_negative: bool,
    size: u64,
) -> Result<(), AllocError>
    ensures { OnOk result (out.new.items ≡ out.old.items ++ spec.thousandths_text is_negative size) }
{
    put_sign(out, is_negative && size > 0)?;
    put_padded(out, size / 1_000, 1)?;
    put(out, ".")?;
    put_padded(out, size % 1_000, 3)
}

/// Appends a word and a time in seconds, to the nearest millisecond.
#[tactic(auto, unfolding(crate::specs::Printed::seconds_text))]
pub(crate) fn put_seconds<A: Allocator>(
    out: &mut Vec<u8, A>,
    word: &str,
    micros: i64,
) -> Result<(), AllocError>
    ensures { OnOk result (out.new.items ≡ out.old.items ++ spec.seconds_text word.now micros) }
{
    put(out, word)?;
    put_thousandths(out, micros < 0, rounded_millis(micros))
}

/// Appends by how many parts per million scans come faster, if that is known.
fn put_drift<A: Allocator>(out: &mut Vec<u8, A>, drift: Option<i64>) -> Result<(), AllocError>
    ensures { OnOk result (out.new.items ≡ out.old.items ++ spec.drift_text drift) }
{
    match drift {
        Some(drift) => {
            put(out, " drift ")?;
            put_thousandths(out, drift < 0, drift.unsigned_abs())
        }
        None => Ok(()),
    }
}

/// Appends how the clock is followed: the offset in seconds, and the drift.
fn put_followed<A: Allocator>(
    out: &mut Vec<u8, A>,
    followed: Option<Followed>,
) -> Result<(), AllocError>
    ensures { OnOk result (out.new.items ≡ out.old.items ++ spec.followed_text followed) }
{
    match followed {
        Some(followed) => {
            put_seconds(out, " offset ", followed.offset)?;
            put_drift(out, followed.drift)
        }
        None => Ok(()),
    }
}

/// Appends how the wall clock and the scans stand to each other.
pub(crate) fn put_clock<A: Allocator>(
    out: &mut Vec<u8, A>,
    clock: Option<ClockState>,
) -> Result<(), AllocError>
    ensures { OnOk result (out.new.items ≡ out.old.items ++ spec.clock_text clock) }
{
    match clock {
        Some(clock) => {
            put_seconds(out, " clock ", clock.ahead)?;
            put_followed(out, clock.followed)
        }
        None => Ok(()),
    }
}
