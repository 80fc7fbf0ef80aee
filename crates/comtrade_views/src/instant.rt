//! Instants as dates, and spans of time.

ghost use Rattle.std.specs.Prelude.{◌≡◌, ◌++◌, ◌<ℤ◌, neg_ℤ, pos, OnOk, codes, int_lt, if◌then◌else◌};
ghost use Rattle.comtrade_values.specs.Dates.{civil_text};
ghost use Rattle.jiff_core.specs.Calendar.{IsBetween};
ghost use Rattle.comtrade_views.specs.Texts.{millis};

use comtrade_values::{has_date, put, put_civil, put_number, put_padded};
use std::alloc::{AllocError, Allocator};

/// The length of a date with a time of day up to its point, `yyyy-mm-dd hh:mm:ss.`.
const TO_POINT: usize = 20;

/// The words for an instant outside the years 1 to 9999.
fn words_of(instant: i128) -> &'static str
    ensures { result.now ≡ (if int_lt instant (pos 0) then codes "before the year 1" else codes "after the year 9999") }
{
    if instant < 0 {
        "before the year 1"
    } else {
        "after the year 9999"
    }
}

/// Microseconds since 1970-01-01 00:00:00 as `yyyy-mm-dd hh:mm:ss.ssssss`; words for an instant
/// outside the years 1 to 9999.
pub(crate) fn put_instant<A: Allocator>(
    out: &mut Vec<u8, A>,
    instant: i128,
) -> Result<(), AllocError>
    ensures { OnOk result (IsBetween (neg_ℤ (pos 62135596800000000)) (pos 253402300799999999) instant
        → out.new.items ≡ out.old.items ++ civil_text 32 instant) }
{
    if let Ok(micros) = i64::try_from(instant) {
        if has_date(micros) {
            return put_civil(out, micros, b' ');
        }
    }
    put(out, words_of(instant))
}

/// The text of the previous instant, kept with its second: another instant of the same second
/// differs only in the last digits.
#[derive(Drop)]
pub(crate) struct InstantText<A: Allocator> {
    second: Option<i64>,
    text: Vec<u8, A>,
}

impl<A: Allocator> InstantText<A> {
    pub(crate) fn new(alloc: A) -> InstantText<A> {
        InstantText {
            second: None,
            text: Vec::new(alloc),
        }
    }

    /// Writes the text of an instant anew.
    fn renew(&mut self, instant: i128) -> Result<(), AllocError> {
        self.second = None;
        self.text.clear();
        put_instant(&mut self.text, instant)
    }

    /// The text of an instant, as [`put_instant`] writes it.
    pub(crate) fn of(&mut self, instant: i128) -> Result<&[u8], AllocError> {
        let Ok(micros) = i64::try_from(instant) else {
            self.renew(instant)?;
            return Ok(&self.text);
        };
        let second = micros.div_euclid(1_000_000);
        if self.second == Some(second) {
            self.text.truncate(TO_POINT);
            put_padded(
                &mut self.text,
                micros.rem_euclid(1_000_000).unsigned_abs(),
                6,
            )?;
        } else {
            self.renew(instant)?;
            if has_date(micros) {
                self.second = Some(second);
            }
        }
        Ok(&self.text)
    }
}

/// Nanoseconds as milliseconds with three places.
pub(crate) fn put_millis<A: Allocator>(out: &mut Vec<u8, A>, nanos: i128) -> Result<(), AllocError>
    ensures { OnOk result (out.new.items ≡ out.old.items ++ millis nanos) }
{
    let us = (nanos.unsigned_abs() + 500) / 1000;
    if nanos < 0 && us != 0 {
        out.extend_from_slice(b"-")?;
    }
    put_number(out, us / 1000)?;
    put(out, ".")?;
    put_padded(out, (us % 1000) as u64, 3)
}
