//! Moments, as a user writes them.

use jiff_core::civil::{Date, DateTime, Time};

/// A moment of a record.
#[derive(Clone, Copy, PartialEq, Eq)]
pub(crate) enum Moment {
    /// The row of this index, from 0.
    Row(u64),
    /// Nanoseconds since the trigger.
    SinceTrigger(i128),
    /// Nanoseconds since 1970-01-01 00:00:00.
    Instant(i128),
}

/// The value of up to 18 decimal digits.
fn digits(text: &str) -> Option<u64> {
    if 18 < text.len() || !text.bytes().all(|b| b.is_ascii_digit()) {
        return None;
    }
    text.parse::<u64>().ok()
}

/// The value of the first digits after a point, as many as are asked for; zeros follow a text with
/// fewer.
fn places(text: &str, count: u32) -> Option<u64> {
    if !text.bytes().all(|b| b.is_ascii_digit()) {
        return None;
    }
    let (mut number, mut left) = (0u64, count);
    for b in text.bytes() {
        let Some(less) = left.checked_sub(1) else {
            break;
        };
        left = less;
        number = number
            .checked_mul(10)?
            .checked_add(u64::from(b.checked_sub(b'0')?))?;
    }
    number.checked_mul(10u64.checked_pow(left)?)
}

/// The text before a sign and the text after it; without the sign, all of it and nothing.
fn halves(text: &str, sign: char) -> (&str, &str) {
    text.split_once(sign).unwrap_or((text, ""))
}

/// Milliseconds as a decimal without an exponent, in nanoseconds.
fn millis_of(text: &str) -> Option<i128> {
    let (is_before, size) = match (text.strip_prefix('-'), text.strip_prefix('+')) {
        (Some(size), _) => (true, size),
        (None, Some(size)) => (false, size),
        (None, None) => (false, text),
    };
    let (whole, fraction) = halves(size, '.');
    let millis = i128::from(digits(whole)?);
    let nanos = millis * 1_000_000 + i128::from(places(fraction, 6)?);
    Some(if is_before { -nanos } else { nanos })
}

/// Milliseconds as a decimal without an exponent, in nanoseconds; None for other texts.
pub fn nanos_in(text: &str) -> Option<i64> {
    i64::try_from(millis_of(text)?).ok()
}

/// A number of one or two digits.
fn small(text: &str) -> Option<i8> {
    i8::try_from(digits(text)?).ok()
}

/// `hh:mm:ss.fraction`, `hh:mm:ss` or `hh:mm`
fn time_of(text: &str) -> Option<Time> {
    let (hour, rest) = text.split_once(':')?;
    // (seconds may be left out)
    let (minute, second) = rest.split_once(':').unwrap_or((rest, "0"));
    let (second, fraction) = halves(second, '.');
    let nanos = i32::try_from(places(fraction, 9)?).ok()?;
    Time::new(small(hour)?, small(minute)?, small(second)?, nanos).ok()
}

/// A date `yyyy-mm-dd` and a time of day, with a T or a blank between them.
fn instant_of(text: &str) -> Option<i128> {
    let (date, time) = match text.split_once('T') {
        Some(parts) => parts,
        None => text.split_once(' ')?,
    };
    let (year, rest) = date.split_once('-')?;
    let (month, day) = rest.split_once('-')?;
    let year = i16::try_from(digits(year)?).ok()?;
    let date = Date::new(year, small(month)?, small(day)?).ok()?;
    let time = time_of(time)?;
    Some(DateTime { date, time }.to_nanosecond())
}

/// The moment that a text gives: `row N`, from 1, milliseconds since the trigger, or an instant.
pub(crate) fn moment_of(text: &str) -> Option<Moment> {
    let text = text.trim();
    if let Some(rest) = text.strip_prefix("row") {
        return Some(Moment::Row(digits(rest.trim())?.checked_sub(1)?));
    }
    let size = match text.strip_suffix("ms") {
        Some(size) => size,
        None => text,
    };
    if let Some(nanos) = millis_of(size.trim()) {
        return Some(Moment::SinceTrigger(nanos));
    }
    Some(Moment::Instant(instant_of(text)?))
}
