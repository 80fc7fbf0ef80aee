//! Dates and times of day in the forms found in practice.

use crate::text::{DIGITS, around_any, has_only};
use comtrade_values::{numeral_of, trim};
use jiff_core::civil::Date;

/// Which of day and month comes first in the dates of a file.
#[derive(Clone, Copy, Debug, PartialEq, Eq)]
pub enum Order {
    DayFirst,
    MonthFirst,
}

/// The parts of a date, before the order of day and month is known.
#[derive(Clone, Copy)]
pub(crate) struct Civil {
    first: u32,
    second: u32,
    pub year: u32,
    /// The year comes first, or the month is a name: the order is certain.
    is_fixed: bool,
    pub has_short_year: bool,
    /// It has another form than dd/mm/yyyy or mm/dd/yyyy, with up to two digits for day and month.
    pub is_other: bool,
}

/// A time of day in microseconds since midnight.
#[derive(Clone, Copy)]
pub(crate) struct TimeOfDay {
    pub micros: i64,
    pub is_24: bool,
    pub is_leap: bool,
    /// It has more than six decimal places of a second.
    pub is_long: bool,
    /// It has a point without digits.
    pub is_odd: bool,
    pub has_comma: bool,
    /// A colon precedes its decimal places.
    pub has_colon: bool,
    /// It has a blank, as where one stands for a leading zero.
    pub has_blank: bool,
}

/// A whole number of at most nine digits; it may have blanks around it.
fn small(text: &[u8]) -> Option<u32> {
    let digits = trim(text);
    if 9 < digits.len() {
        return None;
    }
    u32::try_from(numeral_of(digits)?).ok()
}

/// The first three letters of the names of months.
const MONTHS: [&[u8]; 12] = [
    b"jan", b"feb", b"mar", b"apr", b"may", b"jun", b"jul", b"aug", b"sep", b"oct", b"nov", b"dec",
];

fn month_of(text: &[u8]) -> Option<u32> {
    let front = text.get(..3)?;
    for (number, month) in (1u32..).zip(MONTHS.iter()) {
        if front.eq_ignore_ascii_case(month) {
            return Some(number);
        }
    }
    None
}

/// The year of two digits (70 to 99 are in the 20th century) or of four; 0 if all digits are 0.
fn year_of(digits: &[u8]) -> Option<u32> {
    let year = small(digits)?;
    match digits.len() {
        2 if year < 70 => Some(year + 2000),
        2 if year < 100 => Some(year + 1900),
        4 => Some(year),
        _ if year == 0 => Some(0),
        _ => None,
    }
}

/// The parts of a date.
pub(crate) fn civil_of(text: &[u8]) -> Option<Civil> {
    let marks = b"/-. ";
    let (a, rest) = around_any(text, marks)?;
    let (b, c) = around_any(trim(rest), marks)?;
    let c = trim(c);
    let is_slashed = has_only(text, b"0123456789/") && text.contains(&b'/');
    let is_long = 2 < a.len() || 2 < b.len();
    if let Some(month) = month_of(b) {
        return Some(Civil {
            first: small(a)?,
            second: month,
            year: year_of(c)?,
            is_fixed: true,
            has_short_year: c.len() == 2,
            is_other: true,
        });
    }
    if 3 < a.len() {
        return Some(Civil {
            first: small(c)?,
            second: small(b)?,
            year: small(a)?,
            is_fixed: true,
            has_short_year: false,
            is_other: true,
        });
    }
    Some(Civil {
        first: small(a)?,
        second: small(b)?,
        year: year_of(c)?,
        is_fixed: false,
        has_short_year: c.len() == 2,
        is_other: is_long || !is_slashed,
    })
}

/// Days since 1970-01-01 of a civil date of the years 1 to 9999.
fn day_number(year: u32, month: u32, day: u32) -> Option<i64> {
    if year == 0 || 9_999 < year {
        return None;
    }
    let year = i16::try_from(year).ok()?;
    let month = i8::try_from(month).ok()?;
    let day = i8::try_from(day).ok()?;
    match Date::new(year, month, day) {
        Ok(date) => Some(i64::from(date.to_unix_epoch_day())),
        Err(_) => None,
    }
}

impl Civil {
    /// Whether all its numbers are 0.
    pub(crate) fn is_unset(self) -> bool {
        self.first == 0
            && self.second == 0
            && (self.year == 0 || self.has_short_year && self.year == 2000)
    }

    /// Days since 1970-01-01, if the date is valid in this order.
    pub(crate) fn day_in(self, order: Order) -> Option<i64> {
        if self.is_fixed || order == Order::DayFirst {
            day_number(self.year, self.second, self.first)
        } else {
            day_number(self.year, self.first, self.second)
        }
    }

    /// Whether the order of the date is certain.
    pub(crate) fn is_fixed(self) -> bool {
        self.is_fixed
    }
}

/// The units of the digits after a point, in microseconds.
const UNITS: [i64; 6] = [100_000, 10_000, 1_000, 100, 10, 1];

/// The digits after a point in microseconds, rounded, halves up.
fn micros_of(digits: &[u8]) -> Option<i64> {
    if !has_only(digits, DIGITS) {
        return None;
    }
    let mut micros = 0i64;
    for (b, unit) in digits.iter().zip(UNITS.iter()) {
        let digit = i64::from(b.checked_sub(b'0')?);
        micros = micros.checked_add(digit.checked_mul(*unit)?)?;
    }
    match digits {
        [_, _, _, _, _, _, b'5'..=b'9', ..] => micros.checked_add(1),
        _ => Some(micros),
    }
}

/// A time of day such as hh:mm:ss.ssssss, which the mark of UTC may follow.
pub(crate) fn clock_of(text: &[u8]) -> Option<TimeOfDay> {
    let text = match text {
        [front @ .., b'Z' | b'z'] => front,
        _ => text,
    };
    let (hours, rest) = around_any(text, b":")?;
    let (minutes, rest) = around_any(rest, b":")?;
    let (seconds, digits, has_point) = match around_any(rest, b".,:") {
        Some((seconds, digits)) => (seconds, digits, true),
        None => (rest, &rest[rest.len()..], false),
    };
    if 2 < hours.len() || 2 < minutes.len() || 2 < seconds.len() {
        return None;
    }
    let (hours, minutes, seconds) = (small(hours)?, small(minutes)?, small(seconds)?);
    let fraction = micros_of(digits)?;
    let is_24 = hours == 24 && minutes == 0 && seconds == 0 && fraction == 0;
    if 23 < hours && !is_24 || 59 < minutes || 60 < seconds {
        return None;
    }
    let whole = i64::from(hours) * 3600 + i64::from(minutes) * 60 + i64::from(seconds);
    Some(TimeOfDay {
        micros: whole.checked_mul(1_000_000)?.checked_add(fraction)?,
        is_24,
        is_leap: seconds == 60,
        is_long: 6 < digits.len(),
        is_odd: has_point && digits.is_empty(),
        has_comma: rest.contains(&b','),
        has_colon: rest.contains(&b':'),
        has_blank: text.contains(&b' '),
    })
}

/// The time of a day and a time of day, in microseconds since 1970-01-01, if 64 bits can hold it.
pub(crate) fn instant_of(day: i64, micros: i64) -> Option<i64> {
    day.checked_mul(86_400_000_000)?.checked_add(micros)
}

/// Whether a line can be a date and time: it has a colon, or all its fields are empty.
pub(crate) fn is_like_instant(line: &[u8], mark: u8) -> bool {
    line.contains(&b':') || line.contains(&b'/') || has_only(line, &[mark, b' ', b'\t'])
}
