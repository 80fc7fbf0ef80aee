//! Reads dates and times of day (C37.111-1999, 5.3.7).

ghost use Rattle.std.specs.Prelude.{◌≡◌, ◌≤◌, ◌<◌, ◌==◌, ◌↔◌, ◌≤ℤ◌, ◌-◌, length, position, Some, None, IfSome, IfOk, IsSome, IfNone, pos, neg_ℤ, unsigned_abs, ◌^◌, ◌+◌, ◌*◌};
ghost use Rattle.std.specs.List.{before_first, after_first};
ghost use Rattle.jiff_core.specs.Calendar.{IsBetween, IsDate, days_from_civil};
ghost use Rattle.comtrade_read.specs.declared.fault.ReadFault.TheVariants as faults;
ghost use Rattle.comtrade_read.specs.Instant as spec;
ghost use Rattle.comtrade_read.specs.Inner.LineFaults.{GivesField};
ghost use Rattle.comtrade_values.specs.Lines.{texts, field};

use crate::fault::ReadFault;
use comtrade_values::numeral_of;
use jiff_core::civil::Date;

/// The position of the first such byte.
pub(crate) fn place_of(text: &[u8], byte: u8) -> Option<usize>
    ensures { result ≡ position (λ b. b == byte) text.now }
{
    text.iter().position(|b| *b == byte)
}

/// The text before and the text after the first such byte, if there is one.
#[tactic(auto, using(comtrade_values::proofs::Cuts::cuts))]
fn cut_at(text: &[u8], byte: u8) -> Option<(&[u8], &[u8])>
    ensures found { IsSome result ↔ IsSome (position (λ b. b == byte) text.now) }
    ensures front { IfSome result (λ x. x.0.now ≡ before_first (λ b. b == byte) text.now) }
    ensures rest { IfSome result (λ x. x.1.now ≡ after_first (λ b. b == byte) text.now) }
{
    let at = place_of(text, byte)?;
    Some((&text[..at], &text[at + 1..]))
}

/// The number that `low` to `high` digits spell, at most six.
fn digits(low: usize, high: usize, text: &[u8]) -> Option<u32>
    requires low { 1 ≤ low }
    requires high { high ≤ 6 }
    ensures value { result ≡ spec.digits low high text.now }
    ensures short { IfSome result (λ n. (length text.now ≤ high) × (n < 10 ^ length text.now)) }
    ensures bound { IfSome result (λ n. n < 10 ^ high) }
{
    if text.len() < low {
        return None;
    }
    if high < text.len() {
        return None;
    }
    match numeral_of(text) {
        Some(number) => Some(number as u32),
        None => None,
    }
}

/// The day number of a date, counted from 1970-01-01; None if there is no such date.
fn civil(year: i16, month: i8, day: i8) -> Option<i32>
    ensures succeeds { IsSome result ↔ IsDate year month day }
    ensures value { IfSome result (λ n. n ≡ days_from_civil year (unsigned_abs month) (unsigned_abs day)) }
    ensures bound { IfSome result (λ n. IsBetween (neg_ℤ (pos 4371587)) (pos 2932896) n) }
{
    match Date::new(year, month, day) {
        Ok(date) => Some(date.to_unix_epoch_day()),
        Err(_) => None,
    }
}

/// The day number of a date from year 1 on.
#[tactic(auto, unfolding(crate::specs::Instant::day_at))]
fn day_at(year: u32, month: u32, day: u32) -> Option<i32>
    requires year { year < 10000 }
    requires month { month < 100 }
    requires day { day < 100 }
    ensures value { result ≡ spec.day_at year month day }
    ensures bound { IfSome result (λ n. IsBetween (neg_ℤ (pos 4371587)) (pos 2932896) n) }
{
    if year == 0 {
        return None;
    }
    civil(year as i16, month as i8, day as i8)
}

/// Reads a date, dd/mm/yyyy, as a day number.
#[tactic(auto, unfolding(crate::specs::Instant::date))]
fn date(text: &[u8]) -> Option<i32>
    ensures value { result ≡ spec.date text.now }
    ensures bound { IfSome result (λ n. IsBetween (neg_ℤ (pos 4371587)) (pos 2932896) n) }
{
    let (day, rest) = cut_at(text, b'/')?;
    let (month, year) = cut_at(rest, b'/')?;
    day_at(
        digits(4, 4, year)?,
        digits(1, 2, month)?,
        digits(1, 2, day)?,
    )
}

/// The microseconds that the digits after a point spell.
#[tactic(auto, unfolding(crate::specs::Instant::micros))]
fn micros(text: &[u8]) -> Option<u32>
    ensures value { result ≡ spec.micros text.now }
    ensures bound { IfSome result (λ n. n < 1000000) }
{
    let number = digits(1, 6, text)?;
    Some(number * 10u32.pow(6 - text.len() as u32))
}

/// Reads seconds, and the microseconds after the point if there is one.
#[tactic(auto, unfolding(crate::specs::Instant::seconds), using(comtrade_values::proofs::Cuts::cuts))]
fn seconds(text: &[u8]) -> Option<(u32, u32)>
    ensures value { result ≡ spec.seconds text.now }
    ensures bound { IfSome result (λ x. (x.0 < 100) × (x.1 < 1000000)) }
{
    match place_of(text, b'.') {
        None => Some((digits(1, 2, text)?, 0)),
        Some(at) => Some((digits(1, 2, &text[..at])?, micros(&text[at + 1..])?)),
    }
}

/// The microseconds since midnight, if there is such a time of day.
#[tactic(auto, unfolding(crate::specs::Instant::time_at))]
fn time_at(hours: u32, minutes: u32, seconds: u32, micros: u32) -> Option<u64>
    requires { micros < 1000000 }
    ensures value { result ≡ spec.time_at hours minutes seconds micros }
    ensures bound { IfSome result (λ n. n < 86400000000) }
{
    if 23 < hours || 59 < minutes || 59 < seconds {
        return None;
    }
    Some(((hours as u64 * 60 + minutes as u64) * 60 + seconds as u64) * 1_000_000 + micros as u64)
}

/// Reads a time of day as microseconds since midnight.
#[tactic(auto, unfolding(crate::specs::Instant::time))]
fn time(text: &[u8]) -> Option<u64>
    ensures value { result ≡ spec.time text.now }
    ensures bound { IfSome result (λ n. n < 86400000000) }
{
    let (hours, rest) = cut_at(text, b':')?;
    let (minutes, rest) = cut_at(rest, b':')?;
    let hours = digits(1, 2, hours)?;
    let minutes = digits(1, 2, minutes)?;
    let (seconds, micros) = seconds(rest)?;
    time_at(hours, minutes, seconds, micros)
}

/// Reads a date field as a day number; else `Instant`.
pub(crate) fn date_of(line: u64, fields: &[&[u8]]) -> Result<i32, ReadFault>
    requires { 0 < length fields.now }
    ensures value { GivesField (spec.date (field (texts fields.now) 0)) (faults.Instant line) result }
    ensures bound { IfOk result (λ n. IsBetween (neg_ℤ (pos 4371587)) (pos 2932896) n) }
{
    match date(fields[0]) {
        Some(day) => Ok(day),
        None => Err(ReadFault::Instant(line)),
    }
}

/// Reads a time field as microseconds since midnight; else `Instant`.
pub(crate) fn time_of(line: u64, fields: &[&[u8]]) -> Result<u64, ReadFault>
    requires { 1 < length fields.now }
    ensures value { GivesField (spec.time (field (texts fields.now) 1)) (faults.Instant line) result }
    ensures bound { IfOk result (λ n. n < 86400000000) }
{
    match time(fields[1]) {
        Some(micros) => Ok(micros),
        None => Err(ReadFault::Instant(line)),
    }
}

/// The instant in microseconds since 1970-01-01 00:00:00.
#[tactic(auto, unfolding(crate::specs::Instant::instant_at))]
pub(crate) fn instant_at(day: i32, micros: u64) -> i64
    requires day { IsBetween (neg_ℤ (pos 4371587)) (pos 2932896) day }
    requires micros { micros < 86400000000 }
    ensures { result ≡ spec.instant_at day micros }
{
    day as i64 * 86_400_000_000 + micros as i64
}
