//! Instants: as dates, and as text.

ghost use Rattle.std.specs.Prelude.{◌≡◌, ◌↔◌, ◌++◌, ◌∷◌, ◌<◌, ◌*ℤ◌, ℤ, pos, neg_ℤ, OnOk, IsSome, IfSome};
ghost use Rattle.std.specs.Bool.{Decides};
ghost use Rattle.jiff_core.specs.DateTime.{civil_nanos, IsCivilNanos};
ghost use Rattle.jiff_core.specs.Calendar.{IsBetween};
ghost use Rattle.comtrade_values.specs.Written.{padded};
ghost use Rattle.comtrade_values.specs.Dates.{civil_of, date_text, time_text, instant_text, year_first, civil_text};

use jiff_core::civil::{Date, DateTime};
use std::alloc::{AllocError, Allocator};

/// Microseconds per day.
const DAY: i64 = 86_400_000_000;

fn put_two<A: Allocator>(out: &mut Vec<u8, A>, n: u32) -> Result<(), AllocError>
    requires { n < 100 }
    ensures { OnOk result (out.new.items ≡ out.old.items ++ padded 2 n) }
{
    out.push(b'0' + (n / 10) as u8)?;
    out.push(b'0' + (n % 10) as u8)?;
    Ok(())
}

fn put_four<A: Allocator>(out: &mut Vec<u8, A>, n: u32) -> Result<(), AllocError>
    requires { n < 10000 }
    ensures { OnOk result (out.new.items ≡ out.old.items ++ padded 4 n) }
{
    put_two(out, n / 100)?;
    put_two(out, n % 100)
}

fn put_six<A: Allocator>(out: &mut Vec<u8, A>, n: u32) -> Result<(), AllocError>
    requires { n < 1000000 }
    ensures { OnOk result (out.new.items ≡ out.old.items ++ padded 6 n) }
{
    put_four(out, n / 100)?;
    put_two(out, n % 100)
}

/// Writes a time of day, given in microseconds since midnight.
fn put_time<A: Allocator>(out: &mut Vec<u8, A>, us: u64) -> Result<(), AllocError>
    requires { us < 86400000000 }
    ensures { OnOk result (out.new.items ≡ out.old.items ++ time_text us) }
{
    put_two(out, (us / 3_600_000_000) as u32)?;
    out.push(b':')?;
    put_two(out, (us / 60_000_000 % 60) as u32)?;
    out.push(b':')?;
    put_two(out, (us / 1_000_000 % 60) as u32)?;
    out.push(b'.')?;
    put_six(out, (us % 1_000_000) as u32)
}

/// Writes the date of a day, counted from 1970-01-01.
fn put_date<A: Allocator>(out: &mut Vec<u8, A>, day: i64) -> Result<(), AllocError>
    requires { IsBetween (neg_ℤ (pos 719162)) (pos 2932896) day }
    ensures { OnOk result (out.new.items ≡ out.old.items ++ date_text (civil_of day)) }
{
    let Ok(date) = Date::from_unix_epoch_day(day) else {
        unreachable!()
    };
    put_two(out, date.day as u32)?;
    out.push(b'/')?;
    put_two(out, date.month as u32)?;
    out.push(b'/')?;
    put_four(out, date.year.unsigned_abs() as u32)
}

/// Appends the date and time stamp of an instant as a configuration file has it (C37.111-1999,
/// 5.3.7): `dd/mm/yyyy,hh:mm:ss.ssssss`. The instant is in microseconds since 1970-01-01 00:00:00,
/// and its year from 1 to 9999.
pub fn put_instant<A: Allocator>(out: &mut Vec<u8, A>, instant: i64) -> Result<(), AllocError>
    requires { IsBetween (neg_ℤ (pos 62135596800000000)) (pos 253402300799999999) instant }
    ensures { OnOk result (out.new.items ≡ out.old.items ++ instant_text instant) }
{
    put_date(out, instant.div_euclid(DAY))?;
    out.push(b',')?;
    put_time(out, instant.rem_euclid(DAY).unsigned_abs())
}

/// Writes the date of a day, counted from 1970-01-01, with the year first.
fn put_year_first<A: Allocator>(out: &mut Vec<u8, A>, day: i64) -> Result<(), AllocError>
    requires { IsBetween (neg_ℤ (pos 719162)) (pos 2932896) day }
    ensures { OnOk result (out.new.items ≡ out.old.items ++ year_first (civil_of day)) }
{
    let Ok(date) = Date::from_unix_epoch_day(day) else {
        unreachable!()
    };
    put_four(out, date.year.unsigned_abs() as u32)?;
    out.push(b'-')?;
    put_two(out, date.month as u32)?;
    out.push(b'-')?;
    put_two(out, date.day as u32)
}

/// Appends an instant as `yyyy-mm-dd hh:mm:ss.ssssss`, with the byte `between` after the date. The
/// instant is in microseconds since 1970-01-01 00:00:00, and its year from 1 to 9999.
pub fn put_civil<A: Allocator>(
    out: &mut Vec<u8, A>,
    instant: i64,
    between: u8,
) -> Result<(), AllocError>
    requires { IsBetween (neg_ℤ (pos 62135596800000000)) (pos 253402300799999999) instant }
    ensures { OnOk result (out.new.items ≡ out.old.items ++ civil_text between instant) }
{
    put_year_first(out, instant.div_euclid(DAY))?;
    out.push(between)?;
    put_time(out, instant.rem_euclid(DAY).unsigned_abs())
}

/// Whether the year of an instant is from 1 to 9999. The instant is in microseconds since
/// 1970-01-01 00:00:00.
pub fn has_date(instant: i64) -> bool
    ensures { Decides result (IsBetween (neg_ℤ (pos 62135596800000000)) (pos 253402300799999999) instant) }
{
    -62_135_596_800_000_000 <= instant && instant <= 253_402_300_799_999_999
}

/// The date and time of day of an instant. The instant is in microseconds since 1970-01-01
/// 00:00:00, as in a file (C37.111-1999, 5.3.7). None outside the years -9999 to 9999; no file has
/// such an instant.
pub fn civil_of(instant: i64) -> Option<DateTime>
    ensures value { IfSome result (λ date. civil_nanos date ≡ instant *ℤ pos 1000) }
    ensures there { IsSome result ↔ IsCivilNanos (instant *ℤ pos 1000) }
{
    match DateTime::from_nanosecond(instant as i128 * 1000) {
        Ok(date) => Some(date),
        Err(_) => None,
    }
}
