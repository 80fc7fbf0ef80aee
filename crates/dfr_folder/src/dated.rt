//! The name of a record's pair, from the instant of its trigger and its number.

ghost use Rattle.std.specs.Prelude.{◌≡◌, ◌⊎◌, ◌*ℤ◌, ℤ, pos};
ghost use Rattle.jiff_core.specs.DateTime.{IsCivilNanos};
ghost use Rattle.dfr_folder.specs.declared.name.Key.{Key};
ghost use Rattle.dfr_folder.specs.Dated as spec;
ghost use Rattle.dfr_folder.specs.Sorting.{AreInOrder, NamesSort};

use crate::name::Key;
use comtrade_values::civil_of;

/// Three numbers in one, the last two with two digits each.
fn packed(first: u16, second: u8, third: u8) -> u32
    ensures { result ≡ spec.packed first second third }
{
    first as u32 * 10_000 + second as u32 * 100 + third as u32
}

/// The key of a record with this number and the date and time of day of an instant.
fn dated_key(instant: i64, number: u64) -> Key
    ensures number { result.number ≡ number }
    ensures first { result.copy ≡ 1 }
    ensures dated { IsCivilNanos (instant *ℤ pos 1000) → spec.IsDated instant result }
    ensures undated { IsCivilNanos (instant *ℤ pos 1000)
        ⊎ ((result.date ≡ 0) × (result.time ≡ 0) × (result.micros ≡ 0)) }
{
    match civil_of(instant) {
        Some(civil) => Key {
            date: packed(
                civil.date.year.unsigned_abs(),
                civil.date.month,
                civil.date.day,
            ),
            time: packed(civil.time.hour as u16, civil.time.minute, civil.time.second),
            micros: civil.time.subsec_nanosecond / 1000,
            number,
            copy: 1,
        },
        None => Key {
            date: 0,
            time: 0,
            micros: 0,
            number,
            copy: 1,
        },
    }
}

/// The key of record `number`, triggered at an instant in microseconds since 1970-01-01 00:00:00
/// UTC. Its date is all zeros for an instant outside the years -9999 to 9999.
pub fn key_at(instant: i64, number: u64) -> Key
    ensures number { result.number ≡ number }
    ensures first { result.copy ≡ 1 }
    ensures dated { IsCivilNanos (instant *ℤ pos 1000) → spec.IsDated instant result }
    ensures undated { IsCivilNanos (instant *ℤ pos 1000)
        ⊎ ((result.date ≡ 0) × (result.time ≡ 0) × (result.micros ≡ 0)) }
    // In the years 0 to 9999 it is in the order of the instants with every other key.
    ensures sorted { (other : ℤ) (key : Key) → spec.HasYear other → spec.HasYear instant
        → spec.IsDated other key → AreInOrder other key instant result }
{
    dated_key(instant, number)
}

/// A law: names sort byte by byte as the instants that they say. This function does nothing.
pub fn names_sort()
    ensures { NamesSort }
{}
