//! When each row was taken.

ghost use Rattle.std.specs.Prelude.{◌≡◌, ◌-ℤ◌, ◌*ℤ◌, pos, length, IfOk};
ghost use Rattle.comtrade_views.specs.Texts as spec;

use comtrade_format::{Border, File, Head, Row, clock_in, clock_with};
use comtrade_io::ToolFault;
use std::alloc::Allocator;

/// When each row was taken, in nanoseconds since the first row: by the rates if the file has any,
/// else by its stamp. None where neither gives it, and beyond 292 years.
pub(crate) fn times_of<A: Allocator + Copy>(
    alloc: A,
    file: &File<A>,
) -> Result<Vec<Option<i64>, A>, ToolFault>
    ensures { IfOk result (λ times. length times.items ≡ length file.now.rows) }
{
    let mut times = Vec::with_capacity(alloc, file.rows.items().len())?;
    let mut clock = clock_in(file);
    for (i, row) in file.rows.items().iter().enumerate() {
        clock = clock.at(i as u64);
        times.push(match clock.nanos(i as u64, row.stamp) {
            Some(nanos) => i64::try_from(nanos).ok(),
            None => None,
        })?;
    }
    Ok(times)
}

/// When a row was taken, by the times of all rows, if that is known.
pub(crate) fn time_at(times: &[Option<i64>], row: usize) -> Option<i64>
    ensures { result ≡ spec.time_at times.now row }
{
    match times.get(row) {
        Some(time) => *time,
        None => None,
    }
}

/// When the trigger of a record with this head was, in nanoseconds since the first row.
fn trigger_in<A: Allocator>(head: &Head<A>) -> i128
    ensures { result ≡ (head.now.trigger -ℤ head.now.first) *ℤ pos 1000 }
{
    (head.trigger as i128 - head.first as i128) * 1000
}

/// When the trigger was, in nanoseconds since the first row.
pub(crate) fn trigger_since_first<A: Allocator>(file: &File<A>) -> i128
    ensures { result ≡ (file.now.head.trigger -ℤ file.now.head.first) *ℤ pos 1000 }
{
    trigger_in(&file.head)
}

/// A time since the first row as one since the trigger; None beyond 292 years.
fn since(nanos: i64, trigger: i128) -> Option<i64> {
    i64::try_from((nanos as i128).checked_sub(trigger)?).ok()
}

/// The same of a time that may be beyond 292 years.
fn nanos_since(nanos: u128, trigger: i128) -> Option<i64> {
    since(i64::try_from(nanos).ok()?, trigger)
}

/// When each row was taken, in nanoseconds since the trigger; None where that is not known, and
/// beyond 292 years.
pub fn times_since_trigger<A: Allocator + Copy>(
    alloc: A,
    file: &File<A>,
) -> Result<Vec<Option<i64>, A>, ToolFault>
    ensures { IfOk result (λ times. length times.items ≡ length file.now.rows) }
{
    let trigger = trigger_since_first(file);
    let mut times = times_of(alloc, file)?;
    for time in times.iter_mut() {
        if let Some(nanos) = *time {
            *time = since(nanos, trigger);
        }
    }
    Ok(times)
}

/// When each of these rows was taken, in nanoseconds since the trigger, as `times_since_trigger` has
/// it: the rows from an index on, from 0, of a file with this head, if this rate gives the interval
/// across each border.
pub fn piece_times<A: Allocator + Copy>(
    alloc: A,
    head: &Head<A>,
    border: Border,
    rows: &[Row<A>],
    first: u64,
) -> Result<Vec<Option<i64>, A>, ToolFault> {
    let trigger = trigger_in(head);
    let mut times = Vec::with_capacity(alloc, rows.len())?;
    let mut clock = clock_with(head, border);
    for (i, row) in rows.iter().enumerate() {
        // (a file has fewer rows)
        let index = first.checked_add(i as u64).ok_or(ToolFault::Input)?;
        clock = clock.at(index);
        times.push(match clock.nanos(index, row.stamp) {
            Some(nanos) => nanos_since(nanos, trigger),
            None => None,
        })?;
    }
    Ok(times)
}
