//! Runs of rows in which readings are missing, whatever their channel.

ghost use Rattle.std.specs.Prelude.{◌≡◌, ◌+◌, ◌<◌, ◌≤◌, length, map, position, option_map, IfOk, IfSome};
ghost use Rattle.comtrade_analysis.specs.Outages as spec;

use crate::runs::Outage;
use comtrade_format::Row;
use comtrade_values::Memory;
use dfr_channels::Reading;
use std::alloc::Allocator;

/// How many readings of a row are missing.
fn missing_in<A: Allocator>(row: &Row<A>) -> usize
    ensures { result ≡ spec.missing_in row.now }
{
    let mut count = 0;
    for reading in row.values.items() {
        if matches!(*reading, Reading::Missing) {
            count += 1;
        }
    }
    count
}

/// How many readings are missing in the row of this index; 0 where there is no such row.
fn missing_at<A: Allocator>(rows: &[Row<A>], row: usize) -> usize
    ensures { result ≡ spec.missing_at rows.now row }
{
    match rows.get(row) {
        Some(row) => missing_in(row),
        None => 0,
    }
}

/// The first of these rows that has all readings.
fn first_whole<A: Allocator>(rows: &[Row<A>]) -> Option<usize>
    ensures value { result ≡ position spec.is_whole rows.now }
    ensures within { IfSome result (λ k. k < length rows.now) }
{
    rows.iter().position(|row| missing_in(row) == 0)
}

/// How many of these rows come before the first one that has all readings.
fn run_length<A: Allocator>(rows: &[Row<A>]) -> usize
    ensures value { result ≡ spec.run_length rows.now }
    ensures within { result ≤ length rows.now }
{
    match first_whole(rows) {
        Some(count) => count,
        None => rows.len(),
    }
}

/// The greatest number of readings that are missing in one of these rows.
fn most_missing<A: Allocator>(rows: &[Row<A>]) -> usize
    ensures { result ≡ spec.most_missing rows.now }
{
    let mut most = 0;
    for row in rows {
        most = missing_in(row).max(most);
    }
    most
}

/// Whether readings are missing in a row, and none in the row before it, or there is no such row.
fn begins<A: Allocator>(rows: &[Row<A>], row: usize) -> bool
    ensures { result ≡ spec.begins rows.now row }
{
    if missing_at(rows, row) == 0 {
        return false;
    }
    if row == 0 {
        return true;
    }
    missing_at(rows, row - 1) == 0
}

/// The run that begins at a row, if one does.
fn outage_at<A: Allocator>(rows: &[Row<A>], row: usize) -> Option<Outage>
    requires { row < length rows.now }
    ensures { option_map spec.run_of result ≡ spec.outage_at rows.now row }
{
    if !begins(rows, row) {
        return None;
    }
    let count = run_length(&rows[row + 1..]) + 1;
    let rest = &rows[row..];
    Some(Outage {
        first: row,
        rows: count,
        channels: most_missing(&rest[..count]),
    })
}

/// The longest runs of rows in which readings are missing, in order. `Memory`: an allocation failed.
pub fn outages_of<A: Allocator, B: Allocator + Copy>(
    alloc: B,
    rows: &[Row<A>],
) -> Result<Vec<Outage, B>, Memory>
    ensures { IfOk result (λ outages. map spec.run_of outages.items ≡ spec.outages rows.now) }
{
    let mut outages = Vec::new(alloc);
    for row in 0..rows.len() {
        if let Some(outage) = outage_at(rows, row) {
            outages.push(outage)?;
        }
    }
    Ok(outages)
}
