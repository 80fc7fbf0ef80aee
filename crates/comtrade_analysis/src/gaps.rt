//! Runs of rows in which a channel has no sample.

ghost use Rattle.std.specs.Prelude.{◌≡◌, ◌+◌, ◌<◌, ◌≤◌, length, map, position, option_map, IfOk, IfSome};
ghost use Rattle.comtrade_analysis.specs.Readings as reading;
ghost use Rattle.comtrade_analysis.specs.Gaps as spec;

use crate::readings::{has_sample, sample_at};
use crate::runs::Gap;
use comtrade_format::Row;
use comtrade_values::Memory;
use std::alloc::Allocator;

/// The first of these rows with a sample.
fn first_with_sample<A: Allocator>(rows: &[Row<A>], channel: usize) -> Option<usize>
    ensures value { result ≡ position (λ row. reading.has_sample channel row) rows.now }
    ensures within { IfSome result (λ k. k < length rows.now) }
{
    rows.iter().position(|row| has_sample(row, channel))
}

/// How many of these rows come before the first one with a sample.
fn run_length<A: Allocator>(rows: &[Row<A>], channel: usize) -> usize
    ensures value { result ≡ spec.run_length channel rows.now }
    ensures within { result ≤ length rows.now }
{
    match first_with_sample(rows, channel) {
        Some(count) => count,
        None => rows.len(),
    }
}

/// Whether a row has no sample, and there is one in the row before it, or no row.
fn begins<A: Allocator>(rows: &[Row<A>], channel: usize, row: usize) -> bool
    ensures { result ≡ spec.begins rows.now channel row }
{
    if sample_at(rows, channel, row).is_some() {
        return false;
    }
    if row == 0 {
        return true;
    }
    sample_at(rows, channel, row - 1).is_some()
}

/// The gap that begins at a row, if one does.
fn gap_at<A: Allocator>(rows: &[Row<A>], channel: usize, row: usize) -> Option<Gap>
    requires { row < length rows.now }
    ensures { option_map spec.run_of result ≡ spec.gap_at rows.now channel row }
{
    if begins(rows, channel, row) {
        let rest = &rows[row + 1..];
        Some(Gap {
            first: row,
            rows: run_length(rest, channel) + 1,
        })
    } else {
        None
    }
}

/// The gaps of an analogue channel, in order: the longest runs of rows in which its reading is
/// missing. `Memory`: an allocation failed.
pub fn gaps_of<A: Allocator, B: Allocator + Copy>(
    alloc: B,
    rows: &[Row<A>],
    channel: usize,
) -> Result<Vec<Gap, B>, Memory>
    ensures { IfOk result (λ gaps. map spec.run_of gaps.items ≡ spec.gaps rows.now channel) }
{
    let mut gaps = Vec::new(alloc);
    for row in 0..rows.len() {
        if let Some(gap) = gap_at(rows, channel, row) {
            gaps.push(gap)?;
        }
    }
    Ok(gaps)
}
