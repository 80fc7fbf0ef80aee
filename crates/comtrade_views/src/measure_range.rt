//! A moment at which a record cannot be measured.

use crate::cycles::first_cycle_end;
use crate::instant::put_millis;
use crate::part::{Reach, reach_of};
use comtrade_format::File;
use comtrade_io::put_safe;
use comtrade_values::{put, put_with};
use std::alloc::{AllocError, Allocator};

/// Where a moment is if no cycle of the record ends there.
fn place_of<A: Allocator>(file: &File<A>, moment: &str) -> Option<&'static str> {
    match reach_of(file, moment) {
        Reach::Before => Some("before the first row"),
        Reach::After => Some("after the last row"),
        Reach::Within(rows) => match first_cycle_end(file) {
            Some(end) if rows < end && end <= file.rows.items().len() => {
                Some("before the end of the first whole cycle")
            }
            _ => None,
        },
        Reach::Unknown => None,
    }
}

/// The times of the first and the last row, or the number of rows if these are not known.
fn put_range<A: Allocator>(out: &mut Vec<u8, A>, times: &[Option<i64>]) -> Result<(), AllocError> {
    match (times.first(), times.last()) {
        (Some(Some(first)), Some(Some(last))) => {
            put(out, "from ")?;
            put_millis(out, *first as i128)?;
            put(out, " to ")?;
            put_millis(out, *last as i128)?;
            put(out, " ms since the trigger\n")
        }
        _ => {
            put_with(out, "of ", times.len() as u64)?;
            put(out, " rows\n")
        }
    }
}

/// Adds a line on why no cycle that ends at a moment can be measured, if the moment is outside the
/// record or within its first cycle; returns whether it is. The times are those of rows since the
/// trigger.
pub fn put_outside<A: Allocator>(
    out: &mut Vec<u8, A>,
    file: &File<A>,
    times: &[Option<i64>],
    moment: &str,
) -> Result<bool, AllocError> {
    let Some(place) = place_of(file, moment) else {
        return Ok(false);
    };
    put(out, "comtrade: --at ")?;
    put_safe(out, moment.as_bytes())?;
    put(out, " is ")?;
    put(out, place)?;
    put(out, "; the record is ")?;
    put_range(out, times)?;
    Ok(true)
}
