//! Describes an error of a data file.

use crate::counts::{Counts, rows_of};
use crate::describe::{line_at, put_field, put_field_count, put_place};
use crate::names::{Place, row_field};
use comtrade_format::Head;
use comtrade_read::ReadFault;
use comtrade_values::{lines_of, put, put_count, put_with};
use std::alloc::{AllocError, Allocator};

/// The number of bytes in a row of a binary data file.
fn row_size(counts: Counts) -> u64 {
    let groups = counts.status.saturating_add(15) / 16;
    counts
        .analog
        .saturating_add(groups)
        .saturating_mul(2)
        .saturating_add(8)
}

/// Describes a binary data file of the wrong size.
fn put_length<A: Allocator>(
    out: &mut Vec<u8, A>,
    head: &Head<A>,
    size: usize,
) -> Result<(), AllocError> {
    put_count(out, size as u64, " byte found", " bytes found")?;
    let (rows, row_size) = (rows_of(head), row_size(Counts::of(head)));
    put_with(out, ", expected ", rows.saturating_mul(row_size))?;
    put(out, ": ")?;
    put_count(out, rows, " row of ", " rows of ")?;
    put_count(out, row_size, " byte", " bytes")
}

/// Describes a row that cannot be read.
fn put_row<A: Allocator + Copy>(
    alloc: A,
    out: &mut Vec<u8, A>,
    counts: Counts,
    row: u64,
    text: &[u8],
    fault: ReadFault,
) -> Result<(), AllocError> {
    put_with(out, "line ", row)?;
    match fault {
        ReadFault::Number(_, field) => {
            let (named, place) = row_field(counts, field);
            match place {
                Place::After => {}
                _ => {
                    put(out, " (")?;
                    put_place(out, place)?;
                    put(out, ")")?;
                }
            }
            put_field(alloc, out, text, field, named)
        }
        _ => {
            let wanted = counts
                .analog
                .saturating_add(counts.status)
                .saturating_add(2);
            let names =
                "row number, time stamp, a sample for each analogue channel, a bit for each status channel";
            put_field_count(alloc, out, text, wanted, names)
        }
    }
}

/// Appends the line of the error, and how many rows the configuration file specifies.
fn put_rows<A: Allocator>(
    out: &mut Vec<u8, A>,
    line: u64,
    rows: u64,
    stands: &str,
) -> Result<(), AllocError> {
    put_with(out, "line ", line)?;
    put(out, stands)?;
    put(out, "; expected ")?;
    put_count(out, rows, " row", " rows")?;
    put(out, ", as the configuration file specifies")
}

/// Describes an error of a data file, given the head of its configuration file.
pub(crate) fn put_dat_fault<A: Allocator + Copy>(
    alloc: A,
    out: &mut Vec<u8, A>,
    head: &Head<A>,
    dat: &[u8],
    fault: ReadFault,
) -> Result<(), AllocError> {
    let rows = rows_of(head);
    let line = match fault {
        ReadFault::Missing(line) => {
            return put_rows(out, line, rows, ": the file ends before this line");
        }
        ReadFault::Extra(line) => {
            return put_rows(out, line, rows, ": found a line after the last row");
        }
        ReadFault::Fields(line) | ReadFault::Number(line, _) => line,
        _ => return put_length(out, head, dat.len()),
    };
    let lines = lines_of(alloc, dat)?;
    let text = line_at(&lines, line);
    put_row(alloc, out, Counts::of(head), line, text, fault)
}
