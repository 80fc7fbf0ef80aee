//! The rows of a file of 1999: the readings that samples become.

use crate::fault::{ImportFault, Why};
use crate::num::{Num, num_of_float};
use crate::packed_row::Bytes;
use crate::row::{Cells, RowsLeft};
use crate::scaled::Made;
use crate::survey::{Ground, next_cells, next_floats};
use comtrade_format::Row;
use comtrade_values::Items;
use dfr_channels::Reading;
use std::alloc::Allocator;

/// The reading that a sample becomes; None for a sample beyond those of the survey.
fn reading_of(made: &mut Made, num: Option<Num>) -> Option<Reading> {
    let Some(num) = num else {
        return Some(Reading::Missing);
    };
    let whole = made.fit.whole_of(num)?;
    reading_at(made, whole)
}

/// The reading of a whole number, given its error.
fn reading_at(made: &mut Made, (n, off): (i64, i64)) -> Option<Reading> {
    made.worst = made.worst.max(off);
    Some(Reading::Value(i32::try_from(n).ok()?))
}

/// The reading that a float becomes.
fn reading_of_float(made: &mut Made, bits: u32) -> Option<Reading> {
    match made.fit.whole_of_float(bits) {
        Some(whole) => reading_at(made, whole),
        None => reading_of(made, num_of_float(bits)),
    }
}

/// The readings of the row with this number, whose samples are in the cells.
fn readings_of<A: Allocator + Copy>(
    alloc: A,
    cells: &Cells<A>,
    made: &mut [Made],
    number: u64,
) -> Result<Vec<Reading, A>, ImportFault> {
    let mut values = Vec::with_capacity(alloc, made.len())?;
    for (value, made) in cells.values.iter().zip(made.iter_mut()) {
        let Some(reading) = reading_of(made, *value) else {
            return Err(ImportFault::Dat(number, Why::Scale));
        };
        values.push(reading)?;
    }
    Ok(values)
}

/// The readings of the row of floats with this number.
fn readings_of_floats<A: Allocator + Copy>(
    alloc: A,
    floats: Bytes<'_>,
    made: &mut [Made],
    number: u64,
) -> Result<Vec<Reading, A>, ImportFault> {
    let mut left = floats;
    let mut values = Vec::with_capacity(alloc, made.len())?;
    for made in made.iter_mut() {
        let Some(bits) = left.next_long() else {
            return Err(ImportFault::Dat(number, Why::Length));
        };
        let Some(reading) = reading_of_float(made, bits) else {
            return Err(ImportFault::Dat(number, Why::Scale));
        };
        values.push(reading)?;
    }
    Ok(values)
}

/// The readings of the next row; its bits are left in the cells.
fn next_readings<'a, A: Allocator + Copy>(
    alloc: A,
    ground: Ground<'a>,
    rows: &mut RowsLeft<'a>,
    cells: &mut Cells<A>,
    made: &mut [Made],
    number: u64,
) -> Result<Vec<Reading, A>, ImportFault> {
    if let Some(packed) = ground.floats() {
        if let Some(floats) = next_floats(ground, packed, rows, cells)? {
            return readings_of_floats(alloc, floats, made, number);
        }
    }
    let _ = next_cells(ground, rows, cells)?;
    readings_of(alloc, cells, made, number)
}

/// The rows as they are written.
pub(crate) fn rows_of<A: Allocator + Copy>(
    alloc: A,
    ground: Ground<'_>,
    made: &mut [Made],
    stamps: &[Option<u64>],
) -> Result<Vec<Row<A>, A>, ImportFault> {
    let mut list = Vec::with_capacity(alloc, stamps.len())?;
    let mut rows = RowsLeft::of(ground.plan);
    let mut cells = Cells::new(alloc);
    for (number, stamp) in (1u64..).zip(stamps) {
        let values = next_readings(alloc, ground, &mut rows, &mut cells, made, number)?;
        let bits = Vec::from_slice(alloc, &cells.bits)?;
        list.push(Row {
            number,
            stamp: *stamp,
            values: Items::of(values),
            bits: Items::of(bits),
        })?;
    }
    Ok(list)
}
