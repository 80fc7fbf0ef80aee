//! The values of a row as cells.

use crate::spelling::Spelling;
use comtrade_format::{AlignedScale, LONGEST_VALUE, aligned_scale_of};
use dfr_channels::{AnalogChannel, Reading};
use std::alloc::{AllocError, Allocator};

/// The scales of the channels whose values have few digits, and room for the cells of a row.
#[derive(Drop)]
pub(crate) struct ValueCells<A: Allocator> {
    scales: Vec<Option<AlignedScale>, A>,
    cells: Vec<u8, A>,
    spelling: Spelling,
}

/// Room for the cells of these channels.
pub(crate) fn value_cells_of<A: Allocator + Copy>(
    alloc: A,
    channels: &[AnalogChannel<A>],
    spelling: Spelling,
) -> Result<ValueCells<A>, AllocError> {
    let mut scales = Vec::new(alloc);
    for channel in channels {
        scales.push(aligned_scale_of(channel.a, channel.b))?;
    }
    let size = channels.len().checked_mul(LONGEST_VALUE + 1);
    let size = size.ok_or(AllocError)?;
    let cells = vec![in alloc; 0u8; size]?;
    Ok(ValueCells {
        scales,
        cells,
        spelling,
    })
}

/// Replaces the decimal sign of a cell's number by this one.
pub(crate) fn set_decimal_sign(cell: &mut [u8], sign: u8) {
    for b in cell.iter_mut() {
        if *b == b'.' {
            *b = sign;
        }
    }
}

/// Writes a separator and a value (nothing for a missing one) from an index on, and returns the
/// index after them; None where the value has many digits.
fn write_cell(
    cells: &mut [u8],
    at: usize,
    scale: Option<AlignedScale>,
    reading: Reading,
    spelling: Spelling,
) -> Option<usize> {
    *cells.get_mut(at)? = spelling.separator;
    let start = at + 1;
    let Reading::Value(sample) = reading else {
        return Some(start);
    };
    let end = scale?.write_value(cells, start, sample)?;
    if spelling.decimal != b'.' {
        set_decimal_sign(cells.get_mut(start..end)?, spelling.decimal);
    }
    Some(end)
}

impl<A: Allocator> ValueCells<A> {
    /// The cells of these values, each after a separator; None where a value has many digits.
    pub(crate) fn of(&mut self, readings: &[Reading]) -> Option<&[u8]> {
        if self.scales.len() != readings.len() {
            return None;
        }
        let mut end = 0;
        for (scale, reading) in self.scales.iter().zip(readings.iter()) {
            end = write_cell(&mut self.cells, end, *scale, *reading, self.spelling)?;
        }
        self.cells.get(..end)
    }
}
