//! A pair of files as comma-separated values, with the line ends and quotation marks of RFC 4180.

use crate::column_names::write_names;
use crate::instant::InstantText;
use crate::number::{Scale, put_sample, put_shortened, scale_of};
use crate::spelling::Spelling;
use crate::value_cells::{ValueCells, set_decimal_sign, value_cells_of};
use comtrade_format::{File, Head, Row};
use comtrade_io::{ToolFault, flush_if_full, write_out};
use comtrade_values::{put, put_number};
use dfr_channels::{AnalogChannel, Reading};
use std::alloc::{AllocError, Allocator};
use std::io::Write;

/// Rows as comma-separated values, of a file that may come piece by piece: the lines not yet written,
/// the instant of the last row, a cell whose number is written in another way, and the cells of a
/// row's values and bits.
#[derive(Drop)]
pub struct CsvRows<A: Allocator> {
    text: Vec<u8, A>,
    instant: InstantText<A>,
    cell: Vec<u8, A>,
    values: ValueCells<A>,
    bits: Vec<u8, A>,
    spelling: Spelling,
}

/// The cells of this many bits, each after a separator.
fn bit_cells<A: Allocator>(alloc: A, bits: usize, separator: u8) -> Result<Vec<u8, A>, AllocError> {
    let mut cells = Vec::new(alloc);
    for _ in 0..bits {
        cells.extend_from_slice(&[separator, b'0'])?;
    }
    Ok(cells)
}

impl<A: Allocator> CsvRows<A> {
    fn separate(&mut self) -> Result<(), AllocError> {
        Ok(self.text.push(self.spelling.separator)?)
    }

    /// Ends the cell of a number, with the decimal sign that is asked for.
    fn end_number(&mut self) -> Result<(), AllocError> {
        set_decimal_sign(&mut self.cell, self.spelling.decimal);
        self.text.extend_from_slice(&self.cell)?;
        self.cell.clear();
        Ok(())
    }

    /// The cell of an instant in microseconds, in quotation marks if it contains the separator.
    fn put_instant(&mut self, micros: i128) -> Result<(), AllocError> {
        let text = self.instant.of(micros)?;
        if !text.contains(&self.spelling.separator) {
            return self.text.extend_from_slice(text);
        }
        put(&mut self.text, "\"")?;
        self.text.extend_from_slice(text)?;
        put(&mut self.text, "\"")
    }

    /// The instant of a row and the milliseconds since the trigger, from its nanoseconds since
    /// then; empty cells if the time is not known.
    fn put_times(&mut self, trigger: i64, since: Option<i64>) -> Result<(), AllocError> {
        self.separate()?;
        let Some(since) = since else {
            return self.separate();
        };
        let micros = since.div_euclid(1000) + (500 <= since.rem_euclid(1000)) as i64;
        self.put_instant(trigger as i128 + micros as i128)?;
        self.separate()?;
        put_shortened(&mut self.cell, since, 6)?;
        self.end_number()
    }

    /// A value, or an empty cell for a missing one.
    fn put_reading(&mut self, scale: Scale, reading: Reading) -> Result<(), AllocError> {
        self.separate()?;
        let Reading::Value(sample) = reading else {
            return Ok(());
        };
        if self.spelling.decimal == b'.' {
            return put_sample(&mut self.text, scale, sample);
        }
        put_sample(&mut self.cell, scale, sample)?;
        self.end_number()
    }

    /// The cells of a row's values.
    fn put_values(
        &mut self,
        channels: &[AnalogChannel<A>],
        readings: &[Reading],
    ) -> Result<(), AllocError> {
        if let Some(cells) = self.values.of(readings) {
            return self.text.extend_from_slice(cells);
        }
        for (channel, reading) in channels.iter().zip(readings) {
            self.put_reading(scale_of(channel), *reading)?;
        }
        Ok(())
    }

    /// The cells of a row's bits.
    fn put_bits(&mut self, bits: &[bool]) -> Result<(), AllocError> {
        for i in 0..bits.len() {
            if let Some(cell) = self.bits.get_mut(2 * i + 1) {
                *cell = if bits[i] { b'1' } else { b'0' };
            }
        }
        self.text.extend_from_slice(&self.bits)
    }

    /// The line of a row: number, times, values, bits.
    fn put_row(
        &mut self,
        channels: &[AnalogChannel<A>],
        row: &Row<A>,
        trigger: i64,
        since: Option<i64>,
    ) -> Result<(), AllocError> {
        put_number(&mut self.text, row.number)?;
        self.put_times(trigger, since)?;
        self.put_values(channels, row.values.items())?;
        self.put_bits(row.bits.items())?;
        put(&mut self.text, "\r\n")
    }
}

impl<A: Allocator + Copy> CsvRows<A> {
    /// Prints the names of the columns, before the first row of a file with this head.
    pub fn begun<W: Write>(
        alloc: A,
        head: &Head<A>,
        spelling: Spelling,
        w: &mut W,
    ) -> Result<CsvRows<A>, ToolFault> {
        write_names(alloc, head, spelling.separator, w)?;
        Ok(CsvRows {
            text: Vec::new(alloc),
            instant: InstantText::new(alloc),
            cell: Vec::new(alloc),
            values: value_cells_of(alloc, head.analog.items(), spelling)?,
            bits: bit_cells(alloc, head.status.items().len(), spelling.separator)?,
            spelling,
        })
    }

    /// Prints the next rows of the file with this head, which were taken at these times, in
    /// nanoseconds since the trigger. The last lines are kept until enough have been collected.
    pub fn put_rows<W: Write>(
        &mut self,
        head: &Head<A>,
        rows: &[Row<A>],
        times: &[Option<i64>],
        w: &mut W,
    ) -> Result<(), ToolFault> {
        let channels = head.analog.items();
        for (row, since) in rows.iter().zip(times) {
            self.put_row(channels, row, head.trigger, *since)?;
            flush_if_full(w, &mut self.text)?;
        }
        Ok(())
    }

    /// Prints the lines that are kept, after the last row.
    pub fn end<W: Write>(&self, w: &mut W) -> Result<(), ToolFault> {
        write_out(w, &self.text)
    }
}

/// Prints the rows of a file: number, instant, milliseconds since the trigger, values a*x + b,
/// bits. The rows were taken at these times, in nanoseconds since the trigger.
pub fn csv_over<A: Allocator + Copy, W: Write>(
    alloc: A,
    file: &File<A>,
    times: &[Option<i64>],
    spelling: Spelling,
    w: &mut W,
) -> Result<(), ToolFault> {
    let mut lines = CsvRows::begun(alloc, &file.head, spelling, w)?;
    lines.put_rows(&file.head, file.rows.items(), times, w)?;
    lines.end(w)
}
