//! The column names of comma-separated values: the first line.

use crate::number::put_ordinal;
use comtrade_format::Head;
use comtrade_io::{ToolFault, fault_of, put_safe};
use comtrade_values::put;
use csv::{Error, ErrorKind, Terminator, Writer, WriterBuilder};
use std::alloc::{AllocError, Allocator};
use std::collections::BTreeMap;
use std::io::Write;

/// The outcome of a write to a table.
pub(crate) fn outcome_of(written: Result<(), Error>) -> Result<(), ToolFault> {
    let Err(error) = written else {
        return Ok(());
    };
    match error.kind() {
        ErrorKind::Io(error) => Err(fault_of(error.kind(), ToolFault::Output)),
        _ => Err(ToolFault::Memory),
    }
}

/// Writes a cell and clears it.
pub(crate) fn end_cell<A: Allocator, W: Write>(
    table: &mut Writer<&mut W>,
    cell: &mut Vec<u8, A>,
) -> Result<(), ToolFault> {
    let written = table.write_field(cell);
    cell.clear();
    outcome_of(written)
}

/// A text from the file, after an apostrophe where a spreadsheet would read a formula.
pub(crate) fn put_name_of<A: Allocator>(
    cell: &mut Vec<u8, A>,
    id: &[u8],
) -> Result<(), AllocError> {
    if let Some(b'=' | b'+' | b'-' | b'@') = id.first() {
        put(cell, "'")?;
    }
    put_safe(cell, id)
}

/// How often a name has occurred before; counts it once more.
fn times_seen<A: Allocator + Copy>(
    name: &[u8],
    seen: &mut BTreeMap<Vec<u8, A>, usize, A>,
    alloc: A,
) -> Result<usize, ToolFault> {
    let name = Vec::from_slice(alloc, name)?;
    let count = seen.entry(name)?.or_insert(0);
    let before = *count;
    // (there is memory for fewer names than a number of 64 bits)
    *count = before.saturating_add(1);
    Ok(before)
}

/// Writes the name of a column. The second column with the same name ends in ` (2)`, and so on.
fn end_name<A: Allocator + Copy, W: Write>(
    table: &mut Writer<&mut W>,
    cell: &mut Vec<u8, A>,
    seen: &mut BTreeMap<Vec<u8, A>, usize, A>,
) -> Result<(), ToolFault> {
    let alloc = *cell.allocator();
    let before = times_seen(cell.as_slice(), seen, alloc)?;
    if before != 0 {
        put_ordinal(cell, " (", before)?;
        put(cell, ")")?;
    }
    end_cell(table, cell)
}

/// The names of the channels' columns, those of analogue channels with their units. None of them
/// has occurred yet.
fn put_channel_names<A: Allocator + Copy, W: Write>(
    table: &mut Writer<&mut W>,
    cell: &mut Vec<u8, A>,
    head: &Head<A>,
    seen: &mut BTreeMap<Vec<u8, A>, usize, A>,
) -> Result<(), ToolFault> {
    for channel in head.analog.items() {
        put_name_of(cell, channel.id.items())?;
        put(cell, " [")?;
        put_safe(cell, channel.unit.items())?;
        put(cell, "]")?;
        end_name(table, cell, seen)?;
    }
    for channel in head.status.items() {
        put_name_of(cell, channel.id.items())?;
        end_name(table, cell, seen)?;
    }
    Ok(())
}

/// The names of all columns.
fn put_names<A: Allocator + Copy, W: Write>(
    table: &mut Writer<&mut W>,
    cell: &mut Vec<u8, A>,
    head: &Head<A>,
) -> Result<(), ToolFault> {
    for name in ["row", "instant", "ms since trigger"] {
        put(cell, name)?;
        end_cell(table, cell)?;
    }
    let mut seen = BTreeMap::new(*cell.allocator());
    put_channel_names(table, cell, head, &mut seen)?;
    outcome_of(table.end_record())?;
    outcome_of(table.flush())
}

/// Writes the line of column names.
pub(crate) fn write_names<A: Allocator + Copy, W: Write>(
    alloc: A,
    head: &Head<A>,
    separator: u8,
    w: &mut W,
) -> Result<(), ToolFault> {
    let mut cell = Vec::new(alloc);
    let mut table = WriterBuilder::new()
        .delimiter(separator)
        .terminator(Terminator::CRLF)
        .from_writer(w);
    put_names(&mut table, &mut cell, head)
}
