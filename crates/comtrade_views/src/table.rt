//! Tables of text in columns.

ghost use Rattle.std.specs.Prelude.{◌≡◌, ◌++◌, ◌∷◌, [], IfOk, OnOk, decimal};
ghost use Rattle.comtrade_io.specs.Safe.{safe};
ghost use Rattle.comtrade_views.specs.Texts.{cell};

use comtrade_io::put_safe;
use comtrade_values::{put, put_number};
use std::alloc::{AllocError, Allocator};

/// Ends a cell. Printable texts of a file contain no such byte.
pub(crate) const CELL: u8 = 0x1F;

/// A table that so far has only its column names.
pub(crate) fn table_of<A: Allocator>(alloc: A, names: &str) -> Result<Vec<u8, A>, AllocError>
    ensures { IfOk result (λ table. table.items ≡ names.now) }
{
    let mut table = Vec::new(alloc);
    put(&mut table, names)?;
    Ok(table)
}

pub(crate) fn end_cell<A: Allocator>(table: &mut Vec<u8, A>) -> Result<(), AllocError>
    ensures { OnOk result (table.new.items ≡ table.old.items ++ 31 ∷ []) }
{
    table.extend_from_slice(&[CELL])
}

pub(crate) fn end_row<A: Allocator>(table: &mut Vec<u8, A>) -> Result<(), AllocError>
    ensures { OnOk result (table.new.items ≡ table.old.items ++ 10 ∷ []) }
{
    table.extend_from_slice(b"\n")
}

/// Adds a cell of plain text.
pub(crate) fn put_cell<A: Allocator>(table: &mut Vec<u8, A>, text: &str) -> Result<(), AllocError>
    ensures { OnOk result (table.new.items ≡ table.old.items ++ cell text.now) }
{
    put(table, text)?;
    end_cell(table)
}

/// Adds a cell with a text from the file.
pub(crate) fn put_safe_cell<A: Allocator>(
    table: &mut Vec<u8, A>,
    text: &[u8],
) -> Result<(), AllocError>
    ensures { OnOk result (table.new.items ≡ table.old.items ++ cell (safe text.now)) }
{
    put_safe(table, text)?;
    end_cell(table)
}

/// Adds a cell with a number.
pub(crate) fn put_number_cell<A: Allocator>(
    table: &mut Vec<u8, A>,
    n: u64,
) -> Result<(), AllocError>
    ensures { OnOk result (table.new.items ≡ table.old.items ++ cell (decimal n)) }
{
    put_number(table, n)?;
    end_cell(table)
}

/// Makes a column at least this wide.
fn widen<A: Allocator>(
    widths: &mut Vec<usize, A>,
    column: usize,
    width: usize,
) -> Result<(), AllocError> {
    if let Some(known) = widths.get_mut(column) {
        *known = (*known).max(width);
        return Ok(());
    }
    widths.push(width)?;
    Ok(())
}

/// The greatest width of a column. A longer cell, which no field of the standard allows, shifts
/// only its own row.
const WIDEST: usize = 64;

/// The number of characters of a cell: the bytes of UTF-8 that begin one.
fn width_of(cell: &[u8]) -> usize {
    let begins = cell.iter().filter(|b| !(0x80..=0xBF).contains(*b));
    begins.count()
}

/// The cells of a row, without its end.
pub(crate) fn row_of(line: &[u8]) -> &[u8] {
    match line {
        [row @ .., b'\n'] => row,
        _ => line,
    }
}

/// The width of each column: that of its widest cell.
fn widths_of<A: Allocator>(alloc: A, table: &[u8]) -> Result<Vec<usize, A>, AllocError> {
    let mut widths = Vec::new(alloc);
    for line in table.split_inclusive(|b| *b == b'\n') {
        for (column, cell) in row_of(line).split(|b| *b == CELL).enumerate() {
            widen(&mut widths, column, width_of(cell).min(WIDEST))?;
        }
    }
    Ok(widths)
}

/// Adds blanks.
fn put_blanks<A: Allocator>(out: &mut Vec<u8, A>, count: usize) -> Result<(), AllocError> {
    for _ in 0..count {
        out.extend_from_slice(b" ")?;
    }
    Ok(())
}

/// A row with columns of these widths, without the blanks at its end.
fn put_row<A: Allocator>(
    out: &mut Vec<u8, A>,
    row: &[u8],
    widths: &[usize],
) -> Result<(), AllocError> {
    let mut end = out.len();
    for (cell, wanted) in row.split(|b| *b == CELL).zip(widths.iter()) {
        put_blanks(out, 2)?;
        out.extend_from_slice(cell)?;
        if !cell.is_empty() {
            end = out.len();
        }
        let width = width_of(cell);
        if width < *wanted {
            put_blanks(out, *wanted - width)?;
        }
    }
    out.truncate(end);
    end_row(out)
}

/// A table with aligned columns, two blanks between them and none at the end of a line.
pub(crate) fn put_table<A: Allocator + Copy>(
    out: &mut Vec<u8, A>,
    table: &[u8],
) -> Result<(), AllocError> {
    let widths = widths_of(*out.allocator(), table)?;
    for line in table.split_inclusive(|b| *b == b'\n') {
        put_row(out, row_of(line), &widths)?;
    }
    Ok(())
}
