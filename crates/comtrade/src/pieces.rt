//! The rows of a BINARY data file, read piece by piece.

use comtrade_format::{Head, Rate, Row};
use comtrade_io::{ToolFault, fault_of};
use comtrade_read::{ReadFault, read_dat};
use comtrade_table::{Layout, layout_of};
use comtrade_values::{Decimal, Items};
use std::alloc::{AllocError, Global};
use std::fs::File;
use std::io::{Read, Seek, SeekFrom};
use std::rt::Files;

/// How many bytes are read at once, where a row is not longer.
const PIECE: usize = 1_048_576;

/// The rows of a BINARY data file that are still to be read.
#[derive(Drop)]
pub(crate) struct Pieces<F: Drop> {
    file: F,
    size: usize,
    /// The index of the next row, and that after the last one.
    at: u64,
    to: u64,
    /// The bytes of a piece.
    bytes: Vec<u8>,
}

/// Some rows of a data file.
#[derive(Clone, Copy)]
pub(crate) struct Piece<'a> {
    /// The index of the first of them, from 0.
    pub(crate) first: u64,
    /// How many they are.
    pub(crate) rows: u64,
    pub(crate) bytes: &'a [u8],
}

/// As many zeros as a piece has bytes: whole rows, one or more.
fn room_of(alloc: Global, size: usize) -> Result<Vec<u8>, AllocError> {
    let rows = PIECE.checked_div(size).ok_or(AllocError)?.max(1);
    let length = rows.checked_mul(size).ok_or(AllocError)?;
    vec![in alloc; 0u8; length]
}

/// Sets a file to the first byte of a row.
fn set_to<F: Seek>(file: &mut F, size: usize, row: u64) -> Result<(), ToolFault> {
    let place = row.checked_mul(size as u64).ok_or(ToolFault::Input)?;
    match file.seek(SeekFrom::Start(place)) {
        Ok(_) => Ok(()),
        Err(_) => Err(ToolFault::Input),
    }
}

/// The rows of a data file from one index up to but without another one.
pub(crate) fn pieces_of<R: Files + AllocGlobal>(
    rt: &R,
    name: &str,
    layout: Layout,
    (from, to): (u64, u64),
) -> Result<Pieces<R::File>, ToolFault> {
    let mut file = match File::open(rt, name) {
        Ok(file) => file,
        Err(error) => return Err(fault_of(error.kind(), ToolFault::Input)),
    };
    set_to(&mut file, layout.size, from)?;
    Ok(Pieces {
        file,
        size: layout.size,
        at: from,
        to,
        bytes: room_of(rt.alloc(), layout.size)?,
    })
}

impl<F: Read + Drop> Pieces<F> {
    /// Reads the next rows; None after the last one. A file that became shorter meanwhile cannot be
    /// read.
    pub(crate) fn next(&mut self) -> Result<Option<Piece<'_>>, ToolFault> {
        let first = self.at;
        let left = match self.to.checked_sub(first) {
            Some(left) if left != 0 => left,
            _ => return Ok(None),
        };
        let whole = self.bytes.len().checked_div(self.size);
        let rows = (whole.ok_or(ToolFault::Input)? as u64).min(left);
        let length = (rows as usize).checked_mul(self.size);
        let length = length.ok_or(ToolFault::Input)?;
        let room: &mut [u8] = &mut self.bytes;
        let Some(bytes) = room.get_mut(..length) else {
            return Err(ToolFault::Input);
        };
        if self.file.read_exact(bytes).is_err() {
            return Err(ToolFault::Input);
        }
        self.at = first.checked_add(rows).ok_or(ToolFault::Input)?;
        Ok(Some(Piece { first, rows, bytes }))
    }
}

/// Makes a head that of so many rows.
pub(crate) fn set_rows(
    alloc: Global,
    head: &mut Head,
    samp: Decimal,
    rows: u64,
) -> Result<(), AllocError> {
    let mut rates = Vec::new(alloc);
    rates.push(Rate {
        samp,
        endsamp: rows,
    })?;
    head.rates = Items::of(rates);
    Ok(())
}

/// The rows of a piece, which are read under a head of as many rows; the head is given back.
pub(crate) fn rows_of(
    alloc: Global,
    head: Head,
    bytes: &[u8],
) -> Result<(Head, Items<Row>), ToolFault> {
    let Some(_layout) = layout_of(&head) else {
        return Err(ToolFault::Input);
    };
    match read_dat(alloc, head, bytes) {
        Ok(file) => Ok((file.head, file.rows)),
        Err((ReadFault::Memory, _)) => Err(ToolFault::Memory),
        Err(_) => Err(ToolFault::Input),
    }
}
