//! Iterates over rows of data of any form.

ghost use Rattle.std.specs.Prelude.{◌≤◌};

use crate::cursor::{TextCursor, TextLine};
use crate::fault::Why;
use crate::kinds::Form;
use crate::num::Num;
use crate::packed_row::read_packed;
use crate::text_row::read_line;
use comtrade_values::Memory;
use std::alloc::Allocator;
use std::ops::RangeFrom;

/// Rows of binary data: only whole rows.
#[derive(Clone, Copy)]
pub(crate) struct Packed<'a> {
    pub bytes: &'a [u8],
    pub form: Form,
    pub is_big: bool,
    /// The number of bytes in a row.
    pub size: usize,
    ghost has_front: { 8 ≤ size },
}

impl Packed<'_> {
    /// The number of rows.
    pub(crate) fn count(&self) -> usize {
        self.bytes.len() / self.size
    }
}

/// Where the rows are, and in which form.
#[derive(Clone, Copy)]
pub(crate) enum RowsPlan<'a> {
    Text(&'a [u8], u8),
    Packed(Packed<'a>),
}

impl RowsPlan<'_> {
    pub(crate) fn form(&self) -> Form {
        match self {
            RowsPlan::Text(_, _) => Form::Ascii,
            RowsPlan::Packed(packed) => packed.form,
        }
    }
}

/// Numbers of channels.
#[derive(Clone, Copy)]
pub(crate) struct RowCounts {
    pub k: usize,
    pub m: usize,
}

/// The oddities of a row.
#[derive(Clone, Copy, Default)]
pub(crate) struct Odd {
    pub has_points: bool,
    pub has_fortran: bool,
    pub has_commas: bool,
    pub has_marks: bool,
    pub has_stamp_point: bool,
    pub has_trailing: bool,
    pub has_spare_bits: bool,
    pub has_blank_before: bool,
    pub is_doubled: bool,
}

/// The values and bits of a row, in buffers that are reused for each row.
#[derive(Drop)]
pub(crate) struct Cells<A: Allocator> {
    pub number: i64,
    pub stamp: Option<Num>,
    pub values: Vec<Option<Num>, A>,
    pub bits: Vec<bool, A>,
    pub odd: Odd,
}

impl<A: Allocator + Copy> Cells<A> {
    pub(crate) fn new(alloc: A) -> Cells<A> {
        Cells {
            number: 0,
            stamp: None,
            values: Vec::new(alloc),
            bits: Vec::new(alloc),
            odd: Odd::default(),
        }
    }
}

/// Why a row cannot be read.
#[derive(Clone, Copy)]
pub(crate) enum RowStop {
    Memory,
    Why(Why),
}

/// Converts any error that means out of memory.
impl<E: Drop> From<E> for RowStop
where
    Memory: From<E>,
{
    fn from(_e: E) -> RowStop {
        RowStop::Memory
    }
}

/// The remaining rows.
#[derive(Drop)]
pub(crate) struct RowsLeft<'a> {
    plan: RowsPlan<'a>,
    cursor: TextCursor<'a>,
    /// Those of binary data, and their numbers.
    bytes: &'a [u8],
    numbers: RangeFrom<u64>,
}

/// The result of a step over the rows.
#[derive(Clone, Copy)]
pub(crate) enum RowStep {
    Row(u64),
    End,
    /// The last row is incomplete.
    Cut(u64),
}

impl<'a> RowsLeft<'a> {
    pub(crate) fn of(plan: RowsPlan<'a>) -> RowsLeft<'a> {
        let (text, bytes): (&'a [u8], &'a [u8]) = match plan {
            RowsPlan::Text(text, _) => (text, &[]),
            RowsPlan::Packed(packed) => (&[], packed.bytes),
        };
        RowsLeft {
            plan,
            cursor: TextCursor::new(text),
            bytes,
            numbers: 1..,
        }
    }

    /// Whether no line is left.
    fn is_last(&self) -> bool {
        let mut ahead = self.cursor;
        ahead.next_line().is_none()
    }

    fn line_step<A: Allocator>(
        &mut self,
        cells: &mut Cells<A>,
        line: TextLine<'_>,
        mark: u8,
        counts: RowCounts,
    ) -> Result<RowStep, (u64, RowStop)> {
        match read_line(cells, line.text, mark, counts) {
            Ok(()) => {
                cells.odd.has_blank_before = line.after_blank;
                cells.odd.is_doubled = line.is_doubled;
                Ok(RowStep::Row(line.number))
            }
            Err(RowStop::Memory) => Err((line.number, RowStop::Memory)),
            Err(RowStop::Why(why)) => {
                let has_few = matches!(why, Why::RowFields) && !cells.odd.has_trailing;
                if (has_few || !line.is_ended) && self.is_last() {
                    return Ok(RowStep::Cut(line.number));
                }
                Err((line.number, RowStop::Why(why)))
            }
        }
    }

    /// The next row of binary data, and its number.
    pub(crate) fn next_packed(&mut self, packed: Packed<'a>) -> Option<(u64, &'a [u8])> {
        let (row, rest) = self.bytes.split_at_checked(packed.size)?;
        self.bytes = rest;
        Some((self.numbers.next()?, row))
    }

    /// The next row.
    pub(crate) fn step<A: Allocator>(
        &mut self,
        cells: &mut Cells<A>,
        counts: RowCounts,
        unsigned: &[bool],
    ) -> Result<RowStep, (u64, RowStop)> {
        match self.plan {
            RowsPlan::Text(_, mark) => match self.cursor.next_line() {
                Some(line) => self.line_step(cells, line, mark, counts),
                None => Ok(RowStep::End),
            },
            RowsPlan::Packed(packed) => {
                let Some((number, row)) = self.next_packed(packed) else {
                    return Ok(RowStep::End);
                };
                match read_packed(cells, row, packed, counts, unsigned) {
                    Ok(()) => Ok(RowStep::Row(number)),
                    Err(stop) => Err((number, stop)),
                }
            }
        }
    }
}
