//! Reads a row of ASCII data.

use crate::fault::Why;
use crate::field::Fields;
use crate::numeral::spelled_of;
use crate::row::{Cells, Odd, RowCounts, RowStop};
use crate::text::has_only;
use comtrade_values::bit_of;
use std::alloc::Allocator;

/// What marks a missing value, in upper or lower case, after a sign.
const MARKS: [&[u8]; 12] = [
    b"nan",
    b"inf",
    b"infinity",
    b"null",
    b"none",
    b"n/a",
    b"na",
    b"missing",
    b"#n/a",
    b"#num!",
    b"#div/0!",
    b"#value!",
];

/// Whether a text is a NaN with its bits, such as `nan(ind)`.
fn is_nan_with_bits(text: &[u8]) -> bool {
    matches!(
        text,
        [b'n' | b'N', b'a' | b'A', b'n' | b'N', b'(', .., b')']
    )
}

/// Whether a text marks a missing value.
fn is_mark(text: &[u8]) -> bool {
    let body = match text {
        [b'-' | b'+', rest @ ..] => rest,
        _ => text,
    };
    for mark in MARKS {
        if body.eq_ignore_ascii_case(mark) {
            return true;
        }
    }
    has_only(text, b"-*?#.") || is_nan_with_bits(body) || body.starts_with(b"1.#")
}

fn push_value<A: Allocator>(
    cells: &mut Cells<A>,
    text: &[u8],
    lets_comma: bool,
) -> Result<(), RowStop> {
    match spelled_of(text, lets_comma) {
        Some(spelled) => {
            cells.odd.has_points = cells.odd.has_points || spelled.is_pointed;
            cells.odd.has_fortran = cells.odd.has_fortran || spelled.is_fortran;
            cells.odd.has_commas = cells.odd.has_commas || spelled.has_comma;
            cells.values.push(Some(spelled.num))?;
            Ok(())
        }
        None if is_mark(text) => {
            cells.odd.has_marks = true;
            cells.values.push(None)?;
            Ok(())
        }
        None => Err(RowStop::Why(Why::Value)),
    }
}

/// Reads the number and the stamp of a row.
fn read_front<A: Allocator>(
    cells: &mut Cells<A>,
    fields: &mut Fields<'_>,
    lets_comma: bool,
) -> Result<(), RowStop> {
    let Some(number) = fields.next_field() else {
        return Err(RowStop::Why(Why::RowFields));
    };
    match spelled_of(number, false) {
        None if number.is_empty() => cells.number = 0,
        Some(spelled) => match spelled.num.whole() {
            Some(n) => cells.number = n,
            None => return Err(RowStop::Why(Why::Value)),
        },
        None => return Err(RowStop::Why(Why::Value)),
    }
    let stamp = match fields.next_field() {
        Some(text) => text,
        None => return Err(RowStop::Why(Why::RowFields)),
    };
    cells.stamp = None;
    if stamp.is_empty() {
        return Ok(());
    }
    let Some(spelled) = spelled_of(stamp, lets_comma) else {
        return Err(RowStop::Why(Why::Value));
    };
    cells.odd.has_stamp_point = spelled.is_pointed;
    cells.stamp = Some(spelled.num);
    Ok(())
}

/// Reads a row of ASCII data.
pub(crate) fn read_line<A: Allocator>(
    cells: &mut Cells<A>,
    line: &[u8],
    mark: u8,
    counts: RowCounts,
) -> Result<(), RowStop> {
    cells.values.clear();
    cells.bits.clear();
    cells.odd = Odd::default();
    let mut fields = Fields::of(line, mark);
    read_front(cells, &mut fields, mark == b';')?;
    for _ in 0..counts.k {
        let Some(text) = fields.next_field() else {
            return Err(RowStop::Why(Why::RowFields));
        };
        push_value(cells, text, mark == b';')?;
    }
    for _ in 0..counts.m {
        let Some(text) = fields.next_field() else {
            return Err(RowStop::Why(Why::RowFields));
        };
        match bit_of(text) {
            Some(bit) => cells.bits.push(bit)?,
            None => return Err(RowStop::Why(Why::Bit)),
        }
    }
    if !fields.has_more() {
        return Ok(());
    }
    cells.odd.has_trailing = true;
    if fields.is_empty_from_here() {
        Ok(())
    } else {
        Err(RowStop::Why(Why::RowFields))
    }
}
