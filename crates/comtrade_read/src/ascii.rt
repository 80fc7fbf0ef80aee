//! Reads the lines of an ASCII data file.

ghost use Rattle.std.specs.Prelude.{◌≡◌, ◌+◌, ◌<◌, [], length, map};
ghost use Rattle.std.specs.List.{before_first};
ghost use Rattle.comtrade_values.specs.Lines.{fields};
ghost use Rattle.comtrade_read.specs.Line.{told, next, each};
ghost use Rattle.comtrade_read.specs.Ascii as spec;
ghost use Rattle.comtrade_read.specs.Inner.LineFaults.{Is};

use crate::cells::{field_count, first_field};
use crate::fault::ReadFault;
use crate::fields::{natural, needed, within};
use crate::left::Left;
use crate::plain_rows::plain_row;
use comtrade_format::Row;
use comtrade_values::{Items, bit_of, integer_of};
use dfr_channels::Reading;
use memchr::memchr;
use std::alloc::Allocator;

/// Reads a time stamp; an empty field means none.
#[tactic(auto, unfolding(crate::specs::Ascii::stamp))]
fn stamp_of(text: &[u8]) -> Option<Option<u64>>
    ensures { result ≡ spec.stamp text.now }
{
    if text.is_empty() {
        return Some(None);
    }
    match natural(text, 9_999_999_999) {
        Some(stamp) => Some(Some(stamp)),
        None => None,
    }
}

/// Reads a value; 99,999 and an empty field mean missing.
#[tactic(auto, unfolding(crate::specs::Ascii::value, crate::specs::Fields::small))]
fn value_of(text: &[u8]) -> Option<Reading>
    ensures { result ≡ spec.value text.now }
{
    if text.is_empty() {
        return Some(Reading::Missing);
    }
    match within(integer_of(text)) {
        Some(99_999) => Some(Reading::Missing),
        Some(value) => Some(Reading::Value(value)),
        None => None,
    }
}

/// Reads a row of k values and m bits from a line with that many fields.
fn parts_of<A: Allocator + Copy>(
    alloc: A,
    line: u64,
    k: u32,
    m: u32,
    text: &[u8],
) -> Result<Row<A>, ReadFault>
    requires k { k < 1000000 }
    requires m { m < 1000000 }
    requires many { length (fields text.now) ≡ 2 + k + m }
    ensures { Is (λ x. x) (told line (spec.row_line k m (fields text.now))) result }
{
    let (field, left) = first_field(text);
    let number = needed(natural(field, 9_999_999_999), line, 0)?;
    let (field, mut left) = first_field(left);
    let stamp = needed(stamp_of(field), line, 1)?;
    let mut values = Vec::with_capacity(alloc, k as usize)?;
    for i in 0..k {
        let (field, rest) = first_field(left);
        values.push(needed(value_of(field), line, 2 + i)?)?;
        left = rest;
    }
    let mut bits = Vec::with_capacity(alloc, m as usize)?;
    for j in 0..m {
        let (field, rest) = first_field(left);
        bits.push(needed(bit_of(field), line, 2 + k + j)?)?;
        left = rest;
    }
    Ok(Row {
        number,
        stamp,
        values: Items::of(values),
        bits: Items::of(bits),
    })
}

/// Reads a row of k values and m bits.
#[tactic(auto, unfolding(crate::specs::Ascii::row_line))]
fn row_of<A: Allocator + Copy>(
    alloc: A,
    line: u64,
    k: u32,
    m: u32,
    text: &[u8],
) -> Result<Row<A>, ReadFault>
    requires k { k < 1000000 }
    requires m { m < 1000000 }
    ensures { Is (λ x. x) (told line (spec.row_line k m (fields text.now))) result }
{
    if let Some(row) = plain_row(alloc, text, k, m)? {
        return Ok(row);
    }
    if field_count(text) != 2 + k as usize + m as usize {
        return Err(ReadFault::Fields(line));
    }
    parts_of(alloc, line, k, m, text)
}

/// Reads the next row.
#[tactic(auto, unfolding(crate::specs::Line::next))]
fn next_row<A: Allocator + Copy>(
    alloc: A,
    left: &mut Left,
    k: u32,
    m: u32,
) -> Result<Row<A>, ReadFault>
    requires k { k < 1000000 }
    requires m { m < 1000000 }
    ensures { Is (λ x. (x, left.new)) (next (spec.row_line k m) left.old) result }
{
    let (line, text) = left.next_text()?;
    row_of(alloc, line, k, m, text)
}

/// Reads `count` rows, one per line, into a list with this capacity.
#[inline(never)] // in one piece with the reading of the head the loops run out of registers
fn rows_of<A: Allocator + Copy>(
    alloc: A,
    left: &mut Left,
    k: u32,
    m: u32,
    count: u64,
    room: usize,
) -> Result<Vec<Row<A>, A>, ReadFault>
    requires k { k < 1000000 }
    requires m { m < 1000000 }
    ensures { Is (λ v. (v.items, left.new)) (each (λ before. spec.row_line k m) count [] left.old) result }
{
    let mut list = Vec::with_capacity(alloc, room)?;
    for i in 0..count {
        list.push(next_row(alloc, left, k, m)?)?;
    }
    Ok(list)
}

/// The data before the first byte 1A (hexadecimal), the end mark.
fn before_end_mark(dat: &[u8]) -> &[u8]
    ensures { result.now ≡ before_first spec.is_end_mark dat.now }
{
    match memchr(0x1A, dat) {
        Some(at) => &dat[..at],
        None => dat,
    }
}

/// Reads the rows of an ASCII data file.
#[tactic(auto, unfolding(crate::specs::Ascii::rows, crate::specs::Ascii::data_lines))]
pub(crate) fn ascii_rows<A: Allocator + Copy>(
    alloc: A,
    dat: &[u8],
    k: u32,
    m: u32,
    count: u64,
) -> Result<Vec<Row<A>, A>, ReadFault>
    requires k { k < 1000000 }
    requires m { m < 1000000 }
    ensures { Is (λ v. v.items) (spec.rows k m count (map fields (spec.data_lines dat.now))) result }
{
    let text = before_end_mark(dat);
    // the head may claim more rows than exist: each has a digit, a comma before each other field,
    // and an end
    let most = text.len() / (3 + k as usize + m as usize) + 1;
    let mut left = Left::of(text);
    let rows = rows_of(alloc, &mut left, k, m, count, most.min(count as usize))?;
    left.end()?;
    Ok(rows)
}
