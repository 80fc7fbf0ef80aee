//! Reads rows that have a stamp and are spelled as the writers spell them, in one pass.

ghost use Rattle.std.specs.Prelude.{◌≡◌, ◌<◌, ◌<ℤ◌, ◌+◌, ◌-◌, ◌*◌, ◌^◌, [], IfOk, IfSome, option_copied, option_map, Some, Ok, true, pos, negsuc, length};
ghost use Rattle.comtrade_values.specs.Lines.{fields};
ghost use Rattle.comtrade_values.specs.PlainNumbers.{Begins, fields_behind};
ghost use Rattle.comtrade_values.specs.Fields.{within, up_to, bit as read_bit};
ghost use Rattle.comtrade_read.specs.Fields.{natural, ten_digits};
ghost use Rattle.comtrade_read.specs.Ascii as spec;
ghost use Rattle.comtrade_values.specs.PlainBits.{AreBits};
ghost use Rattle.comtrade_read.specs.Inner.PlainRows.{IsNext, AreNext};

use comtrade_format::Row;
use comtrade_values::{Items, are_bits, plain_number, sample_number};
use dfr_channels::Reading;
use std::alloc::{AllocError, Allocator};

/// The number, if it is possible as a row's number or stamp.
fn count(number: i64) -> Option<u64>
    ensures { result ≡ up_to ten_digits (Some number) }
{
    if number < 0 {
        return None;
    }
    if 9_999_999_999 < number {
        return None;
    }
    Some(number as u64)
}

/// The row's number at the start, and the text after its comma if it has one.
fn next_number(left: Option<&[u8]>) -> Option<(u64, Option<&[u8]>)>
    ensures { IfSome result (λ r. IsNext (natural ten_digits) (fields_behind (option_copied left.entry)) r.0 (fields_behind (option_copied r.1))) }
{
    let (number, behind) = plain_number(left?)?;
    let count = count(number)?;
    Some((count, behind))
}

/// The stamp at the start, and the text after its comma if it has one.
fn next_stamp(left: Option<&[u8]>) -> Option<(u64, Option<&[u8]>)>
    ensures { IfSome result (λ r. IsNext spec.stamp (fields_behind (option_copied left.entry)) (Some r.0) (fields_behind (option_copied r.1))) }
{
    let (stamp, behind) = next_number(left)?;
    Some((stamp, behind))
}

/// As `plain_number`, but tries `sample_number` first: most samples have four or five digits.
#[inline(always)]
fn value_number(text: &[u8]) -> Option<(i64, Option<&[u8]>)>
    ensures first { IfSome result (λ r. Begins text.now r.0 (option_copied r.1)) }
    ensures above { IfSome result (λ r. negsuc (10 ^ 10 - 1) <ℤ r.0) }
    ensures below { IfSome result (λ r. r.0 <ℤ pos (10 ^ 10)) }
{
    match sample_number(text) {
        Some((number, behind)) => Some((number as i64, behind)),
        None => plain_number(text),
    }
}

/// A number as a reading; 99,999 means missing.
fn reading(number: i64) -> Option<Reading>
    ensures { result ≡ option_map spec.reading (within (negsuc 99998) (pos 99999) (Some number)) }
{
    if number < -99_999 {
        return None;
    }
    if 99_999 < number {
        return None;
    }
    if number == 99_999 {
        return Some(Reading::Missing);
    }
    Some(Reading::Value(number as i32))
}

/// The value at the start, and the text after its comma if it has one.
fn next_value(left: Option<&[u8]>) -> Option<(Reading, Option<&[u8]>)>
    ensures { IfSome result (λ r. IsNext spec.value (fields_behind (option_copied left.entry)) r.0 (fields_behind (option_copied r.1))) }
{
    let (number, behind) = value_number(left?)?;
    let value = reading(number)?;
    Some((value, behind))
}

/// The first `count` values, and the text after them.
fn next_values<A: Allocator>(
    alloc: A,
    text: Option<&[u8]>,
    count: u32,
) -> Result<Option<(Vec<Reading, A>, Option<&[u8]>)>, AllocError>
    ensures { IfOk result (λ r. IfSome r (λ x. AreNext spec.value (fields_behind (option_copied text.entry)) count x.0.items (fields_behind (option_copied x.1)))) }
{
    let mut list = Vec::with_capacity(alloc, count as usize)?;
    let mut left = text;
    for _i in 0..count {
        let Some((value, behind)) = next_value(left) else {
            return Ok(None);
        };
        list.push_reserved(value);
        left = behind;
    }
    Ok(Some((list, left)))
}

/// Fills the buffer with the `count` bits of a text.
fn write_bits(slot: &mut [bool], text: &[u8], count: usize)
    requires many { length slot.old ≡ count }
    requires bits { AreBits text.now count }
    requires room { length text.now + 1 ≡ 2 * count }
    ensures { AreNext read_bit (fields text.now) count slot.new [] }
{
    for i in 0..count {
        slot[i] = text[2 * i] == b'1';
    }
}

/// The bits of a text, if it has exactly `count` bits and nothing after them.
fn plain_bits<A: Allocator>(
    alloc: A,
    text: &[u8],
    count: usize,
) -> Result<Option<Vec<bool, A>>, AllocError>
    requires { count < 1000000 }
    ensures { IfOk result (λ r. IfSome r (λ bits. AreNext read_bit (fields text.now) count bits.items [])) }
{
    if text.len() % 2 == 0 || text.len() / 2 + 1 != count || !are_bits(text, count) {
        return Ok(None);
    }
    let mut bits = vec![in alloc; false; count]?;
    write_bits(&mut bits, text, count);
    Ok(Some(bits))
}

/// The last `count` bits of a row.
fn last_bits<A: Allocator>(
    alloc: A,
    left: Option<&[u8]>,
    count: u32,
) -> Result<Option<Vec<bool, A>>, AllocError>
    requires { count < 1000000 }
    ensures { IfOk result (λ r. IfSome r (λ bits. AreNext read_bit (fields_behind (option_copied left.entry)) count bits.items [])) }
{
    match left {
        Some(text) => plain_bits(alloc, text, count as usize),
        None => {
            if count == 0 {
                Ok(Some(Vec::new(alloc)))
            } else {
                Ok(None)
            }
        }
    }
}

/// Reads a row in the writers' spelling. None means only that it is spelled differently.
pub(crate) fn plain_row<A: Allocator + Copy>(
    alloc: A,
    text: &[u8],
    k: u32,
    m: u32,
) -> Result<Option<Row<A>>, AllocError>
    requires k { k < 1000000 }
    requires m { m < 1000000 }
    ensures { IfOk result (λ r. IfSome r (λ row. spec.row_line k m (fields text.now) ≡ Ok row)) }
{
    // reserve room for no more values and bits than the text can have
    if text.len() / 2 < 1 + k as usize + m as usize {
        return Ok(None);
    }
    let Some((number, left)) = next_number(Some(text)) else {
        return Ok(None);
    };
    let Some((stamp, left)) = next_stamp(left) else {
        return Ok(None);
    };
    let Some((values, left)) = next_values(alloc, left, k)? else {
        return Ok(None);
    };
    let Some(bits) = last_bits(alloc, left, m)? else {
        return Ok(None);
    };
    Ok(Some(Row {
        number,
        stamp: Some(stamp),
        values: Items::of(values),
        bits: Items::of(bits),
    }))
}
