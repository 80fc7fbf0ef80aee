//! Writes the lines of ASCII data (C37.111-1999, clause 6).

ghost use Rattle.std.specs.Prelude.{◌≡◌, ◌++◌, ◌∷◌, ◌≤◌, ◌<◌, ◌*◌, ◌+◌, true, OnOk, IfOk, length, take};
ghost use Rattle.std.specs.List.{flat_map, list_all};
ghost use Rattle.byteorder.specs.Endian.{little_bytes};
ghost use Rattle.comtrade_format.specs.Lines.{bit_text};
ghost use Rattle.comtrade_format.specs.Ascii.{reading_text, stamp_text, row_line};
ghost use Rattle.comtrade_format.specs.Refusals.{WritesTaken};
ghost use Rattle.comtrade_format.specs.Refusals as spec;
ghost use Rattle.comtrade_format.specs.Shape.{row_shaped};

use crate::bounds::ascii_bounds;
use crate::checks::takes_row;
use crate::file::Row;
use crate::value_text::write_reading;
use byteorder::{ByteOrder, LittleEndian};
use comtrade_values::put_number;
use dfr_channels::Reading;
use std::alloc::{AllocError, Allocator};

fn put_stamp<A: Allocator>(out: &mut Vec<u8, A>, stamp: Option<u64>) -> Result<(), AllocError>
    ensures { OnOk result (out.new.items ≡ out.old.items ++ stamp_text stamp) }
{
    match stamp {
        Some(t) => put_number(out, t),
        None => Ok(()),
    }
}

/// Writes the value fields from the start of the buffer, and returns the position after them.
fn write_readings(slot: &mut [u8], readings: &[Reading]) -> usize
    requires taken { list_all (spec.takes_reading spec.ascii_bounds) readings.now ≡ true }
    requires room { length slot.old ≡ 7 * length readings.now + 8 }
    ensures text { take result slot.new ≡ flat_map (λ v. 44 ∷ reading_text v) readings.now }
    ensures within { result ≤ length slot.old }
{
    let mut at = 0;
    for i in 0..readings.len() {
        at = write_reading(slot, at, readings[i]);
    }
    at
}

/// The two bytes of a bit's field, the comma in the lower byte.
fn bit_word(bit: bool) -> u16
    ensures { little_bytes 2 result ≡ 44 ∷ bit_text bit }
{
    if bit { 0x312C } else { 0x302C }
}

/// Fills the buffer with the fields of a row's bits.
fn write_bits(slot: &mut [u8], bits: &[bool])
    requires { length slot.old ≡ 2 * length bits.now }
    ensures { slot.new ≡ flat_map (λ b. 44 ∷ bit_text b) bits.now }
{
    for i in 0..bits.len() {
        LittleEndian::write_u16(&mut slot[2 * i..], bit_word(bits[i]));
    }
}

/// Appends a row's line. `values` and `bits` are buffers that are large enough, to build it in.
fn put_row<A: Allocator>(
    out: &mut Vec<u8, A>,
    values: &mut [u8],
    bits: &mut [u8],
    row: &Row<A>,
) -> Result<(), AllocError>
    requires taken { list_all (spec.takes_reading spec.ascii_bounds) row.now.values ≡ true }
    requires values_room { length values.old ≡ 7 * length row.now.values + 8 }
    requires bits_room { length bits.old ≡ 2 * length row.now.bits }
    ensures { OnOk result (out.new.items ≡ out.old.items ++ row_line row.now) }
{
    let end = write_readings(values, row.values.items());
    write_bits(bits, row.bits.items());
    put_number(out, row.number)?;
    out.push(b',')?;
    put_stamp(out, row.stamp)?;
    out.extend_from_slice(&values[..end])?;
    out.extend_from_slice(bits)?;
    out.extend_from_slice(b"\r\n")
}

/// Appends a line for each row. At the first row that is out of range it stops and returns false.
pub(crate) fn put_rows<A: Allocator + Copy>(
    out: &mut Vec<u8, A>,
    k: usize,
    n: usize,
    rows: &[Row<A>],
) -> Result<bool, AllocError>
    requires shaped { list_all (row_shaped k n) rows.now ≡ true }
    requires many { k < 1000000 }
    requires few { n < 1000000 }
    ensures { IfOk result (λ all. WritesTaken all (list_all (spec.takes_row spec.ascii_bounds) rows.now) (out.new.items ≡ out.old.items ++ flat_map row_line rows.now)) }
{
    let mut values = vec![in *out.allocator(); 0u8; 7 * k + 8]?;
    let mut bits = vec![in *out.allocator(); 0u8; 2 * n]?;
    for row in rows {
        if !takes_row(ascii_bounds(), row) {
            return Ok(false);
        }
        put_row(out, &mut values, &mut bits, row)?;
    }
    Ok(true)
}
