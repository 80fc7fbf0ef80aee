//! Writes the rows of BINARY data (C37.111-1999, clause 6).

ghost use Rattle.std.specs.Prelude.{◌≡◌, ◌++◌, ◌≤◌, ◌<◌, ◌*◌, ◌+◌, ◌/◌, true, OnOk, IfOk, length, take, drop};
ghost use Rattle.std.specs.List.{flat_map, list_all};
ghost use Rattle.byteorder.specs.Endian.{little_bytes};
ghost use Rattle.comtrade_format.specs.Binary.{reading_number, stamp_number, bits_number, status_bytes, row_bytes};
ghost use Rattle.comtrade_format.specs.Refusals.{WritesTaken, takes_reading, takes_stamp, takes_times};
ghost use Rattle.comtrade_format.specs.Refusals as spec;
ghost use Rattle.comtrade_format.specs.Shape.{row_shaped};

use crate::bounds::binary_bounds;
use crate::checks::takes_row;
use crate::file::Row;
use byteorder::{ByteOrder, LittleEndian};
use dfr_channels::Reading;
use std::alloc::{AllocError, Allocator};

/// The number written for a reading, in two bytes.
fn word_of(reading: Reading) -> u16
    requires { takes_reading spec.binary_bounds reading ≡ true }
    ensures { result ≡ reading_number reading }
{
    match reading {
        Reading::Value(x) => (x as i16).cast_unsigned(),
        Reading::Missing => 0x8000,
    }
}

/// Fills the buffer with a row's values.
fn write_readings(slot: &mut [u8], readings: &[Reading])
    requires taken { list_all (takes_reading spec.binary_bounds) readings.now ≡ true }
    requires room { length slot.old ≡ 2 * length readings.now }
    ensures { slot.new ≡ flat_map (λ v. little_bytes 2 (reading_number v)) readings.now }
{
    for i in 0..readings.len() {
        LittleEndian::write_u16(&mut slot[2 * i..], word_of(readings[i]));
    }
}

/// At most sixteen bits as a number, the first bit least significant.
#[inline(always)]
fn group_of(bits: &[bool]) -> u16
    requires { length bits.now ≤ 16 }
    ensures { result ≡ bits_number bits.now }
{
    let mut group = 0u32;
    for i in 0..bits.len() {
        group = 2 * group + bits[bits.len() - 1 - i] as u32;
    }
    group as u16
}

/// The i-th group of sixteen bits as a number. For a whole group the compiler knows the length, and
/// needs no loop.
fn group_at(bits: &[bool], i: usize) -> u16
    requires { 16 * i < length bits.now }
    ensures { result ≡ bits_number (take 16 (drop (16 * i) bits.now)) }
{
    let rest = &bits[16 * i..];
    if rest.len() < 16 {
        group_of(rest)
    } else {
        group_of(&rest[..16])
    }
}

/// Fills the buffer with a row's bits, in groups of sixteen.
fn write_status(slot: &mut [u8], bits: &[bool])
    requires few { length bits.now < 1000000 }
    requires room { length slot.old ≡ 2 * ((length bits.now + 15) / 16) }
    ensures { slot.new ≡ status_bytes bits.now }
{
    for i in 0..(bits.len() + 15) / 16 {
        LittleEndian::write_u16(&mut slot[2 * i..], group_at(bits, i));
    }
}

fn stamp_of(stamp: Option<u64>) -> u32
    requires { takes_stamp spec.binary_bounds stamp ≡ true }
    ensures { result ≡ stamp_number stamp }
{
    match stamp {
        Some(t) => t as u32,
        None => 0xFFFF_FFFF,
    }
}

fn put_u32<A: Allocator>(out: &mut Vec<u8, A>, n: u32) -> Result<(), AllocError>
    ensures { OnOk result (out.new.items ≡ out.old.items ++ little_bytes 4 n) }
{
    let mut slot = [0u8; 4];
    LittleEndian::write_u32(&mut slot, n);
    out.extend_from_slice(&slot)
}

/// Appends the bytes of a row. `values` and `status` are buffers of the exact size, to build it in.
fn put_row<A: Allocator>(
    out: &mut Vec<u8, A>,
    values: &mut [u8],
    status: &mut [u8],
    row: &Row<A>,
) -> Result<(), AllocError>
    requires taken { list_all (takes_reading spec.binary_bounds) row.now.values ≡ true }
    requires times { takes_times spec.binary_bounds row.now ≡ true }
    requires few { length row.now.bits < 1000000 }
    requires values_room { length values.old ≡ 2 * length row.now.values }
    requires status_room { length status.old ≡ 2 * ((length row.now.bits + 15) / 16) }
    ensures { OnOk result (out.new.items ≡ out.old.items ++ row_bytes row.now) }
{
    write_readings(values, row.values.items());
    write_status(status, row.bits.items());
    put_u32(out, row.number as u32)?;
    put_u32(out, stamp_of(row.stamp))?;
    out.extend_from_slice(values)?;
    out.extend_from_slice(status)
}

/// Appends the bytes of each row. At the first row that is out of range it stops and returns false.
pub(crate) fn put_rows<A: Allocator + Copy>(
    out: &mut Vec<u8, A>,
    k: usize,
    n: usize,
    rows: &[Row<A>],
) -> Result<bool, AllocError>
    requires shaped { list_all (row_shaped k n) rows.now ≡ true }
    requires many { k < 1000000 }
    requires few { n < 1000000 }
    ensures { IfOk result (λ all. WritesTaken all (list_all (spec.takes_row spec.binary_bounds) rows.now) (out.new.items ≡ out.old.items ++ flat_map row_bytes rows.now)) }
{
    let mut values = vec![in *out.allocator(); 0u8; 2 * k]?;
    let mut status = vec![in *out.allocator(); 0u8; 2 * ((n + 15) / 16)]?;
    for row in rows {
        if !takes_row(binary_bounds(), row) {
            return Ok(false);
        }
        put_row(out, &mut values, &mut status, row)?;
    }
    Ok(true)
}
