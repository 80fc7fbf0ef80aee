//! Reads the rows of a BINARY data file (C37.111-1999, clause 6).

ghost use Rattle.std.specs.Prelude.{◌≡◌, ◌≢◌, ◌≤◌, ◌<◌, ◌*◌, length, IfOk, IfErr};
ghost use Rattle.comtrade_read.specs.declared.fault.ReadFault.TheVariants as faults;
ghost use Rattle.comtrade_read.specs.Inner.BinaryRows as spec;
ghost use Rattle.comtrade_read.specs.Reads.{row_size};

use crate::fault::ReadFault;
use byteorder::{ByteOrder, LittleEndian};
use comtrade_format::{Row, packed_bits, packed_values};
use comtrade_values::Items;
use std::alloc::{AllocError, Allocator};

/// The time stamp in the first four bytes. The highest number means none.
fn stamp_of(bytes: &[u8]) -> Option<u64>
    requires { 4 ≤ length bytes.now }
    ensures { result ≡ spec.stamp_at bytes.now }
{
    let stamp = LittleEndian::read_u32(bytes);
    if stamp == u32::MAX {
        None
    } else {
        Some(stamp as u64)
    }
}

/// Reads the row at the start of the bytes.
#[tactic(auto, unfolding(crate::specs::Inner::BinaryRows::row_at))]
fn row_of<A: Allocator + Copy>(
    alloc: A,
    bytes: &[u8],
    k: usize,
    m: usize,
) -> Result<Row<A>, AllocError>
    requires k { k < 1000000 }
    requires m { m < 1000000 }
    requires whole { row_size k m ≤ length bytes.now }
    ensures { IfOk result (λ r. r ≡ spec.row_at k m bytes.now) }
{
    let values = packed_values(alloc, &bytes[8..], k)?;
    let bits = packed_bits(alloc, &bytes[8 + 2 * k..], m)?;
    Ok(Row {
        number: LittleEndian::read_u32(bytes) as u64,
        stamp: stamp_of(&bytes[4..]),
        values: Items::of(values),
        bits: Items::of(bits),
    })
}

/// The number of bytes of a row of a binary data file, of k values and m bits.
pub fn row_size(k: usize, m: usize) -> usize
    requires k { k < 1000000 }
    requires m { m < 1000000 }
    ensures { result ≡ row_size k m }
{
    8 + 2 * k + 2 * ((m + 15) / 16)
}

/// Reads `count` rows, one after the other.
#[inline(never)] // in one piece with the reading of the head the loops run out of registers
fn rows_of<A: Allocator + Copy>(
    alloc: A,
    dat: &[u8],
    k: usize,
    m: usize,
    count: usize,
) -> Result<Vec<Row<A>, A>, AllocError>
    requires k { k < 1000000 }
    requires m { m < 1000000 }
    requires whole { length dat.now ≡ count * row_size k m }
    ensures { IfOk result (λ v. v.items ≡ spec.rows_at k m dat.now count) }
{
    let size = row_size(k, m);
    let mut rows = Vec::with_capacity(alloc, count)?;
    for i in 0..count {
        rows.push(row_of(alloc, &dat[i * size..], k, m)?)?;
    }
    Ok(rows)
}

/// Reads the rows of a BINARY data file; `Length` if it isn't as long as `count` rows.
pub(crate) fn binary_rows<A: Allocator + Copy>(
    alloc: A,
    dat: &[u8],
    k: usize,
    m: usize,
    count: u64,
) -> Result<Vec<Row<A>, A>, ReadFault>
    requires k { k < 1000000 }
    requires m { m < 1000000 }
    ensures rows { IfOk result (λ v. (length dat.now ≡ count * row_size k m) × (v.items ≡ spec.rows_at k m dat.now count)) }
    ensures fault { IfErr result (λ e. e ≢ faults.Memory → (length dat.now ≢ count * row_size k m) × (e ≡ faults.Length)) }
{
    let size = row_size(k, m);
    // the product may exceed 64 bits
    if dat.len() as u128 != count as u128 * size as u128 {
        return Err(ReadFault::Length);
    }
    Ok(rows_of(alloc, dat, k, m, count as usize)?)
}
