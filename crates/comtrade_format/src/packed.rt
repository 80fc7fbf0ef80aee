//! Reads the values and bits of a row of BINARY data (C37.111-1999, clause 6). Numbers
//! are little-endian.

ghost use Rattle.std.specs.Prelude.{◌≡◌, ◌≤◌, ◌<◌, ◌*◌, ◌+◌, ◌/◌, ◌++◌, length, min, IfOk};
ghost use Rattle.std.specs.Vec.{vec_len, vec_capacity};
ghost use Rattle.comtrade_format.specs.Packed as spec;

use byteorder::{ByteOrder, LittleEndian};
use dfr_channels::Reading;
use std::alloc::{AllocError, Allocator};

/// The value in the first two bytes, in two's complement. The lowest, -32,768, means missing.
#[inline]
fn value_of(bytes: &[u8]) -> Reading
    requires { 2 ≤ length bytes.now }
    ensures { result ≡ spec.value_at bytes.now }
{
    let value = LittleEndian::read_i16(bytes);
    if value == -32_768 {
        Reading::Missing
    } else {
        Reading::Value(value as i32)
    }
}

/// Reads `count` values of two bytes each from the start of `bytes`, which must hold them all.
/// -32,768 means missing. `AllocError`: an allocation failed.
pub fn packed_values<A: Allocator>(
    alloc: A,
    bytes: &[u8],
    count: usize,
) -> Result<Vec<Reading, A>, AllocError>
    requires { 2 * count ≤ length bytes.now }
    ensures { IfOk result (λ v. v.items ≡ spec.values_at count bytes.now) }
{
    let mut values = Vec::with_capacity(alloc, count)?;
    for i in 0..count {
        values.push_reserved(value_of(&bytes[2 * i..]));
    }
    Ok(values)
}

/// Appends the lowest `count` bits of a group. `bits` must have room for them.
#[inline(always)]
fn push_group<A: Allocator>(bits: &mut Vec<bool, A>, group: u16, count: usize)
    requires few { count ≤ 16 }
    requires room { vec_len bits.old + count ≤ vec_capacity bits.old }
    ensures items { bits.new.items ≡ bits.old.items ++ spec.group_bits count group }
    ensures len { vec_len bits.new ≡ vec_len bits.old + count }
    ensures capacity { vec_capacity bits.new ≡ vec_capacity bits.old }
{
    for i in 0..count {
        bits.push_reserved((group >> i) & 1 == 1);
    }
}

/// How many bits of the next group belong to channels, when `left` channels are left.
#[inline]
fn group_len(left: usize) -> usize
    ensures { result ≡ min left 16 }
{
    if left < 16 { left } else { 16 }
}

/// Reads `count` status bits from the start of `bytes`, which must hold all their groups. A group
/// has two bytes for 16 channels, the lowest channel in the lowest bit. `AllocError`: an
/// allocation failed.
pub fn packed_bits<A: Allocator>(
    alloc: A,
    bytes: &[u8],
    count: usize,
) -> Result<Vec<bool, A>, AllocError>
    requires { 2 * ((count + 15) / 16) ≤ length bytes.now }
    ensures { IfOk result (λ v. v.items ≡ spec.bits_at count bytes.now) }
{
    let mut bits = Vec::with_capacity(alloc, count)?;
    let whole = count / 16;
    // a variable, since the compiler unrolls a loop of exactly sixteen but vectorizes this one
    let size = group_len(count);
    for i in 0..whole {
        let group = LittleEndian::read_u16(&bytes[2 * i..]);
        push_group(&mut bits, group, size);
    }
    let left = count - 16 * whole;
    if left == 0 {
        return Ok(bits);
    }
    let last = LittleEndian::read_u16(&bytes[2 * whole..]);
    push_group(&mut bits, last, left);
    Ok(bits)
}
