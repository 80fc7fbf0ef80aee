//! The numbers of a row of BINARY data (C37.111-1999, clause 6), least significant byte first.

ghost use Rattle.std.specs.Prelude.{◌≡◌, ◌≤◌, ◌<◌, ◌+◌, ◌*◌, ◌/◌, length};
ghost use Rattle.byteorder.specs.Endian.{little_number};
ghost use Rattle.comtrade_format.specs.Packed as spec;
ghost use Rattle.comtrade_read.specs.Inner.BinaryRows as rows;

use byteorder::{ByteOrder, LittleEndian};
use dfr_channels::Reading;

/// The number in the first four bytes.
#[inline]
pub(crate) fn number_of(bytes: &[u8]) -> u64
    requires { 4 ≤ length bytes.now }
    ensures { result ≡ little_number 4 bytes.now }
{
    LittleEndian::read_u32(bytes) as u64
}

/// The time stamp in the first four bytes. The highest number means none.
#[inline]
pub(crate) fn stamp_of(bytes: &[u8]) -> Option<u64>
    requires { 4 ≤ length bytes.now }
    ensures { result ≡ rows.stamp_at bytes.now }
{
    let stamp = LittleEndian::read_u32(bytes);
    if stamp == u32::MAX {
        None
    } else {
        Some(stamp as u64)
    }
}

/// The value in the first two bytes, in two's complement. The lowest, -32,768, means missing.
#[inline]
pub(crate) fn value_of(bytes: &[u8]) -> Reading
    requires { 2 ≤ length bytes.now }
    ensures { result ≡ spec.value_at bytes.now }
{
    let value = LittleEndian::read_i16(bytes);
    if value == -32_768 {
        Reading::Missing
    } else {
        Reading::Value(value as i32)
    }
}

/// The state of a contact in the groups of sixteen that begin the bytes.
#[inline]
pub(crate) fn bit_of(bytes: &[u8], contact: usize) -> bool
    requires { 2 * (contact / 16) + 2 ≤ length bytes.now }
    ensures { result ≡ spec.bit_of bytes.now contact }
{
    let group = LittleEndian::read_u16(&bytes[2 * (contact / 16)..]);
    (group >> (contact % 16)) & 1 == 1
}
