//! A row of binary data.

use crate::fault::Why;
use crate::kinds::Form;
use crate::num::{Num, num_of_float};
use crate::row::{Cells, Odd, Packed, RowCounts, RowStop};
use std::alloc::Allocator;

/// A whole number of 32 bits without a sign.
fn long_of(bytes: [u8; 4], is_big: bool) -> u32 {
    if is_big {
        u32::from_be_bytes(bytes)
    } else {
        u32::from_le_bytes(bytes)
    }
}

/// The number of the row at the start of these bytes, if there is one.
pub(crate) fn number_of(row: &[u8], is_big: bool) -> Option<u32> {
    let (bytes, _) = row.split_first_chunk::<4>()?;
    Some(long_of(*bytes, is_big))
}

/// The rest of a row.
#[derive(Clone, Copy)]
pub(crate) struct Bytes<'a> {
    left: &'a [u8],
    is_big: bool,
}

impl Bytes<'_> {
    /// The next sixteen bits, if the row has more.
    fn next_word(&mut self) -> Option<u16> {
        let (bytes, left) = self.left.split_first_chunk::<2>()?;
        self.left = left;
        Some(if self.is_big {
            u16::from_be_bytes(*bytes)
        } else {
            u16::from_le_bytes(*bytes)
        })
    }

    /// The next thirty-two bits, if the row has more.
    pub(crate) fn next_long(&mut self) -> Option<u32> {
        let (bytes, left) = self.left.split_first_chunk::<4>()?;
        self.left = left;
        Some(long_of(*bytes, self.is_big))
    }

    /// Leaves out so many times thirty-two bits, if the row has them.
    fn skip_longs(&mut self, count: usize) -> Option<()> {
        self.left = self.left.get(count.checked_mul(4)?..)?;
        Some(())
    }
}

/// A value of 32 bits; None is the mark of a missing value.
fn long_value(bits: u32) -> Option<Num> {
    if bits == 0x8000_0000 {
        None
    } else {
        Some(Num::of(signed_long(bits)))
    }
}

/// A value of 16 bits; None is the mark of a missing value.
fn word_value(bits: u16, is_unsigned: bool) -> Option<Num> {
    if is_unsigned {
        Some(Num::of(i64::from(bits)))
    } else if bits == 0x8000 {
        None
    } else {
        Some(Num::of(signed_word(bits)))
    }
}

/// The next value of a row, if the row has more; `is_unsigned` if it has no sign.
fn next_value(bytes: &mut Bytes<'_>, form: Form, is_unsigned: bool) -> Option<Option<Num>> {
    Some(match form {
        Form::Float32 => num_of_float(bytes.next_long()?),
        Form::Binary32 => long_value(bytes.next_long()?),
        Form::Ascii | Form::Binary => word_value(bytes.next_word()?, is_unsigned),
    })
}

fn signed_long(bits: u32) -> i64 {
    let n = i64::from(bits);
    if bits < 0x8000_0000 {
        n
    } else {
        n - 4_294_967_296
    }
}

fn signed_word(bits: u16) -> i64 {
    let n = i64::from(bits);
    if bits < 0x8000 { n } else { n - 65_536 }
}

/// A row that is shorter than its channels need.
const SHORT: RowStop = RowStop::Why(Why::Length);

impl<A: Allocator> Cells<A> {
    /// Reads the status bits of a row, and records whether an unused bit is set.
    fn read_bits(&mut self, bytes: &mut Bytes<'_>, m: usize) -> Result<(), RowStop> {
        let mut left = m;
        for _ in 0..m.div_ceil(16) {
            let Some(word) = bytes.next_word() else {
                return Err(SHORT);
            };
            for i in 0..16u32 {
                let is_set = word >> i & 1 == 1;
                if (i as usize) < left {
                    self.bits.push(is_set)?;
                } else if is_set {
                    self.odd.has_spare_bits = true;
                }
            }
            left -= left.min(16);
        }
        Ok(())
    }

    /// Reads the number and the stamp of a row, and clears values and bits.
    fn read_front(&mut self, bytes: &mut Bytes<'_>) -> Result<(), RowStop> {
        self.values.clear();
        self.bits.clear();
        self.odd = Odd::default();
        let (Some(number), Some(stamp)) = (bytes.next_long(), bytes.next_long()) else {
            return Err(SHORT);
        };
        self.number = i64::from(number);
        self.stamp = if stamp == u32::MAX {
            None
        } else {
            Some(Num::of(i64::from(stamp)))
        };
        Ok(())
    }
}

/// Reads a row of floats without its values, which are returned.
pub(crate) fn read_float_row<'a, A: Allocator>(
    cells: &mut Cells<A>,
    row: &'a [u8],
    packed: Packed<'_>,
    counts: RowCounts,
) -> Result<Bytes<'a>, RowStop> {
    let mut bytes = Bytes {
        left: row,
        is_big: packed.is_big,
    };
    cells.read_front(&mut bytes)?;
    let values = bytes;
    if bytes.skip_longs(counts.k).is_none() {
        return Err(SHORT);
    }
    cells.read_bits(&mut bytes, counts.m)?;
    Ok(values)
}

/// Reads a row of binary data; `unsigned` says of each channel whether its values have no sign.
pub(crate) fn read_packed<A: Allocator>(
    cells: &mut Cells<A>,
    row: &[u8],
    packed: Packed<'_>,
    counts: RowCounts,
    unsigned: &[bool],
) -> Result<(), RowStop> {
    let mut bytes = Bytes {
        left: row,
        is_big: packed.is_big,
    };
    cells.read_front(&mut bytes)?;
    for is_unsigned in unsigned {
        let Some(value) = next_value(&mut bytes, packed.form, *is_unsigned) else {
            return Err(SHORT);
        };
        cells.values.push(value)?;
    }
    cells.read_bits(&mut bytes, counts.m)
}
