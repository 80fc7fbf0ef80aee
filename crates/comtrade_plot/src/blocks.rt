//! The data of a page: samples, bits and times as bytes in base64.

use crate::rows::{bit_at, reading_at};
use crate::sheet::Sheet;
use base64::engine::general_purpose::STANDARD;
use comtrade_format::Row;
use comtrade_io::{ToolFault, write_out};
use dfr_channels::Reading;
use std::alloc::{AllocError, Allocator};
use std::io::Write;
use std::num::{f64_to_bits_with_nan, nearest_i64_to_f64};

/// How many bytes are encoded at once: a multiple of three.
const PIECE: usize = 49_152;

/// Writes a block of the page, whose name is a word, or a letter and a number.
pub(crate) fn write_block<A: Allocator + Copy, W: Write>(
    alloc: A,
    name: &str,
    number: Option<usize>,
    bytes: &[u8],
    w: &mut W,
) -> Result<(), ToolFault> {
    let mut head = Sheet::new(alloc);
    head.texts(&["<script type=\"text/plain\" id=\"", name]);
    if let Some(n) = number {
        head.number(n as u64);
    }
    head.text("\">");
    head.write(w)?;
    let mut text = String::new(alloc);
    for piece in bytes.chunks(PIECE) {
        text.clear();
        STANDARD.encode_string(piece, &mut text)?;
        write_out(w, text.as_bytes())?;
    }
    write_out(w, b"</script>\n")
}

/// A channel's samples as little-endian integers of 16 or 32 bits. The least number stands for a
/// missing sample, and for one that does not fit.
#[derive(Drop)]
pub(crate) struct SampleBlocks<A: Allocator> {
    pub(crate) bytes: Vec<u8, A>,
    pub(crate) is_wide: bool,
}

impl<A: Allocator> SampleBlocks<A> {
    fn add(&mut self, reading: Reading) -> Result<(), AllocError> {
        let sample = match reading {
            Reading::Value(sample) => sample,
            Reading::Missing => i32::MIN,
        };
        if self.is_wide {
            self.bytes.extend_from_slice(&sample.to_le_bytes())
        } else {
            // (`is_wide` says that a sample may not fit; the least number marks it as missing)
            let short = i16::try_from(sample).unwrap_or(i16::MIN);
            self.bytes.extend_from_slice(&short.to_le_bytes())
        }
    }
}

/// Adds the samples of consecutive channels, from this one on, in one pass over the rows.
pub(crate) fn gather_samples<A: Allocator>(
    channels: &mut [SampleBlocks<A>],
    rows: &[Row<A>],
    first: usize,
) -> Result<(), AllocError> {
    for row in rows {
        for (at, channel) in (first..=usize::MAX).zip(channels.iter_mut()) {
            channel.add(reading_at(row, at))?;
        }
    }
    Ok(())
}

/// A status channel's bits, eight in a byte, the first one lowest, and those of the byte that is
/// not full yet.
#[derive(Drop)]
pub(crate) struct Bits<A: Allocator> {
    pub(crate) bytes: Vec<u8, A>,
    pub(crate) byte: u8,
}

/// Completes the last byte of each status channel.
fn end_bytes<A: Allocator>(contacts: &mut [Bits<A>]) -> Result<(), AllocError> {
    for contact in contacts.iter_mut() {
        contact.bytes.push(contact.byte)?;
        contact.byte = 0;
    }
    Ok(())
}

/// Adds the bits of consecutive status channels, from this one on, in one pass over the rows.
pub(crate) fn gather_bits<A: Allocator>(
    contacts: &mut [Bits<A>],
    rows: &[Row<A>],
    first: usize,
) -> Result<(), AllocError> {
    let mut mask = 1u8;
    for row in rows {
        for (at, contact) in (first..=usize::MAX).zip(contacts.iter_mut()) {
            if bit_at(row, at) {
                contact.byte |= mask;
            }
        }
        if mask == 128 {
            end_bytes(contacts)?;
        }
        mask = mask.rotate_left(1);
    }
    end_bytes(contacts)
}

/// When rows were taken, as little-endian doubles. A row without a time, or with an earlier one
/// than the row before, has the time of the row before.
pub(crate) fn times_of_rows<A: Allocator + Copy>(
    alloc: A,
    times: &[Option<i64>],
) -> Result<Vec<u8, A>, AllocError> {
    let size = times.len().checked_mul(8).ok_or(AllocError)?;
    let mut bytes = Vec::with_capacity(alloc, size)?;
    let mut last: Option<i64> = None;
    for time in times {
        let time = match (*time, last) {
            (Some(time), Some(last)) => time.max(last),
            (Some(time), None) => time,
            (None, Some(last)) => last,
            (None, None) => 0,
        };
        last = Some(time);
        let bits = f64_to_bits_with_nan(nearest_i64_to_f64(time));
        bytes.extend_from_slice(&bits.to_le_bytes())?;
    }
    Ok(bytes)
}
