//! Decodes the samples of a data file a second time, apart from the importer: what stands at the
//! place of each sample, and whether what is made of it can hold it as it is.

use crate::own_numbers::{Found, float_of, long_of, short_of, text_of};
use crate::untold::Sample;
use byteorder::{BigEndian, ByteOrder, LittleEndian};
use comtrade_dialects::Samples;
use comtrade_values::{Items, trim};
use memchr::memchr;
use std::alloc::{AllocError, Allocator};

/// The form of the samples in a data file.
#[derive(Clone, Copy, Debug, PartialEq, Eq)]
pub(crate) enum Form {
    /// Text; whether 99,999 is a sample in it, and no mark of a missing one.
    Text { has_nines: bool },
    /// Whole numbers of 16 bits.
    Short,
    /// Whole numbers of 32 bits.
    Long,
    /// Floats of 32 bits.
    Float,
}

/// How the rows of a data file lie.
#[derive(Clone, Copy, Debug, PartialEq, Eq)]
pub(crate) struct Layout {
    pub(crate) form: Form,
    /// The most significant byte is first.
    pub(crate) is_big: bool,
    /// The bytes at the end of each row that belong to no channel.
    pub(crate) spare: usize,
    /// The number of analogue channels.
    pub(crate) analog: usize,
    /// The number of status channels.
    pub(crate) status: usize,
    /// Which samples what is made of them may have.
    pub(crate) samples: Samples,
}

/// The samples of all rows; for each channel, whether it has a number that what is made of them
/// cannot hold as it is.
#[derive(Drop, Debug)]
pub(crate) struct Own<A: Allocator> {
    pub(crate) rows: Vec<Items<Sample, A>, A>,
    pub(crate) unfit: Vec<bool, A>,
}

/// The text before the first byte 1A.
fn before_mark(text: &[u8]) -> &[u8] {
    match memchr(0x1a, text) {
        Some(at) => &text[..at],
        None => text,
    }
}

/// A text without the blanks, line ends, zeros and separators at its end.
fn without_end(text: &[u8], mark: u8) -> &[u8] {
    let mut inner = text;
    for _ in 0..text.len() {
        match inner {
            [rest @ .., b' ' | b'\t' | b'\r' | b'\n' | 0] => inner = rest,
            [rest @ .., last] if *last == mark => inner = rest,
            _ => return inner,
        }
    }
    inner
}

/// What stands in a field, without quotation marks.
fn inside(field: &[u8]) -> &[u8] {
    match trim(field) {
        [b'"', inner @ .., b'"'] => trim(inner),
        plain => plain,
    }
}

fn without_returns(line: &[u8]) -> &[u8] {
    match line {
        [front @ .., b'\r', b'\r'] => front,
        [front @ .., b'\r'] => front,
        _ => line,
    }
}

/// The separator of ASCII rows, by the first of them.
fn mark_of(text: &[u8], end: u8) -> u8 {
    for line in text.split(|b| *b == end) {
        if !trim(without_returns(line)).is_empty() {
            return if line.contains(&b';') { b';' } else { b',' };
        }
    }
    b','
}

/// The samples of an ASCII row. Those that it lacks are absent.
fn text_row<A: Allocator + Copy>(
    alloc: A,
    unfit: &mut [bool],
    line: &[u8],
    mark: u8,
    (has_nines, kind): (bool, Samples),
) -> Result<Vec<Sample, A>, AllocError> {
    let mut samples = Vec::with_capacity(alloc, unfit.len())?;
    let mut fields = line.split(|b| *b == mark);
    let _number = fields.next();
    let _stamp = fields.next();
    for is_unfit in unfit.iter_mut() {
        let sample = match fields.next() {
            Some(field) => {
                let found = text_of(inside(field), has_nines, kind);
                *is_unfit = *is_unfit || found.is_unfit();
                found.sample
            }
            None => Sample::Absent,
        };
        samples.push(sample)?;
    }
    Ok(samples)
}

/// The samples of ASCII data.
fn own_text<A: Allocator + Copy>(
    alloc: A,
    text: &[u8],
    layout: Layout,
    has_nines: bool,
) -> Result<Own<A>, AllocError> {
    let mut unfit = vec![in alloc; false; layout.analog]?;
    let mut rows = Vec::new(alloc);
    let text = before_mark(text);
    let end = if text.contains(&b'\n') { b'\n' } else { b'\r' };
    let mark = mark_of(text, end);
    for line in without_end(text, mark).split(|b| *b == end) {
        let line = without_returns(line);
        if !trim(line).is_empty() {
            let kind = (has_nines, layout.samples);
            let samples = text_row(alloc, &mut unfit, line, mark, kind)?;
            rows.push(Items::of(samples))?;
        }
    }
    Ok(Own { rows, unfit })
}

/// Sixteen bits of a row; None past its end.
fn word_at(row: &[u8], at: usize, is_big: bool) -> Option<u16> {
    let bytes = row.get(at..at.checked_add(2)?)?;
    Some(if is_big {
        BigEndian::read_u16(bytes)
    } else {
        LittleEndian::read_u16(bytes)
    })
}

/// Thirty-two bits of a row; None past its end.
fn long_at(row: &[u8], at: usize, is_big: bool) -> Option<u32> {
    let bytes = row.get(at..at.checked_add(4)?)?;
    Some(if is_big {
        BigEndian::read_u32(bytes)
    } else {
        LittleEndian::read_u32(bytes)
    })
}

/// The bytes before the samples of a binary row: its number and its stamp.
const FRONT: usize = 8;

/// The sample of a channel in a binary row; None past its end.
fn found_at(row: &[u8], channel: usize, layout: Layout) -> Option<Found> {
    let is_big = layout.is_big;
    let at = channel.checked_mul(layout.width())?.checked_add(FRONT)?;
    match layout.form {
        Form::Long => Some(long_of(long_at(row, at, is_big)?, layout.samples)),
        Form::Float => Some(float_of(long_at(row, at, is_big)?)),
        _ => Some(short_of(word_at(row, at, is_big)?)),
    }
}

/// The samples of a binary row. Those that it lacks are absent.
fn binary_row<A: Allocator + Copy>(
    alloc: A,
    unfit: &mut [bool],
    row: &[u8],
    layout: Layout,
) -> Result<Vec<Sample, A>, AllocError> {
    let mut samples = Vec::with_capacity(alloc, unfit.len())?;
    for (channel, is_unfit) in unfit.iter_mut().enumerate() {
        let sample = match found_at(row, channel, layout) {
            Some(found) => {
                *is_unfit = *is_unfit || found.is_unfit();
                found.sample
            }
            None => Sample::Absent,
        };
        samples.push(sample)?;
    }
    Ok(samples)
}

impl Layout {
    /// The bytes of a binary sample.
    fn width(self) -> usize {
        match self.form {
            Form::Long | Form::Float => 4,
            _ => 2,
        }
    }

    /// The bytes of a binary row; None if memory couldn't hold one.
    fn size(self) -> Option<usize> {
        let samples = self.analog.checked_mul(self.width())?;
        let words = self.status.div_ceil(16).checked_mul(2)?;
        samples
            .checked_add(words)?
            .checked_add(FRONT)?
            .checked_add(self.spare)
    }
}

/// The samples of binary data. An incomplete last row counts, a single byte 1A there doesn't.
fn own_binary<A: Allocator + Copy>(
    alloc: A,
    dat: &[u8],
    layout: Layout,
) -> Result<Own<A>, AllocError> {
    let mut unfit = vec![in alloc; false; layout.analog]?;
    let mut rows = Vec::new(alloc);
    let size = match layout.size() {
        Some(size) => size.max(FRONT),
        // all bytes are those of one row that is not whole
        None => usize::MAX,
    };
    for row in dat.chunks(size) {
        if row != b"\x1a".as_slice() {
            let samples = binary_row(alloc, &mut unfit, row, layout)?;
            rows.push(Items::of(samples))?;
        }
    }
    Ok(Own { rows, unfit })
}

/// The samples of a data file.
pub(crate) fn own_of<A: Allocator + Copy>(
    alloc: A,
    dat: &[u8],
    layout: Layout,
) -> Result<Own<A>, AllocError> {
    match layout.form {
        Form::Text { has_nines } => own_text(alloc, dat, layout, has_nines),
        _ => own_binary(alloc, dat, layout),
    }
}
