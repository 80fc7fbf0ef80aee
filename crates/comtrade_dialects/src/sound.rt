//! Decides whether a file that reads exactly is also meant that way.

use crate::clock::Clock;
use crate::doubts::Doubts;
use crate::kinds::Form;
use crate::seen::{TimesSeen, clock_with};
use crate::text::has_only;
use comtrade_format::{Border, File, Head, Kind, Row, border_of};
use dfr_channels::{AnalogChannel, Reading};
use memchr::memchr;
use std::alloc::{AllocError, Allocator};

fn is_channel_sound<A: Allocator>(channel: &AnalogChannel<A>) -> bool {
    channel.min <= channel.max
        && !(0 <= channel.min && 32_767 < channel.max)
        && channel.a.units() != 0
        && channel.primary.units() != 0
        && channel.secondary.units() != 0
}

/// Whether a head that reads exactly is meant that way.
pub fn is_head_sound<A: Allocator>(head: &Head<A>) -> bool {
    for channel in head.analog.items() {
        if !is_channel_sound(channel) {
            return false;
        }
    }
    for rate in head.rates.items() {
        if head.nrates != 0 && rate.samp.units() < 1 {
            return false;
        }
    }
    head.first <= head.trigger
}

/// Whether the numbers and stamps of rows that read exactly are plausible, one row after the other:
/// the rows are numbered from 1 and have stamps from 0, which agree with the rates. Without rates,
/// the stamps must not all be the same.
#[derive(Drop)]
pub struct SoundRows<A: Allocator> {
    clock: Option<Clock<A>>,
    times: TimesSeen,
    doubts: Doubts,
    /// How many rows were taken, and their greatest stamp.
    rows: u64,
    last: u64,
    is_odd: bool,
}

impl<A: Allocator + Copy> SoundRows<A> {
    /// Before the first row of a file with this head, if this rate gives the interval across each
    /// border.
    pub fn new(alloc: A, head: &Head<A>, border: Border) -> Result<SoundRows<A>, AllocError> {
        let clock = clock_with(alloc, head, border)?;
        let is_odd = head.nrates != 0 && clock.is_none();
        Ok(SoundRows {
            clock,
            times: TimesSeen::new(head.timemult),
            doubts: Doubts::default(),
            rows: 0,
            last: 0,
            is_odd,
        })
    }

    /// Takes the number and the stamp of the next row.
    pub fn take(&mut self, number: u64, stamp: Option<u64>) {
        self.times
            .take(&mut self.doubts, &self.clock, number, stamp);
        let place = self.rows.saturating_add(1); // (no file has 2^64 rows)
        self.rows = place;
        let Some(stamp) = stamp else {
            self.is_odd = true;
            return;
        };
        if number != place || place == 1 && stamp != 0 {
            self.is_odd = true;
        }
        self.last = self.last.max(stamp);
    }

    /// Whether all rows that were taken are sound together.
    pub fn are_sound(&self) -> bool {
        let differ = self.clock.is_some() || 0 < self.last || self.rows < 2;
        let agree = self.doubts.off.is_none() && self.doubts.falling.is_none();
        differ && agree && !self.is_odd
    }
}

/// Whether the numbers and stamps of all rows are plausible.
fn are_times_sound<A: Allocator + Copy>(alloc: A, file: &File<A>) -> Result<bool, AllocError> {
    let mut rows = SoundRows::new(alloc, &file.head, border_of(file))?;
    for row in file.rows.items() {
        rows.take(row.number, row.stamp);
    }
    Ok(rows.are_sound())
}

/// Whether ASCII rows have an empty field, or text after their end.
fn has_odd_text(dat: &[u8]) -> bool {
    let mut before = b'\n';
    for (i, b) in dat.iter().enumerate() {
        if *b == 0x1a {
            return !has_only(&dat[i + 1..], b" \t\r\n\x1a\0");
        }
        if *b == b',' && before == b','
            || *b == b'\r' && before == b','
            || *b == b'\n' && before == b','
        {
            return true;
        }
        if *b != b' ' && *b != b'\t' {
            before = *b;
        }
    }
    before == b','
}

/// Whether a row has BINARY's mark of a missing value in a channel whose values cannot be so low.
fn has_mark_in<A: Allocator>(row: &Row<A>, channels: &[AnalogChannel<A>]) -> bool {
    for (value, channel) in row.values.items().iter().zip(channels.iter()) {
        if let Reading::Value(x) = value {
            if *x == -32_768 && -32_768 < channel.min {
                return true;
            }
        }
    }
    false
}

fn has_foreign_mark<A: Allocator>(file: &File<A>) -> bool {
    let channels = file.head.analog.items();
    for row in file.rows.items() {
        if has_mark_in(row, channels) {
            return true;
        }
    }
    false
}

/// Whether an unused bit is set, in BINARY rows of k values and m bits.
pub fn has_spare_bits(dat: &[u8], k: usize, m: usize) -> bool {
    let used = (m % 16) as u32;
    let Some(size) = Form::Binary.row_size(k, m) else {
        return false;
    };
    if used == 0 || size < 8 {
        return false;
    }
    for row in dat.chunks_exact(size) {
        if let [.., low, high] = row {
            if u16::from_le_bytes([*low, *high]) >> used != 0 {
                return true;
            }
        }
    }
    false
}

fn are_data_sound<A: Allocator>(file: &File<A>, dat: &[u8]) -> bool {
    let head = &file.head;
    match head.kind {
        Kind::Ascii => !has_odd_text(dat) && !has_foreign_mark(file),
        Kind::Binary => !has_spare_bits(dat, head.analog.items().len(), head.status.items().len()),
    }
}

/// Whether a file that reads exactly is meant that way, so that no repair is needed.
pub fn is_sound<A: Allocator + Copy>(
    alloc: A,
    file: &File<A>,
    dat: &[u8],
) -> Result<bool, AllocError> {
    if !is_head_sound(&file.head) || !are_data_sound(file, dat) {
        return Ok(false);
    }
    are_times_sound(alloc, file)
}
