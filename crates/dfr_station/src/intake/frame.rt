//! Frames. A frame is one scan, as a row of BINARY data without its number and time stamp
//! (C37.111-1999, clause 6).

ghost use Rattle.std.specs.Prelude.{◌≡◌, ◌≤◌, ◌<◌, ◌*◌, ◌+◌, ◌/◌, ◌++◌, [], length, min, IfOk};
ghost use Rattle.std.specs.Vec.{vec_len, vec_capacity};
ghost use Rattle.comtrade_format.specs.Packed as packed;
ghost use Rattle.dfr_channels.specs.declared.scan.Reading.TheVariants as reading;
ghost use Rattle.dfr_station.specs.Frames as spec;
ghost use Rattle.dfr_station.specs.Lines.{FrameMeans, parts_of};

use crate::intake::arrival::{Arrival, arrival_of_scan};
use crate::intake::feed::Why;
use crate::station::Lowest;
use byteorder::{ByteOrder, LittleEndian};
use dfr_channels::{Layout, Reading, Scan};
use std::alloc::{AllocError, Allocator};

/// The size of a frame in bytes: two for each analogue channel, and two for each group of up to
/// sixteen status channels.
pub fn frame_len(analog: usize, status: usize) -> usize
    requires analog { analog ≤ 256 }
    requires status { status ≤ 256 }
    ensures { result ≡ spec.frame_len analog status }
{
    2 * analog + 2 * ((status + 15) / 16)
}

/// A sample of -32768.
#[inline]
fn lowest_reading(lowest: Lowest) -> Reading
    ensures { result ≡ spec.read_as lowest reading.Missing }
{
    match lowest {
        Lowest::Missing => Reading::Missing,
        Lowest::Clipped => Reading::Value(-32_767),
    }
}

/// The sample in the first two bytes, as BINARY data has it: the lowest value means missing.
#[inline]
fn binary_reading(bytes: &[u8]) -> Reading
    requires { 2 ≤ length bytes.now }
    ensures { result ≡ packed.value_at bytes.now }
{
    let value = LittleEndian::read_i16(bytes);
    if value == -32_768 {
        Reading::Missing
    } else {
        Reading::Value(value as i32)
    }
}

/// The sample in the first two bytes.
#[inline]
fn reading_of(lowest: Lowest, bytes: &[u8]) -> Reading
    requires { 2 ≤ length bytes.now }
    ensures { result ≡ spec.sample_at lowest bytes.now }
{
    match binary_reading(bytes) {
        Reading::Value(x) => Reading::Value(x),
        Reading::Missing => lowest_reading(lowest),
    }
}

/// Puts the samples of a frame into a list.
fn put_readings<A: Allocator>(
    readings: &mut Vec<Reading, A>,
    lowest: Lowest,
    frame: &[u8],
    count: usize,
) -> Result<(), AllocError>
    requires empty { (readings.old.items ≡ []) × (vec_len readings.old ≡ 0) }
    requires whole { 2 * count ≤ length frame.now }
    ensures { IfOk result (λ _. readings.new.items ≡ spec.samples_at lowest count frame.now) }
{
    readings.reserve(count)?;
    for i in 0..count {
        readings.push_reserved(reading_of(lowest, &frame[2 * i..]));
    }
    Ok(())
}

/// Appends the lowest `count` bits of a status word. `bits` must have room for them.
#[inline(always)]
fn push_word<A: Allocator>(bits: &mut Vec<bool, A>, word: u16, count: usize)
    requires few { count ≤ 16 }
    requires room { vec_len bits.old + count ≤ vec_capacity bits.old }
    ensures items { bits.new.items ≡ bits.old.items ++ packed.group_bits count word }
    ensures len { vec_len bits.new ≡ vec_len bits.old + count }
    ensures capacity { vec_capacity bits.new ≡ vec_capacity bits.old }
{
    for i in 0..count {
        bits.push_reserved((word >> i) & 1 == 1);
    }
}

/// How many bits of the next status word belong to channels, when `left` channels are left.
#[inline]
fn word_len(left: usize) -> usize
    ensures { result ≡ min left 16 }
{
    if left < 16 { left } else { 16 }
}

/// Puts the bits of the status words of a frame into a list.
fn put_bits<A: Allocator>(
    bits: &mut Vec<bool, A>,
    words: &[u8],
    count: usize,
) -> Result<(), AllocError>
    requires empty { (bits.old.items ≡ []) × (vec_len bits.old ≡ 0) }
    requires whole { 2 * ((count + 15) / 16) ≤ length words.now }
    ensures { IfOk result (λ _. bits.new.items ≡ packed.bits_at count words.now) }
{
    bits.reserve(count)?;
    let whole = count / 16;
    // a variable, since the compiler unrolls a loop of exactly sixteen but vectorizes this one
    let size = word_len(count);
    for i in 0..whole {
        let word = LittleEndian::read_u16(&words[2 * i..]);
        push_word(bits, word, size);
    }
    let left = count - 16 * whole;
    if left == 0 {
        return Ok(());
    }
    let last = LittleEndian::read_u16(&words[2 * whole..]);
    push_word(bits, last, left);
    Ok(())
}

/// Two empty lists, in the memory of the spare scan, if there is one.
fn lists_of<A: Allocator + Copy>(
    alloc: A,
    spare: Option<Scan<A>>,
) -> (Vec<Reading, A>, Vec<bool, A>)
    ensures readings { (result.0.items ≡ []) × (vec_len result.0 ≡ 0) }
    ensures bits { (result.1.items ≡ []) × (vec_len result.1 ≡ 0) }
{
    let Some(scan) = spare else {
        return (Vec::new(alloc), Vec::new(alloc));
    };
    let (mut readings, mut bits) = scan.into_parts();
    readings.clear();
    bits.clear();
    (readings, bits)
}

/// The scan of a frame. It has the memory of the spare one, if there is one.
#[tactic(auto, unfolding(crate::specs::Frames::frame_scan))]
pub fn scan_of_frame<A: Allocator + Copy>(
    alloc: A,
    spare: Option<Scan<A>>,
    lowest: Lowest,
    frame: &[u8],
    analog: usize,
    status: usize,
) -> Result<Scan<A>, AllocError>
    requires analog { analog ≤ 256 }
    requires status { status ≤ 256 }
    requires whole { spec.frame_len analog status ≤ length frame.now }
    ensures { IfOk result (λ scan. scan ≡ spec.frame_scan lowest analog status frame.now) }
{
    let (mut readings, mut bits) = lists_of(alloc, spare);
    put_readings(&mut readings, lowest, frame, analog)?;
    put_bits(&mut bits, &frame[2 * analog..], status)?;
    Ok(Scan::new(readings, bits))
}

/// What the frame at the front of these bytes is: a scan, or a lost one.
pub(crate) fn arrival_of_frame<A: Allocator + Copy>(
    alloc: A,
    spare: Option<Scan<A>>,
    layout: &Layout<A>,
    lowest: Lowest,
    bytes: &[u8],
) -> Arrival<A>
    requires { spec.frame_len (length layout.now.analog) (length layout.now.status) ≤ length bytes.now }
    ensures { FrameMeans layout.now lowest bytes.now (parts_of result) }
{
    // a lawful layout has at most 256 channels of each kind
    let _rate = layout.rate();
    let (analog, status) = (layout.analog().len(), layout.status().len());
    match scan_of_frame(alloc, spare, lowest, bytes, analog, status) {
        Ok(scan) => arrival_of_scan(layout, scan),
        Err(_) => Arrival::Lost(Why::Memory),
    }
}
