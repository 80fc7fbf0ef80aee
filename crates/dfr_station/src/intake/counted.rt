//! Counted frames: a mark, a checksum and a counter stand before each frame.

ghost use Rattle.std.specs.Prelude.{◌≡◌, ◌≢◌, ◌⊎◌, ◌≤◌, ◌+◌, MatchOption, Some, None, true, false, length};
ghost use Rattle.dfr_station.specs.Counted as spec;

use byteorder::{ByteOrder, LittleEndian};

/// What stands before each counted frame first.
const MARK: u8 = 0xA5;

/// How many bytes stand before a frame: the mark, the checksum and the counter.
pub const HEAD: usize = 5;

/// One bit of the division by the polynomial.
fn crc_bit(crc: u16) -> u16
    ensures { result ≡ spec.crc_bit crc }
{
    if crc < 32_768 {
        crc * 2
    } else {
        ((crc - 32_768) * 2) ^ 4_129
    }
}

/// Eight bits of the division.
#[tactic(auto, unfolding(crate::specs::Counted::crc_steps))]
fn crc_steps(crc: u16) -> u16
    ensures { result ≡ spec.crc_steps crc }
{
    let four = crc_bit(crc_bit(crc_bit(crc_bit(crc))));
    crc_bit(crc_bit(crc_bit(crc_bit(four))))
}

/// The CRC-16 of bytes.
fn crc_16(bytes: &[u8]) -> u16
    ensures { result ≡ spec.crc_16 bytes.now }
{
    let mut crc = u16::MAX;
    for byte in bytes {
        crc = crc_steps(crc ^ (u16::from(*byte) * 256));
    }
    crc
}

/// Whether the first byte is the mark.
fn has_mark(bytes: &[u8]) -> bool
    ensures { result ≡ spec.has_mark bytes.now }
{
    matches!(bytes, [MARK, ..])
}

/// The counter of the counted frame of so many bytes at the front, if one stands there.
#[tactic(auto, unfolding(crate::specs::Counted::is_counted))]
pub(crate) fn counter_of(size: usize, bytes: &[u8]) -> Option<u16>
    requires size { size ≤ 65_536 }
    requires whole { 5 + size ≤ length bytes.now }
    ensures { MatchOption result (spec.is_counted size bytes.now ≡ false)
        (λ counter. (spec.is_counted size bytes.now ≡ true) × (counter ≡ spec.counter_in bytes.now)) }
{
    if !has_mark(bytes) {
        return None;
    }
    let checksum = LittleEndian::read_u16(&bytes[1..]);
    let covered = &bytes[3..HEAD + size];
    if checksum != crc_16(covered) {
        return None;
    }
    Some(LittleEndian::read_u16(covered))
}

/// The counter after this one.
pub(crate) fn next_counter(counter: u16) -> u16
    ensures { result ≡ spec.next_counter counter }
{
    if counter == u16::MAX { 0 } else { counter + 1 }
}

/// The counter of the frame that is missing first before the one with this counter.
pub(crate) fn first_missing(due: Option<u16>, counter: u16) -> Option<u16>
    ensures { MatchOption result ((due ≡ None) ⊎ (due ≡ Some counter))
        (λ missing. (due ≡ Some missing) × (missing ≢ counter)) }
{
    match due {
        None => None,
        Some(due) if due != counter => Some(due),
        Some(_) => None,
    }
}

/// How many frames are missing before the one with this counter, if that one was to come next.
fn missing_before(due: Option<u16>, counter: u16) -> u32
    ensures { result ≡ spec.missing_before due counter }
{
    match due {
        None => 0,
        Some(due) if due <= counter => u32::from(counter - due),
        Some(due) => u32::from(counter) + 65_536 - u32::from(due),
    }
}

/// The counter of the last whole frame, if the bytes are whole frames from the first one on.
fn last_counter(size: usize, bytes: &[u8]) -> Option<u16>
    requires size { size ≤ 65_536 }
{
    let each = HEAD + size;
    let place = (bytes.len() / each).checked_sub(1)?.checked_mul(each)?;
    let last = bytes.get(place..)?;
    if last.len() < each {
        return None;
    }
    counter_of(size, last)
}

/// How many scans have come with these bytes, if the frame with the counter `due` was to come next,
/// as far as that can be said without looking at each frame: those up to the last whole one, which
/// are in step with the first one.
pub(crate) fn scans_counted(due: Option<u16>, size: usize, bytes: &[u8]) -> u64 {
    if size > 65_536 {
        return 0;
    }
    let each = HEAD + size;
    let mut rest = bytes;
    while rest.len() >= each {
        let Some(counter) = counter_of(size, rest) else {
            rest = &rest[1..];
            continue;
        };
        let later = match last_counter(size, rest) {
            Some(newest) => missing_before(Some(counter), newest),
            None => 0,
        };
        return u64::from(missing_before(due, counter)) + 1 + u64::from(later);
    }
    0
}
