//! Reads the readings and bits of a scan's line.

ghost use Rattle.std.specs.Prelude.{◌≡◌, ◌<◌, ◌∷◌, ◌++◌, ◌&&◌, IfSome, None, is_some, length, position, option_copied, option_to_list};
ghost use Rattle.std.specs.List.{filter_map};
ghost use Rattle.comtrade_values.specs.Fields.{bit};
ghost use Rattle.dfr_script.specs.Faults.{Is};
ghost use Rattle.dfr_script.specs.Fields.{reads_all};
ghost use Rattle.dfr_script.specs.PlainBits.{ReadsBits};
ghost use Rattle.dfr_script.specs.ScanLines as spec;

use crate::fault::{LineFault, LineRefusal};
use crate::fields::{needed, small_of};
use crate::line::is_bare;
use crate::plain::plain_field;
use crate::plain_bits::plain_bits;
use comtrade_values::{bit_of, is_word, trim};
use dfr_channels::{Reading, Scan};
use memchr::memchr;
use std::alloc::Allocator;

/// How many readings and bits the set-up's scans have. The lists of a line get room for so many; a
/// line with other numbers of them can be read too.
#[derive(Clone, Copy, Debug, PartialEq, Eq)]
pub struct ScanSize {
    /// The readings of a scan.
    pub analog: usize,
    /// The bits of a scan.
    pub status: usize,
}

fn place_of_slash(rest: &[u8]) -> Option<usize>
    ensures { result ≡ position spec.is_slash rest.now }
{
    memchr(b'/', rest)
}

fn place_of_comma(text: &[u8]) -> Option<usize>
    ensures { result ≡ position spec.is_comma text.now }
{
    text.iter().position(|b| *b == b',')
}

/// The first field of a text, and the text after its comma, if it has one.
#[tactic(auto, using(crate::proofs::CutFields::comma_fields))]
fn at_comma(text: &[u8]) -> (&[u8], Option<&[u8]>)
    ensures fields { spec.fields text.now ≡ result.0.now ∷ spec.fields_behind (option_copied result.1) }
    ensures shorter { IfSome result.1 (λ behind. length behind.now < length text.now) }
{
    match place_of_comma(text) {
        None => (trim(text), None),
        Some(at) => (trim(&text[..at]), Some(&text[at + 1..])),
    }
}

/// Reads a whole number that fits an i32, or `*` for a missing reading.
#[tactic(auto, unfolding(crate::specs::ScanLines::reading))]
fn reading_of(text: &[u8]) -> Option<Reading>
    ensures { result ≡ spec.reading text.now }
{
    if is_word(text, "*") {
        return Some(Reading::Missing);
    }
    match small_of(text) {
        Some(x) => Some(Reading::Value(x)),
        None => None,
    }
}

/// The first reading of a text, and the text after its comma, if it has one. The reading is None if
/// its field can't be read.
fn next_reading(text: &[u8]) -> (Option<Reading>, Option<&[u8]>)
    ensures all { reads_all spec.reading (spec.fields text.now)
        ≡ (is_some result.0 && reads_all spec.reading (spec.fields_behind (option_copied result.1))) }
    ensures values { filter_map spec.reading (spec.fields text.now)
        ≡ option_to_list result.0 ++ filter_map spec.reading (spec.fields_behind (option_copied result.1)) }
    ensures shorter { IfSome result.1 (λ behind. length behind.now < length text.now) }
{
    match plain_field(text) {
        Some((value, behind)) => (Some(Reading::Value(value)), behind),
        None => {
            let (field, behind) = at_comma(text);
            (reading_of(field), behind)
        }
    }
}

/// The readings of a part, separated by commas; none if the part is blank.
#[tactic(auto, unfolding(crate::specs::ScanLines::part_fields))]
fn readings_of<A: Allocator>(
    alloc: A,
    part: &[u8],
    room: usize,
) -> Result<Vec<Reading, A>, LineRefusal>
    ensures { Is (λ v. v.items) (spec.part spec.reading part.now) result }
{
    if is_bare(part) {
        return Ok(Vec::new(alloc));
    }
    // a text has no more readings than this, however many channels there are
    let mut list = Vec::with_capacity(alloc, room.min(part.len() / 2 + 1))?;
    let mut left = Some(part);
    while let Some(text) = left {
        let (reading, behind) = next_reading(text);
        list.push(needed(reading)?)?;
        left = behind;
    }
    Ok(list)
}

/// The first bit of a text, and the text after its comma, if it has one. The bit is None if its
/// field can't be read.
fn next_bit(text: &[u8]) -> (Option<bool>, Option<&[u8]>)
    ensures all { reads_all bit (spec.fields text.now)
        ≡ (is_some result.0 && reads_all bit (spec.fields_behind (option_copied result.1))) }
    ensures values { filter_map bit (spec.fields text.now)
        ≡ option_to_list result.0 ++ filter_map bit (spec.fields_behind (option_copied result.1)) }
    ensures shorter { IfSome result.1 (λ behind. length behind.now < length text.now) }
{
    let (field, behind) = at_comma(text);
    (bit_of(field), behind)
}

/// The bits of a part, separated by commas; none if the part is blank. `plain` has them already if
/// they are in plain spelling.
#[tactic(auto, unfolding(crate::specs::ScanLines::part_fields))]
fn bits_of<A: Allocator + Copy>(
    alloc: A,
    part: &[u8],
    plain: Option<Vec<bool, A>>,
    room: usize,
) -> Result<Vec<bool, A>, LineRefusal>
    requires { IfSome plain (λ bits. ReadsBits part.now bits.items) }
    ensures { Is (λ v. v.items) (spec.part bit part.now) result }
{
    if is_bare(part) {
        return Ok(Vec::new(alloc));
    }
    if let Some(bits) = plain {
        return Ok(bits);
    }
    let mut list = Vec::with_capacity(alloc, room.min(part.len() / 2 + 1))?;
    let mut left = Some(part);
    while let Some(text) = left {
        let (bit, behind) = next_bit(text);
        list.push(needed(bit)?)?;
        left = behind;
    }
    Ok(list)
}

/// Whether a part has a slash. Plain bits have none, so they aren't searched.
fn has_slash<A: Allocator>(part: &[u8], plain: &Option<Vec<bool, A>>) -> bool
    requires { IfSome plain.now (λ _. position spec.is_slash part.now ≡ None) }
    ensures { result ≡ is_some (position spec.is_slash part.now) }
{
    !part.is_empty() && plain.is_none() && place_of_slash(part).is_some()
}

/// Reads the scan in the rest of a line: readings, one slash, bits. Another number of slashes has
/// the fault `Fields`, a field that can't be read `Number`.
#[tactic(auto, unfolding(crate::specs::ScanLines::scan))]
pub(crate) fn scan_of<A: Allocator + Copy>(
    alloc: A,
    rest: &[u8],
    size: ScanSize,
) -> Result<Scan<A>, LineRefusal>
    ensures { Is (λ x. x) (spec.scan rest.now) result }
{
    let Some(at) = place_of_slash(rest) else {
        return Err(LineRefusal::Fault(LineFault::Fields));
    };
    let front = &rest[..at];
    let back = &rest[at + 1..];
    let plain = plain_bits(alloc, back)?;
    if has_slash(back, &plain) {
        return Err(LineRefusal::Fault(LineFault::Fields));
    }
    let readings = readings_of(alloc, front, size.analog)?;
    let bits = bits_of(alloc, back, plain, size.status)?;
    Ok(Scan::new(readings, bits))
}
