//! Reads a frame of sampled values.

ghost use Rattle.std.specs.Prelude.{◌≡◌, ◌+◌, ◌-◌, ◌<◌, ◌≤◌, length, take, IfOk};
ghost use Rattle.dfr_bus.specs.SampledValues as spec;
ghost use Rattle.dfr_bus.specs.Views.{Gives, frame_of};

use crate::asdu::{Asdu, asdu_at};
use crate::ber::{element_at, field_at};
use crate::fault::{Fault, Wrong, fault_at};
use crate::numbers::big_2;
use crate::sampled_values::{EMPTY, SampledValues};
use crate::span::Span;

/// The element with this tag, and nothing after it.
#[tactic(auto, unfolding(crate::specs::SampledValues::only_element_at))]
pub(crate) fn only_element_at(bytes: &[u8], at: usize, end: usize, tag: u8) -> Result<Span, Fault>
    requires order { at ≤ end }
    requires within { end ≤ length bytes.now }
    ensures exact { result ≡ spec.only_element_at bytes.now at end tag }
    ensures inside { IfOk result (λ s. (at < s.from) × (s.from ≤ s.to) × (s.to ≤ end)) }
{
    let content = element_at(bytes, at, end, tag)?;
    if content.to != end {
        return Err(fault_at(content.to, Wrong::Trailing));
    }
    Ok(content)
}

/// The number of ASDUs, and the place after it.
#[tactic(auto, unfolding(crate::specs::SampledValues::count_at))]
fn count_at(bytes: &[u8], at: usize, end: usize) -> Result<(usize, usize), Fault>
    requires order { at ≤ end }
    requires within { end ≤ length bytes.now }
    ensures exact { result ≡ spec.count_at bytes.now at end }
    ensures inside { IfOk result (λ x. (x.0 ≤ 8) × (at ≤ x.1) × (x.1 ≤ end)) }
{
    let content = field_at(bytes, at, end, 0x80, 1)?;
    let count = bytes[content.from] as usize;
    if count == 0 || count > 8 {
        return Err(fault_at(content.from, Wrong::Asdus));
    }
    Ok((count, content.to))
}

/// Reads so many ASDUs into the first places.
fn asdus_at(
    bytes: &[u8],
    at: usize,
    end: usize,
    count: usize,
    places: &mut [Asdu],
) -> Result<(), Fault>
    requires order { at ≤ end }
    requires within { end ≤ length bytes.now }
    requires room { count ≤ length places.old }
    ensures { Gives (λ _. take count places.new) result (spec.asdus_at bytes.now at end count) }
{
    let mut place = at;
    for i in 0..count {
        let content = element_at(bytes, place, end, 0x30)?;
        places[i] = asdu_at(bytes, content.from, content.to)?;
        place = content.to;
    }
    if place != end {
        return Err(fault_at(place, Wrong::Trailing));
    }
    Ok(())
}

/// Reads the ASDUs of a savPdu into the first places, and tells how many they are.
#[tactic(auto, unfolding(crate::specs::SampledValues::pdu_at))]
fn pdu_at(bytes: &[u8], at: usize, end: usize, places: &mut [Asdu]) -> Result<usize, Fault>
    requires order { at ≤ end }
    requires within { end ≤ length bytes.now }
    requires room { length places.old ≡ 8 }
    ensures exact { Gives (λ n. take n places.new) result (spec.pdu_at bytes.now at end) }
    ensures count { IfOk result (λ n. n ≤ 8) }
{
    let pdu = only_element_at(bytes, at, end, 0x60)?;
    let (count, after) = count_at(bytes, pdu.from, pdu.to)?;
    let content = only_element_at(bytes, after, pdu.to, 0xA2)?;
    asdus_at(bytes, content.from, content.to, count, places)?;
    Ok(count)
}

/// The place after the PDU, by the length in the head.
#[tactic(auto, unfolding(crate::specs::SampledValues::end_of_pdu))]
pub(crate) fn end_of_pdu(bytes: &[u8], at: usize, end: usize) -> Result<usize, Fault>
    requires order { at ≤ end }
    requires within { end ≤ length bytes.now }
    ensures exact { result ≡ spec.end_of_pdu bytes.now at end }
    ensures inside { IfOk result (λ x. (at + 8 ≤ x) × (x ≤ end)) }
{
    if end - at < 8 {
        return Err(fault_at(end, Wrong::CutShort));
    }
    let length = big_2(bytes, at + 2) as usize;
    if length < 8 {
        return Err(fault_at(at + 2, Wrong::Length));
    }
    if end - at < length {
        return Err(fault_at(at + 2, Wrong::TooLong));
    }
    Ok(at + length)
}

/// What the payload from `at` to `end` says, which are places in the bytes.
#[tactic(auto, unfolding(crate::specs::SampledValues::frame_at))]
pub fn read_sampled_values(bytes: &[u8], at: usize, end: usize) -> Result<SampledValues, Fault>
    requires order { at ≤ end }
    requires within { end ≤ length bytes.now }
    ensures { Gives frame_of result (spec.frame_at bytes.now at end) }
{
    let pdu_end = end_of_pdu(bytes, at, end)?;
    let mut places = [EMPTY; 8];
    let count = pdu_at(bytes, at + 8, pdu_end, &mut places)?;
    Ok(SampledValues {
        app_id: big_2(bytes, at),
        reserved_1: big_2(bytes, at + 4),
        reserved_2: big_2(bytes, at + 6),
        count,
        places,
    })
}
