//! Elements of the basic encoding rules: a tag of one byte, a definite length, and the content.

ghost use Rattle.std.specs.Prelude.{◌≡◌, ◌+◌, ◌-◌, ◌<◌, ◌≤◌, length, IfOk, IfSome, Some, None, if◌then◌else◌, nat_le};
ghost use Rattle.dfr_bus.specs.Bytes.{byte, number_from};
ghost use Rattle.dfr_bus.specs.Ber as spec;

use crate::fault::{Fault, Wrong, fault_at};
use crate::numbers::big_2;
use crate::span::Span;

/// The number that the bytes spell, if it is not above `most`.
#[tactic(auto, using(crate::proofs::Digits::steps))]
pub(crate) fn number(bytes: &[u8], from: usize, to: usize, most: usize) -> Option<usize>
    requires order { from ≤ to }
    requires within { to ≤ length bytes.now }
    ensures bound { IfSome result (λ n. n ≤ most) }
    ensures exact { let n = number_from 0 bytes.now from (to - from) in
        result ≡ (if nat_le n most then Some n else None) }
{
    let mut value = 0;
    for i in from..to {
        if value > most / 256 {
            return None;
        }
        value = value * 256 + bytes[i] as usize;
    }
    if value > most { None } else { Some(value) }
}

/// So many bytes from `from` on, whose length stands at `at`.
fn sized(at: usize, from: usize, end: usize, size: usize) -> Result<Span, Fault>
    requires { from ≤ end }
    ensures exact { result ≡ spec.sized at from end size }
    ensures inside { IfOk result (λ s. (from ≤ s.from) × (s.from ≤ s.to) × (s.to ≤ end)) }
{
    if end - from < size {
        return Err(fault_at(at, Wrong::TooLong));
    }
    Ok(Span {
        from,
        to: from + size,
    })
}

/// The content after a length of `count` bytes after the one at `at`.
#[tactic(auto, unfolding(crate::specs::Ber::long_content_at))]
fn long_content_at(bytes: &[u8], at: usize, end: usize, count: usize) -> Result<Span, Fault>
    requires order { at < end }
    requires within { end ≤ length bytes.now }
    ensures exact { result ≡ spec.long_content_at bytes.now at end count }
    ensures inside { IfOk result (λ s. (at < s.from) × (s.from ≤ s.to) × (s.to ≤ end)) }
{
    let from = at + 1;
    if end - from < count {
        return Err(fault_at(end, Wrong::CutShort));
    }
    let begin = from + count;
    match number(bytes, from, begin, end - begin) {
        Some(size) => Ok(Span {
            from: begin,
            to: begin + size,
        }),
        None => Err(fault_at(at, Wrong::TooLong)),
    }
}

/// The content after the length at `at`.
#[tactic(auto, unfolding(crate::specs::Ber::content_at))]
pub(crate) fn content_at(bytes: &[u8], at: usize, end: usize) -> Result<Span, Fault>
    requires order { at ≤ end }
    requires within { end ≤ length bytes.now }
    ensures exact { result ≡ spec.content_at bytes.now at end }
    ensures inside { IfOk result (λ s. (at < s.from) × (s.from ≤ s.to) × (s.to ≤ end)) }
{
    if at == end {
        return Err(fault_at(end, Wrong::CutShort));
    }
    let first = bytes[at];
    if first < 128 {
        return sized(at, at + 1, end, first as usize);
    }
    if first == 128 {
        return Err(fault_at(at, Wrong::IndefiniteLength));
    }
    if first == 255 {
        return Err(fault_at(at, Wrong::ReservedLength));
    }
    long_content_at(bytes, at, end, first as usize - 128)
}

/// The content of the element with this tag.
#[tactic(auto, unfolding(crate::specs::Ber::element_at))]
pub(crate) fn element_at(bytes: &[u8], at: usize, end: usize, tag: u8) -> Result<Span, Fault>
    requires order { at ≤ end }
    requires within { end ≤ length bytes.now }
    ensures exact { result ≡ spec.element_at bytes.now at end tag }
    ensures inside { IfOk result (λ s. (at < s.from) × (s.from ≤ s.to) × (s.to ≤ end)) }
{
    if at == end {
        return Err(fault_at(end, Wrong::CutShort));
    }
    if bytes[at] != tag {
        return Err(fault_at(at, Wrong::Tag(tag)));
    }
    content_at(bytes, at + 1, end)
}

/// The content of the element with this tag, which has this size.
#[tactic(auto, unfolding(crate::specs::Ber::field_at))]
pub(crate) fn field_at(
    bytes: &[u8],
    at: usize,
    end: usize,
    tag: u8,
    size: usize,
) -> Result<Span, Fault>
    requires order { at ≤ end }
    requires within { end ≤ length bytes.now }
    ensures exact { result ≡ spec.field_at bytes.now at end tag size }
    ensures inside { IfOk result (λ s. (at < s.from) × (s.from + size ≡ s.to) × (s.to ≤ end)) }
{
    let content = element_at(bytes, at, end, tag)?;
    if content.to - content.from != size {
        return Err(fault_at(at, Wrong::Size));
    }
    Ok(content)
}

/// Whether an element with this tag comes next.
pub(crate) fn has_tag(bytes: &[u8], at: usize, end: usize, tag: u8) -> bool
    requires { end ≤ length bytes.now }
    ensures { result ≡ spec.has_tag bytes.now at end tag }
{
    at < end && bytes[at] == tag
}

/// The content of an element that may be left out, and the place after it.
#[tactic(auto, unfolding(crate::specs::Ber::optional_at))]
pub(crate) fn optional_at(
    bytes: &[u8],
    at: usize,
    end: usize,
    tag: u8,
) -> Result<(Option<Span>, usize), Fault>
    requires order { at ≤ end }
    requires within { end ≤ length bytes.now }
    ensures exact { result ≡ spec.optional_at bytes.now at end tag }
    ensures inside { IfOk result (λ x. (at ≤ x.1) × (x.1 ≤ end)) }
{
    if !has_tag(bytes, at, end, tag) {
        return Ok((None, at));
    }
    let content = element_at(bytes, at, end, tag)?;
    Ok((Some(content), content.to))
}

/// The same, with a content of this size.
#[tactic(auto, unfolding(crate::specs::Ber::optional_field_at))]
pub(crate) fn optional_field_at(
    bytes: &[u8],
    at: usize,
    end: usize,
    tag: u8,
    size: usize,
) -> Result<(Option<Span>, usize), Fault>
    requires order { at ≤ end }
    requires within { end ≤ length bytes.now }
    ensures exact { result ≡ spec.optional_field_at bytes.now at end tag size }
    ensures inside { IfOk result (λ x. (at ≤ x.1) × (x.1 ≤ end)) }
{
    if !has_tag(bytes, at, end, tag) {
        return Ok((None, at));
    }
    let content = field_at(bytes, at, end, tag, size)?;
    Ok((Some(content), content.to))
}

/// A number of two bytes that may be left out, and the place after it.
#[tactic(auto, unfolding(crate::specs::Ber::optional_2_at))]
pub(crate) fn optional_2_at(
    bytes: &[u8],
    at: usize,
    end: usize,
    tag: u8,
) -> Result<(Option<u16>, usize), Fault>
    requires order { at ≤ end }
    requires within { end ≤ length bytes.now }
    ensures exact { result ≡ spec.optional_2_at bytes.now at end tag }
    ensures inside { IfOk result (λ x. (at ≤ x.1) × (x.1 ≤ end)) }
{
    if !has_tag(bytes, at, end, tag) {
        return Ok((None, at));
    }
    let content = field_at(bytes, at, end, tag, 2)?;
    Ok((Some(big_2(bytes, content.from)), content.to))
}
