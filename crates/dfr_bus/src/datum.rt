//! An element of the data of a GOOSE frame.

ghost use Rattle.std.specs.Prelude.{◌≡◌, ◌+◌, ◌-◌, ◌<◌, ◌≤◌, length, IfOk};
ghost use Rattle.dfr_bus.specs.DataValues as spec;

use crate::ber::content_at;
use crate::fault::{Fault, Wrong, fault_at};
use crate::span::Span;

/// What an element is.
#[derive(Clone, Copy, Debug, PartialEq, Eq)]
pub enum Kind {
    /// One byte, 0 for false.
    Boolean,
    /// A byte with the number of bits that are not used in the last byte, and the bits.
    Bits,
    /// A signed number.
    Integer,
    /// A number that isn't negative.
    Unsigned,
    /// A byte with the width of the exponent, and a number of IEEE 754 of 32 or 64 bits.
    Float,
    /// Any bytes.
    Octets,
    /// A text.
    Text,
    /// A time of day, maybe with a date.
    BinaryTime,
    /// A text of MMS.
    MmsText,
    /// A time: 8 bytes.
    Time,
    /// Elements of one kind.
    Array,
    /// Elements.
    Structure,
}

/// An element of the data.
#[derive(Clone, Copy, Debug, PartialEq, Eq)]
pub struct Datum {
    /// What it is.
    pub kind: Kind,
    /// Its content.
    pub content: Span,
}

/// What an element is, by its tag.
#[tactic(auto, unfolding(crate::specs::DataValues::kind_of))]
fn kind_of(tag: u8) -> Option<Kind>
    ensures { result ≡ spec.kind_of tag }
{
    let kind = match tag {
        0x83 => Kind::Boolean,
        0x84 => Kind::Bits,
        0x85 => Kind::Integer,
        0x86 => Kind::Unsigned,
        0x87 => Kind::Float,
        0x89 => Kind::Octets,
        0x8A => Kind::Text,
        0x8C => Kind::BinaryTime,
        0x90 => Kind::MmsText,
        0x91 => Kind::Time,
        0xA1 => Kind::Array,
        0xA2 => Kind::Structure,
        _ => return None,
    };
    Some(kind)
}

/// Whether a content of so many bytes, the first of which is this one, can be of the kind.
#[tactic(auto, unfolding(crate::specs::DataValues::fits))]
fn fits(kind: Kind, size: usize, first: u8) -> bool
    ensures { result ≡ spec.fits kind size first }
{
    match kind {
        Kind::Boolean => size == 1,
        Kind::Bits => (size == 1 && first == 0) || (1 < size && first < 8),
        Kind::Integer | Kind::Unsigned => 0 < size && size < 10,
        Kind::Float => (size == 5 && first == 8) || (size == 9 && first == 11),
        Kind::Time => size == 8,
        Kind::BinaryTime => size == 4 || size == 6,
        Kind::Octets | Kind::Text | Kind::MmsText | Kind::Array | Kind::Structure => true,
    }
}

/// The first byte of a content, or 0 where it is empty.
fn first_of(bytes: &[u8], content: Span) -> u8
    requires { content.to ≤ length bytes.now }
    ensures { result ≡ spec.first_of bytes.now content }
{
    if content.from < content.to {
        bytes[content.from]
    } else {
        0
    }
}

/// The element whose tag stands at `at`. It ends at `end` at the latest.
#[tactic(auto, unfolding(crate::specs::DataValues::datum_at, crate::specs::DataValues::of_kind))]
pub fn read_datum(bytes: &[u8], at: usize, end: usize) -> Result<Datum, Fault>
    requires order { at ≤ end }
    requires within { end ≤ length bytes.now }
    ensures exact { result ≡ spec.datum_at bytes.now at end }
    ensures inside { IfOk result (λ d. (at < d.content.from) × (d.content.from ≤ d.content.to) × (d.content.to ≤ end)) }
{
    if at == end {
        return Err(fault_at(end, Wrong::CutShort));
    }
    let content = content_at(bytes, at + 1, end)?;
    let Some(kind) = kind_of(bytes[at]) else {
        return Err(fault_at(at, Wrong::Kind));
    };
    if !fits(kind, content.to - content.from, first_of(bytes, content)) {
        return Err(fault_at(at, Wrong::Size));
    }
    Ok(Datum { kind, content })
}
