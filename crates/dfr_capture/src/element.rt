//! The state of a contact in a GOOSE message.

ghost use Rattle.std.specs.Prelude.{◌≡◌, ◌≤◌, length, IfSome};
ghost use Rattle.dfr_bus.specs.DataValues.{datum_at};
ghost use Rattle.dfr_capture.specs.Elements as spec;

use dfr_bus::{Datum, Kind, Span, read_datum};

/// A position of two bits: 10 is on, 01 is off.
#[tactic(auto, unfolding(crate::specs::Elements::position_of))]
fn position_of(unused: u8, bits: u8) -> Option<bool>
    ensures { result ≡ spec.position_of unused bits }
{
    if unused != 6 {
        return None;
    }
    match bits / 64 {
        2 => Some(true),
        1 => Some(false),
        _ => None,
    }
}

/// The state that an element has by itself.
#[tactic(auto, unfolding(crate::specs::Elements::state_of))]
fn state_of(kind: Kind, bytes: &[u8], content: Span) -> Option<bool>
    requires { content.to ≤ length bytes.now }
    ensures { result ≡ spec.state_of kind bytes.now content }
{
    let size = content.to.checked_sub(content.from)?;
    match kind {
        Kind::Boolean if size == 1 => Some(bytes[content.from] != 0),
        Kind::Bits if size == 2 => position_of(bytes[content.from], bytes[content.from + 1]),
        _ => None,
    }
}

/// The state of an element that is in no structure.
fn plain_state(bytes: &[u8], at: usize, end: usize) -> Option<bool>
    requires order { at ≤ end }
    requires within { end ≤ length bytes.now }
    ensures { result ≡ spec.plain_state bytes.now (datum_at bytes.now at end) }
{
    match read_datum(bytes, at, end) {
        Ok(datum) => state_of(datum.kind, bytes, datum.content),
        Err(_) => None,
    }
}

/// The state of the element at this place, or in a structure of its first element.
#[tactic(auto, unfolding(crate::specs::Elements::element_state))]
fn element_state(bytes: &[u8], at: usize, end: usize) -> Option<bool>
    requires order { at ≤ end }
    requires within { end ≤ length bytes.now }
    ensures { result ≡ spec.element_state bytes.now (datum_at bytes.now at end) }
{
    match read_datum(bytes, at, end) {
        Ok(
            Datum {
                kind: Kind::Structure,
                content,
            },
        ) => plain_state(bytes, content.from, content.to),
        Ok(datum) => state_of(datum.kind, bytes, datum.content),
        Err(_) => None,
    }
}

/// The place after the element at this place, if there is one.
fn next_place(bytes: &[u8], end: usize, at: Option<usize>) -> Option<usize>
    requires order { IfSome at (λ at. at ≤ end) }
    requires within { end ≤ length bytes.now }
    ensures value { result ≡ spec.next_place bytes.now end at }
    ensures inside { IfSome result (λ at. at ≤ end) }
{
    match at {
        None => None,
        Some(at) => match read_datum(bytes, at, end) {
            Ok(datum) => Some(datum.content.to),
            Err(_) => None,
        },
    }
}

/// The place of element n, from 0.
#[tactic(auto, using(crate::proofs::Elements::place_steps))]
fn place_of(bytes: &[u8], from: usize, end: usize, n: usize) -> Option<usize>
    requires order { from ≤ end }
    requires within { end ≤ length bytes.now }
    ensures value { result ≡ spec.place_of bytes.now from end n }
    ensures inside { IfSome result (λ at. at ≤ end) }
{
    let mut at = Some(from);
    for _i in 0..n {
        at = next_place(bytes, end, at);
    }
    at
}

/// The state that element n of this content has.
pub(crate) fn state_in(bytes: &[u8], content: Span, n: usize) -> Option<bool>
    ensures { result ≡ spec.state_in bytes.now content n }
{
    if content.from > content.to || content.to > bytes.len() {
        return None;
    }
    match place_of(bytes, content.from, content.to, n) {
        None => None,
        Some(at) => element_state(bytes, at, content.to),
    }
}
