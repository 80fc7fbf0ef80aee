//! Ethernet frames.

ghost use Rattle.std.specs.Prelude.{◌≡◌, ◌+◌, ◌-◌, ◌<◌, ◌≤◌, length, IfOk, Some, None};
ghost use Rattle.dfr_bus.specs.Ethernets as spec;

use crate::fault::{Fault, Wrong, fault_at};
use crate::numbers::big_2;
use crate::span::Span;

/// The head of an Ethernet frame, and what it carries.
#[derive(Clone, Copy, Debug, PartialEq, Eq)]
pub struct Ethernet {
    /// The address that the frame is sent to.
    pub destination: Span,
    /// The address that it comes from.
    pub source: Span,
    /// The control information of the first VLAN tag.
    pub outer: Option<u16>,
    /// That of the second.
    pub inner: Option<u16>,
    /// The EtherType of the payload.
    pub ether_type: u16,
    /// What is carried, up to the frame's end.
    pub payload: Span,
}

#[tactic(auto, unfolding(crate::specs::Ethernets::two_at))]
fn two_at(bytes: &[u8], at: usize, end: usize) -> Result<u16, Fault>
    requires order { at ≤ end }
    requires within { end ≤ length bytes.now }
    ensures exact { result ≡ spec.two_at bytes.now at end }
    ensures inside { IfOk result (λ _. at + 2 ≤ end) }
{
    if end - at < 2 {
        return Err(fault_at(end, Wrong::CutShort));
    }
    Ok(big_2(bytes, at))
}

/// A tag, if one comes next, and the place after it.
#[tactic(auto, unfolding(crate::specs::Ethernets::vlan_at))]
fn vlan_at(bytes: &[u8], at: usize, end: usize) -> Result<(Option<u16>, usize), Fault>
    requires order { at ≤ end }
    requires within { end ≤ length bytes.now }
    ensures exact { result ≡ spec.vlan_at bytes.now at end }
    ensures inside { IfOk result (λ x. (at ≤ x.1) × (x.1 ≤ end)) }
{
    let kind = two_at(bytes, at, end)?;
    if kind == 0x8100 || kind == 0x88A8 {
        let tag = two_at(bytes, at + 2, end)?;
        Ok((Some(tag), at + 4))
    } else {
        Ok((None, at))
    }
}

/// A tag after the outer one, if there was one.
#[tactic(auto, unfolding(crate::specs::Ethernets::inner_vlan_at))]
fn inner_vlan_at(
    bytes: &[u8],
    at: usize,
    end: usize,
    outer: Option<u16>,
) -> Result<(Option<u16>, usize), Fault>
    requires order { at ≤ end }
    requires within { end ≤ length bytes.now }
    ensures exact { result ≡ spec.inner_vlan_at bytes.now at end outer }
    ensures inside { IfOk result (λ x. (at ≤ x.1) × (x.1 ≤ end)) }
{
    match outer {
        None => Ok((None, at)),
        Some(_) => vlan_at(bytes, at, end),
    }
}

/// The Ethernet frame from `at` to `end`, which are places in the bytes.
#[tactic(auto, unfolding(crate::specs::Ethernets::ethernet_at))]
pub fn read_ethernet(bytes: &[u8], at: usize, end: usize) -> Result<Ethernet, Fault>
    requires order { at ≤ end }
    requires within { end ≤ length bytes.now }
    ensures exact { result ≡ spec.ethernet_at bytes.now at end }
    ensures inside { IfOk result (λ x. (at ≤ x.payload.from) × (x.payload.from ≤ x.payload.to) × (x.payload.to ≡ end)) }
{
    if end - at < 12 {
        return Err(fault_at(end, Wrong::CutShort));
    }
    let (outer, after) = vlan_at(bytes, at + 12, end)?;
    let (inner, after) = inner_vlan_at(bytes, after, end, outer)?;
    let ether_type = two_at(bytes, after, end)?;
    Ok(Ethernet {
        destination: Span {
            from: at,
            to: at + 6,
        },
        source: Span {
            from: at + 6,
            to: at + 12,
        },
        outer,
        inner,
        ether_type,
        payload: Span {
            from: after + 2,
            to: end,
        },
    })
}
