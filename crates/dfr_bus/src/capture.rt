//! Capture files, as libpcap writes them.

ghost use Rattle.std.specs.Prelude.{◌≡◌, ◌+◌, ◌-◌, ◌<◌, ◌≤◌, length, IfOk};
ghost use Rattle.dfr_bus.specs.Captures as spec;

use crate::fault::{Fault, Wrong, fault_at};
use crate::numbers::{big_2, big_4, little_2, little_4};
use crate::span::Span;

/// The order of a number's bytes.
#[derive(Clone, Copy, Debug, PartialEq, Eq)]
pub enum Order {
    /// The most significant byte comes first.
    Big,
    /// The least significant byte comes first.
    Little,
}

/// What the fraction of a second is counted in.
#[derive(Clone, Copy, Debug, PartialEq, Eq)]
pub enum Unit {
    /// Microseconds.
    Micro,
    /// Nanoseconds.
    Nano,
}

/// What the head of a capture says of its packets.
#[derive(Clone, Copy, Debug, PartialEq, Eq)]
pub struct Capture {
    /// The order of the bytes in the heads of the packets.
    pub order: Order,
    /// The unit of their fractions.
    pub unit: Unit,
}

/// A packet of a capture.
#[derive(Clone, Copy, Debug, PartialEq, Eq)]
pub struct Packet {
    /// When it came: seconds since 1970.
    pub seconds: u32,
    /// The nanoseconds after them. A file can have more here than a second has.
    pub nanoseconds: u64,
    /// Its length on the wire, in bytes.
    pub length: u32,
    /// What was kept of it.
    pub content: Span,
}

/// Two bytes in an order.
#[inline(always)]
fn two(order: Order, bytes: &[u8], at: usize) -> u16
    requires { at + 2 ≤ length bytes.now }
    ensures { result ≡ spec.two order bytes.now at }
{
    match order {
        Order::Big => big_2(bytes, at),
        Order::Little => little_2(bytes, at),
    }
}

/// Four bytes in an order.
#[inline(always)]
fn four(order: Order, bytes: &[u8], at: usize) -> u32
    requires { at + 4 ≤ length bytes.now }
    ensures { result ≡ spec.four order bytes.now at }
{
    match order {
        Order::Big => big_4(bytes, at),
        Order::Little => little_4(bytes, at),
    }
}

/// What the first number of a file says of it.
#[tactic(auto, unfolding(crate::specs::Captures::magic))]
fn magic(first: u32) -> Option<Capture>
    ensures { result ≡ spec.magic first }
{
    let (order, unit) = match first {
        0xA1B2_C3D4 => (Order::Big, Unit::Micro),
        0xA1B2_3C4D => (Order::Big, Unit::Nano),
        0xD4C3_B2A1 => (Order::Little, Unit::Micro),
        0x4D3C_B2A1 => (Order::Little, Unit::Nano),
        _ => return None,
    };
    Some(Capture { order, unit })
}

/// The rest of the head, after its first number.
#[tactic(auto, unfolding(crate::specs::Captures::rest_of_head))]
fn rest_of_head(bytes: &[u8], capture: Option<Capture>) -> Result<Capture, Fault>
    requires { 24 ≤ length bytes.now }
    ensures { result ≡ spec.rest_of_head bytes.now capture }
{
    match capture {
        None => Err(fault_at(0, Wrong::Magic)),
        Some(c) => {
            if two(c.order, bytes, 4) != 2 || two(c.order, bytes, 6) != 4 {
                return Err(fault_at(4, Wrong::Version));
            }
            if four(c.order, bytes, 20) % 65536 != 1 {
                return Err(fault_at(20, Wrong::Link));
            }
            Ok(c)
        }
    }
}

/// The head of a file, which is in its first 24 bytes. More may follow.
#[tactic(auto, unfolding(crate::specs::Captures::head_at))]
pub fn read_head(bytes: &[u8]) -> Result<Capture, Fault>
    ensures { result ≡ spec.head_at bytes.now (length bytes.now) }
{
    if bytes.len() < 24 {
        return Err(fault_at(bytes.len(), Wrong::CutShort));
    }
    rest_of_head(bytes, magic(big_4(bytes, 0)))
}

/// The packet whose head stands at `at`. It must end at `end` at the latest.
#[tactic(auto, unfolding(crate::specs::Captures::packet_at))]
pub fn read_packet(capture: Capture, bytes: &[u8], at: usize, end: usize) -> Result<Packet, Fault>
    requires order { at ≤ end }
    requires within { end ≤ length bytes.now }
    ensures exact { result ≡ spec.packet_at capture bytes.now at end }
    ensures inside { IfOk result (λ p. (at < p.content.from) × (p.content.from ≤ p.content.to) × (p.content.to ≤ end)) }
{
    if end - at < 16 {
        return Err(fault_at(end, Wrong::CutShort));
    }
    let kept = four(capture.order, bytes, at + 8);
    if kept > 262_144 {
        return Err(fault_at(at + 8, Wrong::Packet));
    }
    let from = at + 16;
    if end - from < kept as usize {
        return Err(fault_at(end, Wrong::CutShort));
    }
    let fraction = u64::from(four(capture.order, bytes, at + 4));
    Ok(Packet {
        seconds: four(capture.order, bytes, at),
        nanoseconds: fraction * unit_nanoseconds(capture.unit),
        length: four(capture.order, bytes, at + 12),
        content: Span {
            from,
            to: from + kept as usize,
        },
    })
}

/// The nanoseconds of a unit.
fn unit_nanoseconds(unit: Unit) -> u64
    ensures value { result ≡ spec.nanoseconds unit }
    ensures bound { result ≤ 1000 }
{
    match unit {
        Unit::Micro => 1000,
        Unit::Nano => 1,
    }
}
