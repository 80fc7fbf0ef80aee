//! The blocks of a capture in the form pcapng, part by part.

ghost use Rattle.std.specs.Prelude.{◌≡◌, ◌+◌, ◌<◌, ◌≤◌, ◌^◌, length, IsTrue};
ghost use Rattle.dfr_pcap.specs.Blocks as spec;
ghost use Rattle.dfr_pcap.specs.Bounds.{IsSound, HasContent, IsInside};

use crate::flaw::Flaw;
use crate::moment::{Interface, Moment};
use crate::numbers::{four_at, high_first_4, two_at};
use crate::option::options;
use crate::packet::packet;
use dfr_bus::Order;

/// An interface as far as its block was read.
#[derive(Clone, Copy)]
pub struct Described {
    /// What is known of it.
    pub interface: Interface,
    /// How many bytes of options are left.
    pub left: u32,
    /// The length of its block.
    pub length: u32,
}

/// What stands at a place of a capture.
#[derive(Clone, Copy)]
pub enum Place {
    /// The head of a block.
    Head,
    /// The version of a section, in a block that is so much longer than the shortest.
    Version(u32),
    /// The options of an interface.
    Options(Described),
    /// A packet, in a block that is so much longer than the shortest.
    Packet(u32),
    /// The length at the end of a block of this length.
    Tail(u64),
}

/// What a part of a capture says.
#[derive(Clone, Copy)]
pub enum News {
    /// Nothing of packets.
    Nothing,
    /// A section begins. Its numbers are in this order.
    Section(Order),
    /// Another interface of the section.
    Interface(Interface),
    /// A packet: when it came, how many bytes were kept of it, and its length on the wire.
    Packet(Moment, u32, u32),
}

/// What stands at a place.
#[derive(Clone, Copy)]
pub struct Found {
    /// How many bytes of it are passed.
    pub length: u64,
    /// What stands behind them.
    pub place: Place,
    /// What it says.
    pub news: News,
}

/// What comes next.
#[derive(Clone, Copy)]
pub enum Outcome {
    /// What came doesn't reach to the end of what stands here.
    Wait,
    /// What is wrong so many bytes from here.
    Fault(u64, Flaw),
    /// This.
    Pass(Found),
}

/// So many bytes are passed.
pub(crate) fn pass(length: u64, place: Place, news: News) -> Outcome
    requires bounds { (4 ≤ length) × (length < 2 ^ 33) }
    requires content { HasContent news 0 }
    ensures value { result ≡ spec.pass length place news }
    ensures sound { IsSound result 0 }
{
    Outcome::Pass(Found {
        length,
        place,
        news,
    })
}

/// The order of a section's numbers, by its first.
#[tactic(auto, unfolding(crate::specs::Blocks::order_of))]
fn order_of(first: u32) -> Option<Order>
    ensures { result ≡ spec.order_of first }
{
    match first {
        0x1A2B_3C4D => Some(Order::Big),
        0x4D3C_2B1A => Some(Order::Little),
        _ => None,
    }
}

/// The length of a block, which has so many bytes at least.
#[tactic(auto, unfolding(crate::specs::Blocks::is_length))]
fn is_length(least: u32, length: u32) -> bool
    ensures value { result ≡ spec.is_length least length }
    ensures enough { IsTrue result → least ≤ length }
{
    length >= least && length % 4 == 0
}

/// The head of a section.
#[tactic(auto, unfolding(crate::specs::Blocks::section))]
fn section(seen: &[u8]) -> Outcome
    requires { length seen.now ≡ 12 }
    ensures value { result ≡ spec.section seen.now (spec.order_of (spec.big_4 seen.now 8)) }
    ensures sound { IsSound result 0 }
{
    match order_of(high_first_4(seen, 8)) {
        None => Outcome::Fault(8, Flaw::Order),
        Some(order) => {
            let length = four_at(order, seen, 4);
            if is_length(28, length) {
                pass(12, Place::Version(length - 28), News::Section(order))
            } else {
                Outcome::Fault(4, Flaw::Length)
            }
        }
    }
}

/// The head of an interface, in a section with so many.
#[tactic(auto, unfolding(crate::specs::Blocks::interface))]
fn interface(order: Order, count: usize, size: u32, seen: &[u8]) -> Outcome
    requires { length seen.now ≡ 12 }
    ensures value { result ≡ spec.interface order count size seen.now }
    ensures sound { IsSound result 0 }
{
    if size < 20 {
        return Outcome::Fault(4, Flaw::Length);
    }
    if two_at(order, seen, 8) != 1 {
        return Outcome::Fault(8, Flaw::Link);
    }
    if count >= 256 {
        return Outcome::Fault(0, Flaw::Interfaces);
    }
    let plain = Interface {
        resolution: 6,
        offset: 0,
    };
    let described = Described {
        interface: plain,
        left: size - 20,
        length: size,
    };
    pass(16, Place::Options(described), News::Nothing)
}

/// The head of a block that is no section's, in a section with so many interfaces.
#[tactic(auto, unfolding(crate::specs::Blocks::block))]
fn block(order: Order, count: usize, seen: &[u8]) -> Outcome
    requires { length seen.now ≡ 12 }
    ensures value { result ≡ spec.block order count (spec.four order seen.now 0) (spec.four order seen.now 4) seen.now }
    ensures sound { IsSound result 0 }
{
    let length = four_at(order, seen, 4);
    if !is_length(12, length) {
        return Outcome::Fault(4, Flaw::Length);
    }
    match four_at(order, seen, 0) {
        1 => interface(order, count, length, seen),
        2 => Outcome::Fault(0, Flaw::Obsolete),
        3 => Outcome::Fault(0, Flaw::Untimed),
        6 => packet_head(length),
        _ => other(length),
    }
}

/// The head of a block that says nothing of packets.
fn other(size: u32) -> Outcome
    requires { 12 ≤ size }
    ensures value { result ≡ spec.other size }
    ensures sound { IsSound result 0 }
{
    let size = u64::from(size);
    pass(size - 4, Place::Tail(size), News::Nothing)
}

/// The head of a block with a packet.
#[tactic(auto, unfolding(crate::specs::Blocks::packet_head))]
fn packet_head(size: u32) -> Outcome
    ensures value { result ≡ spec.packet_head size }
    ensures sound { IsSound result 0 }
{
    if size < 32 {
        return Outcome::Fault(4, Flaw::Length);
    }
    if size > 524_288 {
        return Outcome::Fault(4, Flaw::Large);
    }
    pass(8, Place::Packet(size - 32), News::Nothing)
}

/// The head of a block.
#[tactic(auto, unfolding(crate::specs::Blocks::head))]
fn head(order: Order, count: usize, seen: &[u8]) -> Outcome
    requires { length seen.now ≡ 12 }
    ensures value { result ≡ spec.head order count seen.now }
    ensures sound { IsSound result 0 }
{
    if high_first_4(seen, 0) == 0x0A0D_0D0A {
        section(seen)
    } else {
        block(order, count, seen)
    }
}

/// The version of a section. Some writers call version 1.0 version 1.2.
#[tactic(auto, unfolding(crate::specs::Blocks::version))]
fn version(order: Order, rest: u32, seen: &[u8]) -> Outcome
    requires { length seen.now ≡ 4 }
    ensures value { result ≡ spec.version order rest seen.now }
    ensures sound { IsSound result 0 }
{
    let minor = two_at(order, seen, 2);
    if two_at(order, seen, 0) != 1 || (minor != 0 && minor != 2) {
        return Outcome::Fault(0, Flaw::Version);
    }
    let rest = u64::from(rest);
    pass(rest + 12, Place::Tail(rest + 28), News::Nothing)
}

/// The length at the end of a block.
#[tactic(auto, unfolding(crate::specs::Blocks::tail))]
pub(crate) fn tail(order: Order, size: u64, news: News, seen: &[u8]) -> Outcome
    requires whole { length seen.now ≡ 4 }
    requires content { HasContent news 0 }
    ensures value { result ≡ spec.tail order size news seen.now }
    ensures sound { IsSound result 0 }
{
    if u64::from(four_at(order, seen, 0)) != size {
        return Outcome::Fault(0, Flaw::Lengths);
    }
    pass(4, Place::Head, news)
}

/// What these bytes say.
#[tactic(auto, using(crate::proofs::Bounds::more_sound))]
fn found_at(order: Order, interfaces: &[Interface], place: Place, seen: &[u8]) -> Outcome
    requires { length seen.now ≡ spec.needs place }
    ensures value { result ≡ spec.found_at order interfaces.now place seen.now }
    ensures sound { IsSound result (length seen.now) }
{
    match place {
        Place::Head => head(order, interfaces.len(), seen),
        Place::Version(rest) => version(order, rest, seen),
        Place::Options(described) => options(order, &described, seen),
        Place::Packet(rest) => packet(order, interfaces, rest, seen),
        Place::Tail(size) => tail(order, size, News::Nothing, seen),
    }
}

/// How many bytes say what stands at a place.
pub(crate) fn needs(place: Place) -> usize
    ensures { result ≡ spec.needs place }
{
    match place {
        Place::Head => 12,
        Place::Version(_) | Place::Tail(_) => 4,
        Place::Options(described) if described.left < 8 => described.left as usize + 4,
        Place::Options(_) => 12,
        Place::Packet(rest) => rest as usize + 24,
    }
}

/// What the bytes from a place on say.
#[tactic(auto, unfolding(crate::specs::Blocks::next))]
pub(crate) fn next(order: Order, interfaces: &[Interface], place: Place, left: &[u8]) -> Outcome
    ensures value { result ≡ spec.next order interfaces.now place left.now }
    ensures sound { IsSound result (spec.needs place) }
    ensures inside { IsInside result (spec.needs place) (length left.now) }
{
    let count = needs(place);
    if left.len() < count {
        return Outcome::Wait;
    }
    found_at(order, interfaces, place, &left[..count])
}
