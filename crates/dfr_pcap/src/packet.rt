//! A block with a packet, behind its head.

ghost use Rattle.std.specs.Prelude.{◌≡◌, ◌+◌, ◌≤◌, length};
ghost use Rattle.dfr_pcap.specs.Blocks as spec;
ghost use Rattle.dfr_pcap.specs.Bounds.{IsSound};

use crate::block::{Found, News, Outcome, Place};
use crate::flaw::Flaw;
use crate::moment::{Interface, Moment, moment_of};
use crate::numbers::{four_at, joined_8};
use dfr_bus::Order;

/// What was kept of a packet, its length, and the length at the end of its block.
#[tactic(auto, unfolding(crate::specs::Blocks::kept))]
fn kept(order: Order, rest: u32, moment: Moment, seen: &[u8]) -> Outcome
    requires { length seen.now ≡ rest + 24 }
    ensures value { result ≡ spec.kept order rest moment seen.now }
    ensures sound { IsSound result (length seen.now) }
{
    let count = four_at(order, seen, 12);
    if count > 262_144 || count > rest {
        return Outcome::Fault(12, Flaw::Packet);
    }
    let end = u64::from(rest) + 20;
    if u64::from(four_at(order, seen, end as usize)) != end + 12 {
        return Outcome::Fault(end, Flaw::Lengths);
    }
    let length = four_at(order, seen, 16);
    Outcome::Pass(Found {
        length: end + 4,
        place: Place::Head,
        news: News::Packet(moment, count, length),
    })
}

/// A packet of this interface.
#[tactic(auto, unfolding(crate::specs::Blocks::timed))]
fn timed(order: Order, rest: u32, interface: &Interface, seen: &[u8]) -> Outcome
    requires { length seen.now ≡ rest + 24 }
    ensures value { result ≡ spec.timed order rest interface.now seen.now }
    ensures sound { IsSound result (length seen.now) }
{
    let stamp = joined_8(four_at(order, seen, 4), four_at(order, seen, 8));
    match moment_of(interface, stamp) {
        Ok(moment) => kept(order, rest, moment, seen),
        Err(flaw) => Outcome::Fault(4, flaw),
    }
}

/// A packet, in a section with these interfaces.
pub(crate) fn packet(order: Order, interfaces: &[Interface], rest: u32, seen: &[u8]) -> Outcome
    requires { length seen.now ≡ rest + 24 }
    ensures value { result ≡ spec.packet order interfaces.now rest seen.now }
    ensures sound { IsSound result (length seen.now) }
{
    match interfaces.get(four_at(order, seen, 0) as usize) {
        Some(interface) => timed(order, rest, interface, seen),
        None => Outcome::Fault(0, Flaw::Interface),
    }
}
