//! The options of an interface.

ghost use Rattle.std.specs.Prelude.{◌≡◌, ◌+◌, ◌≤◌, length};
ghost use Rattle.dfr_pcap.specs.Blocks as spec;
ghost use Rattle.dfr_pcap.specs.Bounds.{IsSound};

use crate::block::{Described, News, Outcome, Place, pass, tail};
use crate::flaw::Flaw;
use crate::moment::Interface;
use crate::numbers::{eight_at, two_at};
use dfr_bus::Order;

/// The size of an option, up to the next.
#[tactic(auto, unfolding(crate::specs::Blocks::padded))]
fn padded(size: u16) -> u32
    ensures value { result ≡ spec.padded size }
    ensures bound { result ≤ 65540 }
    ensures one { size ≡ 1 → result ≡ 4 }
    ensures eight { size ≡ 8 → result ≡ 8 }
{
    (u32::from(size) + 3) / 4 * 4
}

/// So many bytes of options are passed.
fn passed_on(interface: Interface, old: &Described, count: u32) -> Outcome
    requires { (4 ≤ count) × (count ≤ old.now.left) }
    ensures value { result ≡ spec.passed_on interface old.now count }
    ensures sound { IsSound result 0 }
{
    let rest = Described {
        interface,
        left: old.left - count,
        length: old.length,
    };
    pass(u64::from(count), Place::Options(rest), News::Nothing)
}

/// The resolution, as an option.
fn resolution(old: &Described, seen: &[u8]) -> Outcome
    requires room { 8 ≤ old.now.left }
    requires whole { 5 ≤ length seen.now }
    ensures value { result ≡ spec.resolution old.now seen.now }
    ensures sound { IsSound result 0 }
{
    let changed = Interface {
        resolution: seen[4],
        offset: old.interface.offset,
    };
    passed_on(changed, old, 8)
}

/// The offset, as an option.
fn offset(order: Order, old: &Described, seen: &[u8]) -> Outcome
    requires room { 12 ≤ old.now.left }
    requires whole { 12 ≤ length seen.now }
    ensures value { result ≡ spec.offset order old.now seen.now }
    ensures sound { IsSound result 0 }
{
    let changed = Interface {
        resolution: old.interface.resolution,
        offset: eight_at(order, seen, 4),
    };
    passed_on(changed, old, 12)
}

/// An option of this code and size.
#[tactic(auto, unfolding(crate::specs::Blocks::option))]
fn option(order: Order, old: &Described, code: u16, size: u16, seen: &[u8]) -> Outcome
    requires { length seen.now ≡ spec.needed old.now.left }
    ensures value { result ≡ spec.option order old.now code size seen.now }
    ensures sound { IsSound result 0 }
{
    let count = 4 + padded(size);
    if old.left < count {
        return Outcome::Fault(2, Flaw::Option);
    }
    if code == 0 {
        return passed_on(old.interface, old, old.left);
    }
    if code == 9 && size == 1 {
        return resolution(old, seen);
    }
    if code == 14 && size == 8 {
        return offset(order, old, seen);
    }
    if code == 9 || code == 14 {
        return Outcome::Fault(2, Flaw::Option);
    }
    passed_on(old.interface, old, count)
}

/// The next option, or the end of the block.
#[tactic(auto, unfolding(crate::specs::Blocks::options))]
pub(crate) fn options(order: Order, old: &Described, seen: &[u8]) -> Outcome
    requires { length seen.now ≡ spec.needed old.now.left }
    ensures value { result ≡ spec.options order old.now seen.now }
    ensures sound { IsSound result 0 }
{
    if old.left == 0 {
        let whole = News::Interface(old.interface);
        return tail(order, u64::from(old.length), whole, seen);
    }
    let code = two_at(order, seen, 0);
    let size = two_at(order, seen, 2);
    option(order, old, code, size, seen)
}
