//! Numbers of a block, in the order of its section.

ghost use Rattle.std.specs.Prelude.{◌≡◌, ◌+◌, ◌*◌, ◌≤◌, ◌^◌, length};
ghost use Rattle.dfr_bus.specs.Captures.{two, four};
ghost use Rattle.dfr_bus.specs.Bytes.{big_2, big_4, little_2, little_4};
ghost use Rattle.dfr_pcap.specs.Blocks as spec;

use dfr_bus::Order;

/// Two bytes, the most significant first.
fn high_first_2(bytes: &[u8], at: usize) -> u16
    requires { at + 2 ≤ length bytes.now }
    ensures { result ≡ big_2 bytes.now at }
{
    u16::from(bytes[at]) * 256 + u16::from(bytes[at + 1])
}

/// Two bytes, the least significant first.
fn low_first_2(bytes: &[u8], at: usize) -> u16
    requires { at + 2 ≤ length bytes.now }
    ensures { result ≡ little_2 bytes.now at }
{
    u16::from(bytes[at]) + u16::from(bytes[at + 1]) * 256
}

/// Four bytes, the most significant first.
pub(crate) fn high_first_4(bytes: &[u8], at: usize) -> u32
    requires { at + 4 ≤ length bytes.now }
    ensures { result ≡ big_4 bytes.now at }
{
    u32::from(high_first_2(bytes, at)) * 65536 + u32::from(high_first_2(bytes, at + 2))
}

/// Four bytes, the least significant first.
fn low_first_4(bytes: &[u8], at: usize) -> u32
    requires { at + 4 ≤ length bytes.now }
    ensures { result ≡ little_4 bytes.now at }
{
    u32::from(low_first_2(bytes, at)) + u32::from(low_first_2(bytes, at + 2)) * 65536
}

/// Two bytes in an order.
pub(crate) fn two_at(order: Order, bytes: &[u8], at: usize) -> u16
    requires { at + 2 ≤ length bytes.now }
    ensures { result ≡ two order bytes.now at }
{
    match order {
        Order::Big => high_first_2(bytes, at),
        Order::Little => low_first_2(bytes, at),
    }
}

/// Four bytes in an order.
pub(crate) fn four_at(order: Order, bytes: &[u8], at: usize) -> u32
    requires { at + 4 ≤ length bytes.now }
    ensures { result ≡ four order bytes.now at }
{
    match order {
        Order::Big => high_first_4(bytes, at),
        Order::Little => low_first_4(bytes, at),
    }
}

/// A number of eight bytes, from its halves.
pub(crate) fn joined_8(high: u32, low: u32) -> u64
    ensures { result ≡ high * 2 ^ 32 + low }
{
    u64::from(high) * 4_294_967_296 + u64::from(low)
}

/// Eight bytes in an order.
pub(crate) fn eight_at(order: Order, bytes: &[u8], at: usize) -> u64
    requires { at + 8 ≤ length bytes.now }
    ensures { result ≡ spec.eight order bytes.now at }
{
    let first = four_at(order, bytes, at);
    let second = four_at(order, bytes, at + 4);
    match order {
        Order::Big => joined_8(first, second),
        Order::Little => joined_8(second, first),
    }
}
