//! When a packet of a block came.

ghost use Rattle.std.specs.Prelude.{◌≡◌, ◌+◌, ◌-◌, ◌*◌, ◌/◌, ◌<◌, ◌≤◌, ◌^◌, IfSome};
ghost use Rattle.dfr_pcap.specs.Moments as spec;

use crate::flaw::Flaw;

/// Nanoseconds in a second.
const SECOND: u128 = 1_000_000_000;

/// What an interface says of the times of its packets.
#[derive(Clone, Copy)]
pub struct Interface {
    /// How many ticks a second has: 10 to this power; from 128 on, 2 to this power less 128.
    pub resolution: u8,
    /// The seconds to be added. From 2^63 on it is less by 2^64.
    pub offset: u64,
}

/// When a packet came.
#[derive(Clone, Copy)]
pub struct Moment {
    /// Seconds since 1970.
    pub seconds: u32,
    /// The nanoseconds after them.
    pub nanoseconds: u32,
}

/// A power, if it is below 2^64.
#[tactic(auto, using(crate::proofs::Moments::fitting_is, crate::proofs::Moments::power_some))]
fn power_of(base: u64, exponent: u32) -> Option<u64>
    requires { 0 < base }
    ensures value { result ≡ spec.fitting (base ^ exponent) }
    ensures positive { IfSome result (λ power. 0 < power) }
{
    base.checked_pow(exponent)
}

/// How many ticks a second has, if that is below 2^64.
fn ticks_of(resolution: u8) -> Option<u64>
    ensures value { result ≡ spec.ticks_of resolution }
    ensures positive { IfSome result (λ ticks. 0 < ticks) }
{
    if resolution < 128 {
        power_of(10, u32::from(resolution))
    } else {
        power_of(2, u32::from(resolution - 128))
    }
}

/// The whole nanoseconds of so many ticks.
#[tactic(auto, using(crate::proofs::Moments::quotient_small))]
fn whole(stamp: u64, ticks: u64) -> u128
    requires { 0 < ticks }
    ensures value { result ≡ stamp * 1_000_000_000 / ticks }
    ensures bound { result < 2 ^ 94 }
{
    u128::from(stamp) * SECOND / u128::from(ticks)
}

/// Nanoseconds since 1970, where they are counted from so many seconds after it, or before.
#[tactic(auto, unfolding(crate::specs::Moments::moved))]
fn moved(nanoseconds: u128, offset: u64) -> Option<u128>
    requires { nanoseconds < 2 ^ 94 }
    ensures value { result ≡ spec.moved nanoseconds offset }
{
    if offset < 9_223_372_036_854_775_808 {
        return Some(nanoseconds + u128::from(offset) * SECOND);
    }
    let back = (18_446_744_073_709_551_616 - u128::from(offset)) * SECOND;
    if nanoseconds < back {
        None
    } else {
        Some(nanoseconds - back)
    }
}

/// The moment so many nanoseconds after 1970 began.
#[tactic(auto, unfolding(crate::specs::Moments::split))]
fn split(nanoseconds: u128) -> Result<Moment, Flaw>
    ensures { result ≡ spec.split nanoseconds }
{
    let seconds = nanoseconds / SECOND;
    if seconds >= 4_294_967_296 {
        return Err(Flaw::Time);
    }
    Ok(Moment {
        seconds: seconds as u32,
        nanoseconds: (nanoseconds % SECOND) as u32,
    })
}

/// When a packet with this time came.
#[tactic(auto, unfolding(crate::specs::Moments::moment_of))]
pub(crate) fn moment_of(interface: &Interface, stamp: u64) -> Result<Moment, Flaw>
    ensures { result ≡ spec.moment_of interface.now stamp }
{
    let Some(ticks) = ticks_of(interface.resolution) else {
        return Err(Flaw::Resolution);
    };
    match moved(whole(stamp, ticks), interface.offset) {
        Some(nanoseconds) => split(nanoseconds),
        None => Err(Flaw::Time),
    }
}
