//! What a scan gives a detector: the sum of the samples of some channels, or those of three phases.

ghost use Rattle.std.specs.Prelude.{◌≡◌, ◌≤◌, ◌^◌, IfSome, length, slice_get, unsigned_abs};
ghost use Rattle.dfr_channels.specs.Scans.{sample_in};
ghost use Rattle.dfr_detect.specs.Signals as spec;
ghost use Rattle.dfr_detect.specs.Sums.{AreSmall};

use crate::{Condition, Sample};
use dfr_channels::Reading;

/// The sample of a channel, if there is one.
fn sample_in(readings: &[Reading], channel: usize) -> Option<i64>
    ensures value { result ≡ sample_in (slice_get readings.now channel) }
    ensures bound { IfSome result (λ x. unsigned_abs x ≤ 2 ^ 31) }
{
    match readings.get(channel) {
        Some(Reading::Value(x)) => Some(i64::from(*x)),
        Some(Reading::Missing) => None,
        None => None,
    }
}

/// The sum of the samples of these channels, if each of them has one.
fn sum_of(channels: &[usize], readings: &[Reading]) -> Option<i64>
    requires { length channels.now ≤ 256 }
    ensures value { result ≡ spec.sum_of channels.now readings.now }
    ensures bound { IfSome result (λ x. unsigned_abs x ≤ 2 ^ 39) }
{
    let mut sum = 0;
    for channel in channels {
        match sample_in(readings, *channel) {
            Some(x) => sum += x,
            None => return None,
        }
    }
    Some(sum)
}

/// The sample of the channel at this place of the list, if there is one.
fn phase(channels: &[usize], readings: &[Reading], place: usize) -> Option<i64>
    ensures value { result ≡ spec.phase channels.now readings.now place }
    ensures bound { IfSome result (λ x. unsigned_abs x ≤ 2 ^ 31) }
{
    match channels.get(place) {
        Some(channel) => sample_in(readings, *channel),
        None => None,
    }
}

/// The samples of the first three channels, if each of them has one.
fn phases(channels: &[usize], readings: &[Reading]) -> Option<Sample>
    ensures value { result ≡ spec.three (spec.phase channels.now readings.now 0) (spec.phase channels.now readings.now 1) (spec.phase channels.now readings.now 2) }
    ensures bound { IfSome result (λ x. AreSmall x) }
{
    let a = phase(channels, readings, 0)?;
    let b = phase(channels, readings, 1)?;
    let c = phase(channels, readings, 2)?;
    Some(Sample { a, b, c })
}

/// What a scan gives.
#[inline(always)]
pub(crate) fn sample_of(
    condition: Condition,
    channels: &[usize],
    readings: &[Reading],
) -> Option<Sample>
    requires { length channels.now ≤ 256 }
    ensures value { result ≡ spec.sample_of condition channels.now readings.now }
    ensures bound { IfSome result (λ x. AreSmall x) }
{
    if condition.has_phases() {
        return phases(channels, readings);
    }
    match sum_of(channels, readings) {
        Some(a) => Some(Sample { a, b: 0, c: 0 }),
        None => None,
    }
}
