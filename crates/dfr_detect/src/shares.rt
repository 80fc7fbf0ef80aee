//! Whether the waves of a window meet a level.

ghost use Rattle.std.specs.Prelude.{◌≡◌, ◌≤◌, ◌*◌, ◌^◌};
ghost use Rattle.dfr_detect.specs.Fitting.{least_of, most_share};
ghost use Rattle.dfr_detect.specs.Shares as spec;

use crate::turns::Shape;
use crate::waves::Waves;
use crate::{Sequence, WaveTest};
use std::alloc::Allocator;

/// A wave of one signal with so many periods in the window.
pub(crate) fn plain(order: u32) -> Shape
    ensures { result ≡ spec.shape_by order 0 0 }
{
    Shape { order, b: 0, c: 0 }
}

/// Phases B and C turned back by as much as they lag in the sequence.
fn sequence_shape(sequence: Sequence) -> Shape
    ensures { result ≡ spec.sequence_shape sequence }
{
    let (b, c) = match sequence {
        Sequence::Positive => (2, 1),
        Sequence::Negative => (1, 2),
        Sequence::Zero => (0, 0),
    };
    Shape { order: 1, b, c }
}

/// The wave that is compared with a level, or of which another one is a share.
pub(crate) fn first_shape(test: WaveTest) -> Shape
    ensures { result ≡ spec.first_shape test }
{
    match test {
        WaveTest::Harmonic(_) => plain(1),
        WaveTest::SequenceOver(sequence) | WaveTest::SequenceUnder(sequence) => {
            sequence_shape(sequence)
        }
        WaveTest::Unbalance(_) => sequence_shape(Sequence::Positive),
    }
}

/// The other wave.
pub(crate) fn other_shape(test: WaveTest) -> Shape
    ensures { result ≡ spec.other_shape test }
{
    match test {
        WaveTest::Harmonic(harmonic) => plain(harmonic.order),
        WaveTest::SequenceOver(sequence) | WaveTest::SequenceUnder(sequence) => {
            sequence_shape(sequence)
        }
        WaveTest::Unbalance(_) => sequence_shape(Sequence::Negative),
    }
}

/// Twice the power of a wave with this rms value.
#[inline(always)]
fn power_at(scans: u32, rms: u64) -> u128
    requires scans { scans ≤ 2 ^ 12 }
    requires rms { rms ≤ 3 * 2 ^ 40 }
    ensures { result ≡ scans * scans * (rms * rms) }
{
    let (scans, rms) = (u128::from(scans), u128::from(rms));
    scans * scans * (rms * rms)
}

/// Whether the other wave is at least so many thousandths of the first.
#[inline(always)]
fn is_share(level: u64, first: u128, other: u128) -> bool
    requires level { level ≤ 1000 }
    requires first { first ≤ 2 ^ 107 }
    requires other { other ≤ 2 ^ 107 }
    ensures { result ≡ spec.is_share level first other }
{
    let level = u128::from(level);
    level * level * first <= 1_000_000 * other
}

/// Whether the first wave has at least this rms value, and the other is so much of it.
#[inline(always)]
fn shares<A: Allocator>(least: u64, level: u64, waves: &Waves<A>) -> bool
    requires least { least ≤ 3 * 2 ^ 40 }
    requires level { level ≤ 1000 }
    ensures { result ≡ spec.shares least level waves.now }
{
    let first = waves.first_power();
    power_at(waves.scans() as u32, least) <= 2 * first
        && is_share(level, first, waves.other_power())
}

/// Whether the waves meet the level.
#[inline(always)]
fn compares<A: Allocator>(test: WaveTest, level: u64, waves: &Waves<A>) -> bool
    requires least { least_of test ≤ 2 ^ 40 }
    requires level { level ≤ most_share test }
    ensures { result ≡ spec.waves_compare test level waves.now }
{
    let scans = waves.scans() as u32;
    match test {
        WaveTest::Harmonic(harmonic) => shares(harmonic.least, level, waves),
        WaveTest::SequenceOver(_) => power_at(scans, 3 * level) <= 2 * waves.first_power(),
        WaveTest::SequenceUnder(_) => 2 * waves.first_power() <= power_at(scans, 3 * level),
        WaveTest::Unbalance(least) => shares(3 * least, level, waves),
    }
}

/// Whether the window is full and its waves meet the level.
#[inline(always)]
pub(crate) fn meets<A: Allocator>(test: WaveTest, level: u64, waves: &Waves<A>) -> bool
    requires least { least_of test ≤ 2 ^ 40 }
    requires level { level ≤ most_share test }
    ensures { result ≡ spec.meets_waves test level waves.now }
{
    waves.is_full() && compares(test, level, waves)
}
