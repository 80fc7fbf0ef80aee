//! What a detector of a set-up tests.

ghost use Rattle.std.specs.Prelude.{◌≡◌};
ghost use Rattle.dfr_setup.specs.Tests as spec;

use dfr_detect::{Condition, FrequencyIs, FrequencyTest, HarmonicTest, Sequence, WaveTest};

/// What a `detect` line compares with its level.
#[derive(Clone, Copy, Debug, PartialEq, Eq)]
pub enum Test {
    /// The rms value is at least the level.
    RmsOver,
    /// It is at most the level.
    RmsUnder,
    /// The change over the window is at least the level.
    Change,
    /// This change differs from that over the window before by at least the level.
    Jump,
    /// The frequency is at least the level, in Hz.
    FrequencyOver,
    /// It is at most the level.
    FrequencyUnder,
    /// It rises or falls by at least the level, in Hz a second.
    FrequencyChange,
    /// The harmonic of this order is at least a share of the wave, in percent.
    Harmonic(u32),
    /// The rms value of a sequence of three phases is at least the level.
    SequenceOver(Sequence),
    /// It is at most the level.
    SequenceUnder(Sequence),
    /// The negative sequence is at least a share of the positive one, in percent.
    Unbalance,
}

/// Whether the level is one of a frequency.
pub(crate) fn is_frequency(test: Test) -> bool
    ensures { result ≡ spec.is_frequency test }
{
    match test {
        Test::FrequencyOver | Test::FrequencyUnder | Test::FrequencyChange => true,
        _ => false,
    }
}

/// Whether the level is a share, in percent.
pub(crate) fn is_share(test: Test) -> bool
    ensures { result ≡ spec.is_share test }
{
    match test {
        Test::Harmonic(_) | Test::Unbalance => true,
        _ => false,
    }
}

/// Whether the test is one of three phases.
pub(crate) fn has_phases(test: Test) -> bool
    ensures { result ≡ spec.has_phases test }
{
    match test {
        Test::SequenceOver(_) | Test::SequenceUnder(_) | Test::Unbalance => true,
        _ => false,
    }
}

/// A test of the frequency over so many cycles.
fn frequency(test: FrequencyIs, cycles: u32, rate: u32, least: u64) -> Condition
    ensures { result ≡ spec.frequency test cycles rate least }
{
    Condition::Frequency(FrequencyTest {
        test,
        cycles,
        rate,
        least,
    })
}

/// The condition of a detector. A frequency is taken over so many cycles, at so many scans a second,
/// after half waves that are at least so deep; a share of a wave whose rms value is at least so large.
pub(crate) fn condition_of(test: Test, cycles: u32, rate: u32, least: u64) -> Condition
    ensures { result ≡ spec.condition_of test cycles rate least }
{
    match test {
        Test::RmsOver => Condition::RmsOver,
        Test::RmsUnder => Condition::RmsUnder,
        Test::Change => Condition::Change,
        Test::Jump => Condition::Jump,
        Test::FrequencyOver => frequency(FrequencyIs::Over, cycles, rate, least),
        Test::FrequencyUnder => frequency(FrequencyIs::Under, cycles, rate, least),
        Test::FrequencyChange => frequency(FrequencyIs::Changing, cycles, rate, least),
        Test::Harmonic(order) => Condition::Waves(WaveTest::Harmonic(HarmonicTest {
            order,
            least,
        })),
        Test::SequenceOver(sequence) => Condition::Waves(WaveTest::SequenceOver(sequence)),
        Test::SequenceUnder(sequence) => Condition::Waves(WaveTest::SequenceUnder(sequence)),
        Test::Unbalance => Condition::Waves(WaveTest::Unbalance(least)),
    }
}
