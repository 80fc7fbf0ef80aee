//! What a detector looks for.

ghost use Rattle.std.specs.Prelude.{◌≡◌};
ghost use Rattle.dfr_detect.specs.Fitting as spec;

use thiserror::Error;

/// What is compared with a level in mHz, or in mHz a second.
#[derive(Clone, Copy, Debug, PartialEq, Eq)]
pub enum FrequencyIs {
    /// The frequency is at least the level.
    Over,
    /// It is at most the level.
    Under,
    /// It rises or falls by at least the level in a second.
    Changing,
}

/// A test of a signal's frequency.
#[derive(Clone, Copy, Debug, PartialEq, Eq)]
pub struct FrequencyTest {
    /// What is compared with the level.
    pub test: FrequencyIs,
    /// Over how many cycles the frequency is taken, 1 to 64. A change is that from these cycles
    /// to as many before.
    pub cycles: u32,
    /// Scans a second, 1 to 1,000,000.
    pub rate: u32,
    /// How far below 0 a half wave has to go for the crossing after it to count, in samples. At 1
    /// each crossing counts; a larger one leaves out the noise of a dead line.
    pub least: u64,
}

/// A test of a harmonic: a wave with so many periods in the window.
#[derive(Clone, Copy, Debug, PartialEq, Eq)]
pub struct HarmonicTest {
    /// How many periods, 2 to 5.
    pub order: u32,
    /// The least rms value of the wave with one period, in samples.
    pub least: u64,
}

/// A sequence of three phases A, B and C.
#[derive(Clone, Copy, Debug, PartialEq, Eq)]
pub enum Sequence {
    /// B follows A by a third of a period, and C follows B.
    Positive,
    /// B follows C.
    Negative,
    /// The phases are equal.
    Zero,
}

/// A test of waves with one period in the window.
#[derive(Clone, Copy, Debug, PartialEq, Eq)]
pub enum WaveTest {
    /// The harmonic is at least so many thousandths of the wave.
    Harmonic(HarmonicTest),
    /// The rms value of the sequence is at least the level.
    SequenceOver(Sequence),
    /// It is at most the level.
    SequenceUnder(Sequence),
    /// The negative sequence is at least so many thousandths of the positive one, which has at
    /// least this rms value, in samples.
    Unbalance(u64),
}

/// What a detector compares with its level. `scans` is that of its settings.
#[derive(Clone, Copy, Debug, PartialEq, Eq)]
pub enum Condition {
    /// The rms value over the last `scans` scans is at least the level.
    RmsOver,
    /// It is at most the level.
    RmsUnder,
    /// The sample differs from the one `scans` scans before by at least the level.
    Change,
    /// This change differs from the change over the `scans` scans before it by at least the level.
    /// A steady wave has no such jump if `scans` is a period, and almost none near it.
    Jump,
    /// The frequency, or its rate of change, meets the level, if the cycles that are looked at lie
    /// in the last `scans` scans.
    Frequency(FrequencyTest),
    /// The waves with one period in the last `scans` scans, 12 to 4096, meet the level. Sequences
    /// are those of three channels, in the order of their phases.
    Waves(WaveTest),
}

/// The settings of a detector. Levels are in raw samples, those of a frequency in mHz, and shares
/// in thousandths.
#[derive(Clone, Copy, Debug, PartialEq, Eq)]
pub struct Settings {
    /// What is compared with the level.
    pub condition: Condition,
    /// How many scans it is taken over, as a rule those of a period. Of a frequency: those in which
    /// the cycles and the crossing before them have to lie, twice the cycles for its rate of change.
    /// Where they don't, as the frequency is too low, the bit is 0.
    pub scans: u32,
    /// The level at which the bit becomes 1.
    pub level: u64,
    /// The level at which it stays 1. Without hysteresis it is `level`.
    pub reset: u64,
    /// For how many scans in a row the level has to be met.
    pub row: u32,
}

/// Why settings are refused, in the order of the tests.
#[derive(Clone, Copy, Debug, PartialEq, Eq, Error)]
pub enum SettingsFault {
    /// There is no scan to look at, or too many.
    #[error("a detector looks at 1 to 65536 scans")]
    Scans,
    /// A frequency is taken over no cycle, or over too many.
    #[error("a frequency is taken over 1 to 64 cycles")]
    Cycles,
    /// The rate is 0 or too large.
    #[error("the rate is 1 to 1000000 scans a second")]
    Rate,
    /// A period has too few scans, or too many.
    #[error("the period of a wave has 12 to 4096 scans")]
    Period,
    /// There is no such harmonic.
    #[error("the order of a harmonic is 2 to 5")]
    Order,
    /// The least half wave or rms value is 0 or too large.
    #[error("the least half wave or rms value is 1 to 1099511627776 samples")]
    Least,
    /// The level is 0 or too large.
    #[error("the level is 1 to 1099511627776, of a rate of change 1 to 2147483648, of a share 1 to 1000")]
    Level,
    /// The reset level lies on the wrong side of the level, is 0 or too large.
    #[error("the reset level lies below the level, or above it for `under`")]
    Reset,
    /// The cycles of a frequency don't lie in the scans.
    #[error("the cycles of the frequency at its levels take more scans than it looks at")]
    Short,
    /// It has to be met for no scan.
    #[error("a level is met for at least 1 scan")]
    Row,
}

/// Whether a level lies in 1 to this.
pub(crate) fn is_level(most: u64, level: u64) -> bool
    ensures { result ≡ spec.is_level most level }
{
    1 <= level && level <= most
}

/// The largest level that fits a sum of samples, and a frequency.
pub(crate) const MOST: u64 = 1 << 40;

impl FrequencyTest {
    ghost use Rattle.std.specs.Prelude.{◌≡◌};
    ghost use Rattle.dfr_detect.specs.Fitting.{most_of, lies_in, test_fault};

    /// The largest level.
    fn most(&self) -> u64
        ensures { result ≡ most_of self.now.test }
    {
        match self.test {
            FrequencyIs::Over | FrequencyIs::Under => MOST,
            FrequencyIs::Changing => 1 << 31,
        }
    }

    /// Whether the cycles lie in so many scans if the frequency is the level. Those of a rate of
    /// change may be as short as two scans.
    fn lies_in(&self, scans: u32, level: u64) -> bool
        ensures { result ≡ lies_in self.now.test self.now scans level }
    {
        match self.test {
            FrequencyIs::Over | FrequencyIs::Under => {
                1000 * u128::from(self.rate) * u128::from(self.cycles)
                    <= u128::from(scans) * u128::from(level)
            }
            FrequencyIs::Changing => 4 * u64::from(self.cycles) <= u64::from(scans),
        }
    }

    /// The first fault, if there is one.
    fn fault(&self) -> Option<SettingsFault>
        ensures { result ≡ test_fault self.now }
    {
        if self.cycles < 1 || self.cycles > 64 {
            return Some(SettingsFault::Cycles);
        }
        if self.rate < 1 || self.rate > 1_000_000 {
            return Some(SettingsFault::Rate);
        }
        if !is_level(MOST, self.least) {
            return Some(SettingsFault::Least);
        }
        None
    }
}

impl Settings {
    ghost use Rattle.std.specs.Prelude.{◌≡◌};
    ghost use Rattle.dfr_detect.specs.Fitting.{most_level, is_under, has_reset, has_cycles, condition_fault, settings_fault};

    /// The largest level.
    fn most(&self) -> u64
        ensures { result ≡ most_level self.now.condition }
    {
        match self.condition {
            Condition::Frequency(test) => test.most(),
            Condition::Waves(test) => test.most(),
            _ => MOST,
        }
    }

    /// Whether the level is to be fallen below.
    fn is_under(&self) -> bool
        ensures { result ≡ is_under self.now.condition }
    {
        match self.condition {
            Condition::RmsUnder => true,
            Condition::Frequency(test) => test.test == FrequencyIs::Under,
            Condition::Waves(test) => test.is_under(),
            Condition::RmsOver | Condition::Change | Condition::Jump => false,
        }
    }

    /// Whether the reset level lies on the right side of the level.
    fn has_reset(&self) -> bool
        ensures { result ≡ has_reset self.now.condition self.now.level self.now.reset }
    {
        if self.is_under() {
            self.level <= self.reset
        } else {
            self.reset <= self.level
        }
    }

    /// Whether the cycles of a frequency lie in the scans, at both levels.
    fn has_cycles(&self) -> bool
        ensures { result ≡ has_cycles self.now.condition self.now.scans self.now.level self.now.reset }
    {
        match self.condition {
            Condition::Frequency(test) => {
                test.lies_in(self.scans, self.level) && test.lies_in(self.scans, self.reset)
            }
            _ => true,
        }
    }

    /// The first fault of the condition.
    fn condition_fault(&self) -> Option<SettingsFault>
        ensures { result ≡ condition_fault self.now.condition self.now.scans }
    {
        match self.condition {
            Condition::Frequency(test) => test.fault(),
            Condition::Waves(test) => test.fault(self.scans),
            _ => None,
        }
    }

    /// The first fault, if there is one.
    pub fn fault(&self) -> Option<SettingsFault>
        ensures { result ≡ settings_fault self.now }
    {
        if self.scans < 1 || self.scans > 65_536 {
            return Some(SettingsFault::Scans);
        }
        if let Some(fault) = self.condition_fault() {
            return Some(fault);
        }
        let most = self.most();
        if !is_level(most, self.level) {
            return Some(SettingsFault::Level);
        }
        if !is_level(most, self.reset) || !self.has_reset() {
            return Some(SettingsFault::Reset);
        }
        if !self.has_cycles() {
            return Some(SettingsFault::Short);
        }
        if self.row < 1 {
            return Some(SettingsFault::Row);
        }
        None
    }
}
