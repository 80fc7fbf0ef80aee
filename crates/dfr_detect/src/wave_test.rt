//! What a test of waves takes: orders, levels and windows.

use crate::settings::{MOST, is_level};
use crate::{Condition, SettingsFault, WaveTest};

impl WaveTest {
    ghost use Rattle.std.specs.Prelude.{◌≡◌};
    ghost use Rattle.dfr_detect.specs.Fitting.{least_of, most_share, has_order, is_low_test, wave_fault};

    /// The least rms value of the first wave.
    fn least(&self) -> u64
        ensures { result ≡ least_of self.now }
    {
        match self {
            WaveTest::Harmonic(test) => test.least,
            WaveTest::Unbalance(least) => *least,
            WaveTest::SequenceOver(_) | WaveTest::SequenceUnder(_) => 1,
        }
    }

    /// The largest level.
    pub(crate) fn most(&self) -> u64
        ensures { result ≡ most_share self.now }
    {
        match self {
            WaveTest::Harmonic(_) | WaveTest::Unbalance(_) => 1000,
            WaveTest::SequenceOver(_) | WaveTest::SequenceUnder(_) => MOST,
        }
    }

    /// Whether the level is to be fallen below.
    pub(crate) fn is_under(&self) -> bool
        ensures { result ≡ is_low_test self.now }
    {
        match self {
            WaveTest::SequenceUnder(_) => true,
            WaveTest::Harmonic(_) | WaveTest::SequenceOver(_) | WaveTest::Unbalance(_) => false,
        }
    }

    /// Whether there is such a harmonic.
    fn has_order(&self) -> bool
        ensures { result ≡ has_order self.now }
    {
        match self {
            WaveTest::Harmonic(test) => 2 <= test.order && test.order <= 5,
            WaveTest::SequenceOver(_) | WaveTest::SequenceUnder(_) | WaveTest::Unbalance(_) => true,
        }
    }

    /// The first fault over so many scans, if there is one.
    pub(crate) fn fault(&self, scans: u32) -> Option<SettingsFault>
        ensures { result ≡ wave_fault self.now scans }
    {
        if scans < 12 || scans > 4096 {
            return Some(SettingsFault::Period);
        }
        if !self.has_order() {
            return Some(SettingsFault::Order);
        }
        if !is_level(MOST, self.least()) {
            return Some(SettingsFault::Least);
        }
        None
    }
}

impl Condition {
    ghost use Rattle.std.specs.Prelude.{◌≡◌};
    ghost use Rattle.dfr_detect.specs.Signals.{has_phases};

    /// Whether three phases are looked at, and no sum.
    #[inline(always)]
    pub fn has_phases(&self) -> bool
        ensures { result ≡ has_phases self.now }
    {
        match self {
            Condition::Waves(WaveTest::Harmonic(_)) => false,
            Condition::Waves(_) => true,
            _ => false,
        }
    }
}
