//! How the clock is followed.

ghost use Rattle.std.specs.Prelude.{◌≡◌, ◌≤◌, ◌^◌};
ghost use Rattle.dfr_clock.specs.Settings as spec;

use thiserror::Error;

/// How the clock is followed. Times are in microseconds.
#[derive(Clone, Copy, Debug, PartialEq, Eq)]
pub struct Settings {
    /// The scans per second.
    pub rate: u32,
    /// How long a window is. The course of time is a straight line within a window.
    pub window: u32,
    /// How many microseconds in a second the course may gain or lose.
    pub slew: u32,
    /// A reading shows a gap if it is later than this. No read may be so late.
    pub late: u32,
    /// A window shows a gap if all of its readings are later than this.
    pub apart: u32,
    /// The clock was set if it differs from the monotonic clock by more than this.
    pub step: u32,
    /// At most so many lost scans stand for a gap.
    pub most: u32,
}

/// Why settings are refused, in the order of the tests.
#[derive(Clone, Copy, Debug, PartialEq, Eq, Error)]
pub enum SettingsFault {
    /// There is no scan in a second, or too many.
    #[error("the rate is 1 to 1000000 scans per second")]
    Rate,
    /// The window is empty or too long.
    #[error("a window has 1 to 1073741824 microseconds")]
    Window,
    /// More than a second in a second.
    #[error("the slew is at most 1000000 microseconds in a second")]
    Slew,
}

impl Settings {
    ghost use Rattle.std.specs.Prelude.{◌≡◌, ◌≤◌, ◌^◌, None};
    ghost use Rattle.dfr_clock.specs.Settings.{settings_fault, slewed, Fits};

    /// The first fault, if there is one.
    pub fn fault(&self) -> Option<SettingsFault>
        ensures { result ≡ settings_fault self.now }
    {
        if self.rate < 1 || self.rate > 1_000_000 {
            return Some(SettingsFault::Rate);
        }
        if self.window < 1 || self.window > 1 << 30 {
            return Some(SettingsFault::Window);
        }
        if self.slew > 1_000_000 {
            return Some(SettingsFault::Slew);
        }
        None
    }

    /// How much the course may gain or lose in a window.
    pub(crate) fn slewed(&self) -> u128
        ensures { result ≡ slewed self.now }
    {
        u128::from(self.window) * u128::from(self.slew) / 1_000_000
    }
}
