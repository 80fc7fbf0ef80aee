//! How the streams of a bay are followed.

ghost use Rattle.std.specs.Prelude.{◌≡◌};
ghost use Rattle.dfr_bay.specs.Settings as spec;

use thiserror::Error;

/// How the streams of a bay are followed. All but the rate are numbers of samples or of frames.
#[derive(Clone, Copy, Debug, PartialEq, Eq)]
pub struct Settings {
    /// The samples per second. The sample count (smpCnt) goes from 0 to the rate less 1.
    pub rate: u32,
    /// A frame up to so many samples before the one that is due is late.
    pub late: u32,
    /// At most so many samples may be missing before a frame. Else the frame is astray.
    pub reach: u32,
    /// After so many frames astray in a row, the last of them begins anew.
    pub confirm: u32,
    /// A scan waits for a stream until another is so many samples ahead of it.
    pub limit: u32,
}

/// Why settings are refused, in the order of the tests.
#[derive(Clone, Copy, Debug, PartialEq, Eq, Error)]
pub enum SettingsFault {
    /// The sample count has two bytes.
    #[error("the rate is 2 to 65536 samples per second")]
    Rate,
    /// A repeated frame is late; not every frame is.
    #[error("late is 1 sample or more, and fewer than a second has")]
    Late,
    /// No scan could be waited for.
    #[error("the limit is 1 to 65536 samples")]
    Limit,
    /// A stream that is within the limit would be astray.
    #[error("the reach is at least the limit")]
    Reach,
    /// No frame astray would begin anew.
    #[error("a stream is confirmed by 1 frame or more")]
    Confirm,
}

impl Settings {
    ghost use Rattle.std.specs.Prelude.{◌≡◌};
    ghost use Rattle.dfr_bay.specs.Settings.{settings_fault};

    /// The first fault, if there is one.
    pub fn fault(&self) -> Option<SettingsFault>
        ensures { result ≡ settings_fault self.now }
    {
        if self.rate < 2 || self.rate > 65536 {
            return Some(SettingsFault::Rate);
        }
        if self.late < 1 || self.late >= self.rate {
            return Some(SettingsFault::Late);
        }
        if self.limit < 1 || self.limit > 65536 {
            return Some(SettingsFault::Limit);
        }
        if self.reach < self.limit {
            return Some(SettingsFault::Reach);
        }
        if self.confirm < 1 {
            return Some(SettingsFault::Confirm);
        }
        None
    }
}
