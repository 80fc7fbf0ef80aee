//! What becomes of a frame.

ghost use Rattle.std.specs.Prelude.{◌≡◌, ◌≤◌, ◌<◌, ◌+◌, ◌^◌, true};
ghost use Rattle.dfr_bay.specs.Arrivals as spec;
ghost use Rattle.dfr_bay.specs.Settings.{Fits};

use crate::settings::Settings;

/// What becomes of a frame.
#[derive(Clone, Copy, Debug, PartialEq, Eq)]
pub enum Arrival {
    /// Its sample is taken; so many before it are lost.
    Taken(u32),
    /// The stream began anew: its sample is taken; so many before it are lost, and perhaps whole
    /// seconds more.
    Restarted(u32),
    /// The newest sample once more.
    Repeated,
    /// A sample before the one that is due: out of order, or repeated late.
    Late,
    /// Out of reach of what is due.
    Astray,
    /// The sample count is not below the rate.
    Invalid,
}

impl Arrival {
    ghost use Rattle.std.specs.Prelude.{◌≡◌};
    ghost use Rattle.dfr_bay.specs.Arrivals.{lost_before, is_taken};

    /// How many samples are lost before that of the frame, if it is taken; else 0.
    pub fn lost(self) -> u32
        ensures { result ≡ lost_before self }
    {
        match self {
            Arrival::Taken(lost) | Arrival::Restarted(lost) => lost,
            Arrival::Repeated | Arrival::Late | Arrival::Astray | Arrival::Invalid => 0,
        }
    }

    /// Whether the sample of the frame is taken.
    pub fn is_taken(self) -> bool
        ensures { result ≡ is_taken self }
    {
        matches!(self, Arrival::Taken(_) | Arrival::Restarted(_))
    }
}

/// How many samples are missing from the count that is due.
pub(crate) fn missing_from(rate: u32, due: u32, count: u32) -> u32
    requires due { due < rate }
    requires count { count < rate }
    requires rate { rate ≤ 65_536 }
    ensures value { result ≡ spec.missing_from rate due count }
    ensures bound { result < rate }
{
    (count + (rate - due)) % rate
}

/// What becomes of a frame with so many samples missing before it.
pub(crate) fn by_missing(settings: &Settings, is_newest: bool, strays: u32, missing: u32) -> Arrival
    requires fits { Fits settings.now }
    requires missing { missing < settings.now.rate }
    ensures value { result ≡ spec.by_missing settings.now is_newest strays missing }
    ensures few { spec.is_astray result ≡ true → strays + 1 < 2 ^ 32 }
    ensures short { spec.lost_before result < 65_536 }
{
    if missing >= settings.rate - settings.late {
        if is_newest {
            Arrival::Repeated
        } else {
            Arrival::Late
        }
    } else if missing <= settings.reach {
        Arrival::Taken(missing)
    } else if strays >= settings.confirm - 1 {
        Arrival::Restarted(missing)
    } else {
        Arrival::Astray
    }
}
