//! The course of time: which instant a place in the scans has.

ghost use Rattle.std.specs.Prelude.{◌≡◌, ◌+◌, ◌*◌, ◌-◌, ◌≤◌, ◌^◌};
ghost use Rattle.dfr_clock.specs.Courses as spec;

/// A part of the course of time. A place is the time from scan 0 by the rate alone. Times are in
/// microseconds.
#[derive(Clone, Copy, Debug, PartialEq, Eq)]
pub struct Course {
    /// The place at which the part begins.
    pub at: u128,
    /// The instant of that place, since 1970-01-01 00:00:00 UTC.
    pub from: u128,
    /// The instant of the place a window later. From there on time runs as the scans do.
    pub to: u128,
    /// The place at which the clock was set last.
    pub era: u128,
    /// The place at which following began anew last.
    pub run: u128,
    /// Whether the converter told the time.
    pub is_told: bool,
}

/// The place of scan k.
pub(crate) fn place(rate: u32, k: u128) -> u128
    requires rate { 1 ≤ rate }
    requires scans { k ≤ 2 ^ 66 }
    ensures value { result ≡ spec.place rate k }
    ensures bound { result ≤ 2 ^ 86 }
{
    k * 1_000_000 / u128::from(rate)
}

/// How long after the one instant the other is; 0 if it isn't after it.
pub(crate) fn since(earlier: u128, later: u128) -> u128
    ensures { result ≡ later - earlier }
{
    if later < earlier { 0 } else { later - earlier }
}

impl Course {
    ghost use Rattle.std.specs.Prelude.{◌≡◌, ◌+◌, ◌*◌, ◌-◌, ◌≤◌, ◌^◌};
    ghost use Rattle.dfr_clock.specs.Courses.{instant_on, IsCourse};

    /// The instant of a place.
    pub(crate) fn instant(&self, window: u32, place: u128) -> u128
        requires some { 1 ≤ window }
        requires few { window ≤ 2 ^ 30 }
        requires course { IsCourse window self.now }
        requires near { place ≤ 2 ^ 86 }
        ensures value { result ≡ instant_on window self.now place }
        ensures bound { result ≤ self.now.from + 2 * (place - self.now.at) }
    {
        let window = u128::from(window);
        let gone = since(self.at, place);
        if gone < window {
            self.from + gone * (self.to - self.from) / window
        } else {
            self.to + (gone - window)
        }
    }
}
