//! The sample counts of a stream.

ghost use Rattle.std.specs.Prelude.{◌≡◌, ◌<◌, ◌*◌, ◌^◌, max};

use crate::counter::{up, up_wide};

/// What a sample count is after those before it.
#[derive(Clone, Copy, Debug, PartialEq, Eq)]
pub enum Step {
    /// The newest once more.
    Repeated,
    /// One before the newest: out of order.
    Late,
    /// One after the newest in the same second, with so many lost between them.
    Ahead(u16),
    /// One of a new second.
    Anew,
}

/// The sample counts of a stream, in the order of the capture.
#[derive(Clone, Copy, Debug, PartialEq, Eq)]
pub struct Track {
    pub(crate) newest: u16,
    pub(crate) high: u16,
    pub(crate) tops: u64,
    pub(crate) lost: u64,
    pub(crate) repeated: u64,
    pub(crate) late: u64,
}

/// The larger of two counts.
fn larger(a: u16, b: u16) -> u16
    ensures value { result ≡ max a b }
{
    if a < b { b } else { a }
}

/// So many samples more of each of so many seconds.
fn of_seconds(seconds: u64, samples: u16) -> u128
    ensures value { result ≡ seconds * samples }
    ensures bound { result < 2 ^ 80 }
{
    u128::from(seconds) * u128::from(samples)
}

impl Track {
    ghost use Rattle.std.specs.Prelude.{◌≡◌};
    ghost use Rattle.dfr_look.specs.Tracks.{beginning, is_late, step, after, ahead, anew};

    /// A stream with one sample count.
    pub fn new(count: u16) -> Track
        ensures { result ≡ beginning count }
    {
        Track {
            newest: count,
            high: count,
            tops: 0,
            lost: 0,
            repeated: 0,
            late: 0,
        }
    }

    /// Whether a count is late.
    fn is_late(&self, count: u16) -> bool
        ensures { result ≡ is_late self.now count }
    {
        let newest = u32::from(self.newest);
        let high = u32::from(self.high);
        let count = u32::from(count);
        if count < newest {
            return newest - count <= 64;
        }
        self.tops > 0 && newest < count && count <= high && newest + (high + 1 - count) <= 64
    }

    /// What the next count is.
    fn step(&self, count: u16) -> Step
        ensures { result ≡ step self.now count }
    {
        if count == self.newest {
            Step::Repeated
        } else if self.is_late(count) {
            Step::Late
        } else if self.newest < count {
            Step::Ahead(count - self.newest - 1)
        } else {
            Step::Anew
        }
    }

    /// The same after one more in the second of the newest, with so many lost between them.
    fn ahead(self, count: u16, lost: u16) -> Track
        ensures { result ≡ ahead lost count self }
    {
        let high = larger(self.high, count);
        let more = u128::from(lost) + of_seconds(self.tops, high - self.high);
        Track {
            newest: count,
            high,
            lost: up_wide(self.lost, more),
            ..self
        }
    }

    /// The same after one of a new second.
    fn anew(self, count: u16) -> Track
        ensures { result ≡ anew count self }
    {
        let end = self.high.saturating_sub(self.newest);
        let more = u64::from(end) + u64::from(count);
        Track {
            newest: count,
            tops: up(self.tops, 1),
            lost: up(self.lost, more),
            ..self
        }
    }

    /// The same after one more sample count.
    pub fn after(self, count: u16) -> Track
        ensures { result ≡ after self count }
    {
        match self.step(count) {
            Step::Repeated => Track {
                repeated: up(self.repeated, 1),
                ..self
            },
            Step::Late => Track {
                late: up(self.late, 1),
                ..self
            },
            Step::Ahead(lost) => self.ahead(count, lost),
            Step::Anew => self.anew(count),
        }
    }

    /// The highest sample count. It is the rate less 1 where whole seconds came.
    pub fn high(&self) -> u16
        ensures { result ≡ self.now.high }
    {
        self.high
    }

    /// How many times the count began anew.
    pub fn tops(&self) -> u64
        ensures { result ≡ self.now.tops }
    {
        self.tops
    }

    /// How many samples are lost.
    pub fn lost(&self) -> u64
        ensures { result ≡ self.now.lost }
    {
        self.lost
    }

    /// How many came twice, one right after the other.
    pub fn repeated(&self) -> u64
        ensures { result ≡ self.now.repeated }
    {
        self.repeated
    }

    /// How many came out of order.
    pub fn late(&self) -> u64
        ensures { result ≡ self.now.late }
    {
        self.late
    }
}
