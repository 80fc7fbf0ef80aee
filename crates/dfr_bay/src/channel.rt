//! A channel of the recorder: which value of which stream it is, and how it becomes a reading.

ghost use Rattle.std.specs.Prelude.{◌≡◌, ◌≤◌, ◌+◌, ◌^◌, unsigned_abs};
ghost use Rattle.dfr_bay.specs.Readings as spec;

use dfr_bus::Sample;
use thiserror::Error;

/// What becomes of a value that is out of range.
#[derive(Clone, Copy, Debug, PartialEq, Eq)]
pub enum OutOfRange {
    /// The reading is lost.
    Lost,
    /// The reading is the largest of its sign.
    Clipped,
}

/// A channel of the recorder.
#[derive(Clone, Copy, Debug, PartialEq, Eq)]
pub struct Channel {
    /// The number of its stream.
    pub stream: usize,
    /// Which value it is of a unit of the stream.
    pub index: usize,
    /// A value with one of these bits in its quality is lost.
    pub mask: u32,
    /// How many units of the value are one of the reading, at least 1.
    pub divisor: u32,
    /// What becomes of a value whose reading is not within 32767.
    pub out_of_range: OutOfRange,
}

/// Why there is no reading.
#[derive(Clone, Copy, Debug, PartialEq, Eq, Error)]
pub enum Lost {
    /// The unit of the stream did not come, or has no such value.
    #[error("there is no such value")]
    Absent,
    /// Its quality has a bit of the mask.
    #[error("the quality is bad")]
    Quality,
    /// The reading would not be within 32767.
    #[error("the value is out of range")]
    Range,
}

/// The magnitude of a reading: that of the value in other units, to the nearest, halves away from
/// zero.
fn magnitude(value: i32, divisor: u32) -> u64
    requires { 1 ≤ divisor }
    ensures { result ≡ spec.magnitude value divisor }
{
    (u64::from(value.unsigned_abs()) + u64::from(divisor / 2)) / u64::from(divisor)
}

/// A magnitude with the sign of a value.
fn signed(value: i32, magnitude: u32) -> i32
    requires { magnitude ≤ 32_767 }
    ensures { result ≡ spec.signed value magnitude }
{
    if value < 0 {
        0 - magnitude as i32
    } else {
        magnitude as i32
    }
}

impl Channel {
    ghost use Rattle.std.specs.Prelude.{◌≡◌, ◌≤◌};
    ghost use Rattle.dfr_bay.specs.Readings.{reading, reading_of};

    /// The reading of a value.
    fn reading_of(&self, sample: Sample) -> Result<i32, Lost>
        requires { 1 ≤ self.now.divisor }
        ensures { result ≡ reading_of self.now sample }
    {
        if sample.quality & self.mask != 0 {
            return Err(Lost::Quality);
        }
        let magnitude = magnitude(sample.value, self.divisor);
        if magnitude <= 32767 {
            return Ok(signed(sample.value, magnitude as u32));
        }
        match self.out_of_range {
            OutOfRange::Lost => Err(Lost::Range),
            OutOfRange::Clipped => Ok(signed(sample.value, 32767)),
        }
    }

    /// The reading of the channel, from its value, if there is one.
    pub fn reading(&self, sample: Option<Sample>) -> Result<i32, Lost>
        requires { 1 ≤ self.now.divisor }
        ensures { result ≡ reading self.now sample }
    {
        match sample {
            None => Err(Lost::Absent),
            Some(sample) => self.reading_of(sample),
        }
    }
}
