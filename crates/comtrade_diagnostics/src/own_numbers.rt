//! Single samples of a data file, as they stand there.

ghost use Rattle.std.specs.Prelude.{◌≤◌};

use crate::untold::Sample;
use comtrade_dialects::Samples;
use comtrade_values::integer_of;

/// A sample, and whether it is spelled with a point or an exponent.
#[derive(Clone, Copy, Debug, PartialEq, Eq)]
pub(crate) struct Found {
    pub(crate) sample: Sample,
    pub(crate) is_pointed: bool,
}

impl Found {
    fn plain(sample: Sample) -> Found {
        Found {
            sample,
            is_pointed: false,
        }
    }

    /// Whether its channel may have to be written in another scale.
    pub(crate) fn is_unfit(self) -> bool {
        self.is_pointed || self.sample == Sample::Beyond
    }
}

/// The greatest sample of BINARY data; the least is the same below 0.
const MOST_SHORT: i32 = 32_767;

/// The greatest sample of 32 bits; the least is the same below 0.
const MOST_LONG: i32 = 2_147_483_647;

/// A whole number, or one beyond the bounds.
fn within(number: i32, least: i32, most: i32) -> Sample {
    if least <= number && number <= most {
        Sample::Whole(number)
    } else {
        Sample::Beyond
    }
}

/// A sample of BINARY data.
pub(crate) fn short_of(bits: u16) -> Found {
    let number = i32::from(bits.cast_signed());
    Found::plain(if number < -MOST_SHORT {
        Sample::Absent
    } else {
        Sample::Whole(number)
    })
}

/// A sample of BINARY32 data.
pub(crate) fn long_of(bits: u32, samples: Samples) -> Found {
    let number = bits.cast_signed();
    let most = match samples {
        Samples::Written => MOST_SHORT,
        Samples::Shown => MOST_LONG,
    };
    Found::plain(if number == i32::MIN {
        Sample::Absent
    } else {
        within(number, -most, most)
    })
}

/// A finite float of 1 or more and below 32,768, by its bits: a whole number, or one that no file of
/// 1999 can hold as it is.
fn whole_of(bits: u32, exponent: u32) -> Sample
    requires least { 127 ≤ exponent }
    requires most { exponent ≤ 141 }
{
    let fraction = (bits & 0x7f_ffff) | 0x80_0000;
    // how many bits of the fraction are below 1: 23 at exponent 127, which is 1
    let below = 150 - exponent;
    let size = fraction >> below;
    if size << below != fraction {
        return Sample::Beyond;
    }
    // 24 bits of a fraction leave at most 15
    let size = (size & 0x7fff) as i32;
    Sample::Whole(if bits >> 31 == 1 { -size } else { size })
}

/// The bits of the float 3.4E38, from which on floats are marks of missing samples.
const MARK: u32 = 0x7f7f_c99e;

/// A sample of FLOAT32 data, by its bits. Infinities, what is no number, and magnitudes from 3.4E38
/// on are absent.
pub(crate) fn float_of(bits: u32) -> Found {
    let exponent = (bits >> 23) & 0xff;
    Found::plain(if MARK <= bits & 0x7fff_ffff {
        Sample::Absent
    } else if 127 <= exponent && exponent <= 141 {
        whole_of(bits, exponent)
    } else if bits & 0x7fff_ffff == 0 {
        Sample::Whole(0)
    } else {
        Sample::Beyond
    })
}

/// The greatest sample of ASCII data and one more; the least is the same below 0.
const MOST_TEXT: i32 = 99_999;

/// The mark of a missing sample in ASCII data.
const MISSING: i128 = 99_999;

/// Whether a text has a digit, and only what numbers are spelled with.
fn is_numeric(text: &[u8]) -> bool {
    text.iter().any(|b| b.is_ascii_digit())
        && text
            .iter()
            .all(|b| b.is_ascii_digit() || b"+-.,eEdD".contains(b))
}

/// A number in ASCII data as a sample.
fn number_of(number: i128, samples: Samples) -> Sample {
    let (least, most) = match samples {
        Samples::Written => (-MOST_TEXT, MOST_TEXT - 1),
        Samples::Shown => (-MOST_LONG, MOST_LONG),
    };
    match i32::try_from(number) {
        Ok(number) => within(number, least, most),
        Err(_) => Sample::Beyond,
    }
}

/// A sample of ASCII data. `has_nines`: 99,999 is a sample.
pub(crate) fn text_of(text: &[u8], has_nines: bool, samples: Samples) -> Found {
    match integer_of(text) {
        Some(MISSING) if !has_nines => Found::plain(Sample::Absent),
        Some(number) => Found::plain(number_of(number, samples)),
        None if is_numeric(text) => Found {
            sample: Sample::Beyond,
            is_pointed: true,
        },
        None => Found::plain(Sample::Absent),
    }
}
