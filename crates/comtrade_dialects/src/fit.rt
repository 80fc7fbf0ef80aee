//! Converts samples to whole numbers that a file of 1999 can hold, with the scale that
//! restores them.

use crate::num::{Num, exact_of, ten_to};
use crate::scale::DecimalScale;
use crate::span::{SampleSpan, WholeBounds};
use crate::steps::{Steps, exact_steps_of, long_steps_of, steps_of};
use comtrade_values::Exact;

/// How the samples of a channel become whole numbers.
#[derive(Clone, Copy)]
pub(crate) enum SampleFit {
    /// They stay unchanged.
    Same,
    /// This number is subtracted.
    Shift(i32),
    /// They are multiplied by a power of ten.
    Tens(DecimalScale),
    /// The same, and some have more bits than a file of 1999 holds.
    LongTens(DecimalScale),
    /// They are whole numbers of steps on both sides of the middle.
    Exact(Steps),
    /// They are rounded to steps on both sides of the middle.
    Steps(Steps),
    /// All are the same; b holds the value.
    Flat(Exact),
}

/// The whole numbers of 32 bits but the least one, which marks a missing value in BINARY32 data.
const LONG: WholeBounds = WholeBounds {
    low: -2_147_483_647,
    high: 2_147_483_647,
};

/// The power of ten that turns all samples into whole numbers within the bounds.
fn tens_of(span: &SampleSpan, bounds: WholeBounds) -> Option<DecimalScale> {
    if span.need < -40 || 30 < span.need {
        return None;
    }
    let part = ten_to(span.scale.shift.checked_sub(span.need)?)?;
    let (low, high) = span.reach.ends()?;
    if bounds.low <= low.checked_div(part)? && high.checked_div(part)? <= bounds.high {
        Some(DecimalScale::new(span.need))
    } else {
        None
    }
}

/// The value of samples that are all the same, if it can be held exactly.
fn flat_of(span: &SampleSpan) -> Option<Exact> {
    let (low, high) = span.reach.ends()?;
    if low != high {
        return None;
    }
    if span.need <= span.scale.shift {
        return Some(Exact {
            units: i128::from(low),
            places: span.scale.shift,
        });
    }
    exact_of(span.first?)
}

/// The shift that turns unsigned samples into signed ones.
fn shift_of(span: &SampleSpan) -> Option<i32> {
    let part = ten_to(span.scale.shift)?;
    let (low, high) = span.reach.ends()?;
    if 1 <= low.checked_div(part)? {
        return Some(32_768);
    }
    if high.checked_div(part)? <= 65_534 {
        Some(32_767)
    } else {
        None
    }
}

/// How the samples of a channel become whole numbers; None if they are too large. `is_unsigned` if
/// they have no sign.
pub(crate) fn fit_of(
    span: &SampleSpan,
    bounds: WholeBounds,
    is_unsigned: bool,
) -> Option<SampleFit> {
    if span.fits {
        return Some(SampleFit::Same);
    }
    if is_unsigned {
        if let Some(shift) = shift_of(span) {
            return Some(SampleFit::Shift(shift));
        }
    }
    if let Some(value) = flat_of(span) {
        return Some(SampleFit::Flat(value));
    }
    if let Some(scale) = tens_of(span, bounds) {
        return Some(SampleFit::Tens(scale));
    }
    match exact_steps_of(span) {
        Some(steps) => Some(SampleFit::Exact(steps)),
        None => Some(SampleFit::Steps(steps_of(span)?)),
    }
}

/// How the samples of a channel become whole numbers of 32 bits; None if they are too large.
pub(crate) fn long_fit_of(span: &SampleSpan) -> Option<SampleFit> {
    if span.is_whole && LONG.low <= span.least && span.most <= LONG.high {
        return Some(SampleFit::Same);
    }
    if let Some(value) = flat_of(span) {
        return Some(SampleFit::Flat(value));
    }
    if let Some(scale) = tens_of(span, LONG) {
        return Some(SampleFit::LongTens(scale));
    }
    let (steps, is_exact) = long_steps_of(span)?;
    Some(if is_exact {
        SampleFit::Exact(steps)
    } else {
        SampleFit::Steps(steps)
    })
}

impl SampleFit {
    /// The whole number that a sample becomes, and the error in the scale's unit; None for a
    /// sample beyond those that it was chosen for.
    pub(crate) fn whole_of(&self, num: Num) -> Option<(i64, i64)> {
        match self {
            SampleFit::Same => Some((num.whole()?, 0)),
            SampleFit::Shift(by) => Some((num.whole()?.checked_sub(i64::from(*by))?, 0)),
            SampleFit::Tens(scale) | SampleFit::LongTens(scale) => Some((scale.nearest(num)?, 0)),
            SampleFit::Exact(steps) | SampleFit::Steps(steps) => steps.nearest(
                steps.scale.nearest(num)?,
            ),
            SampleFit::Flat(_) => Some((0, 0)),
        }
    }

    /// The same for a float, if the short way (steps, in 64 bits) is possible.
    pub(crate) fn whole_of_float(&self, bits: u32) -> Option<(i64, i64)> {
        match self {
            SampleFit::Exact(steps) | SampleFit::Steps(steps) => steps.of_float(bits),
            _ => None,
        }
    }

    pub(crate) fn is_rounded(&self) -> bool {
        matches!(self, SampleFit::Steps(_))
    }

    pub(crate) fn is_same(&self) -> bool {
        matches!(self, SampleFit::Same)
    }

    /// The multiplier and the offset that restore the values.
    pub(crate) fn scaled(&self, a: Exact, b: Exact) -> Option<(Exact, Exact)> {
        match self {
            SampleFit::Same => Some((a, b)),
            SampleFit::Shift(by) => Some((
                a,
                b.plus(a.times(Exact {
                    units: i128::from(*by),
                    places: 0,
                })?)?,
            )),
            SampleFit::Tens(scale) | SampleFit::LongTens(scale) => Some((
                Exact {
                    units: a.units,
                    places: a.places.checked_add(scale.shift)?,
                },
                b,
            )),
            SampleFit::Exact(steps) | SampleFit::Steps(steps) => {
                let places = steps.scale.shift;
                let unit = Exact {
                    units: i128::from(steps.unit),
                    places,
                };
                let middle = Exact {
                    units: i128::from(steps.middle),
                    places,
                };
                Some((
                    a.short().times(unit.short())?,
                    b.plus(a.short().times(middle.short())?)?,
                ))
            }
            SampleFit::Flat(value) => Some((a, b.plus(a.short().times(value.short())?)?)),
        }
    }
}
