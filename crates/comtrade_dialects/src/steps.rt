//! Steps between the samples of a channel, of which they become whole numbers.

ghost use Rattle.std.specs.Prelude.{◌≡◌, ◌+◌, ◌*◌, ◌<◌, ◌≤◌, ◌^◌, ◌⊎◌, IfSome};
ghost use Rattle.std.specs.Prelude.{unsigned_abs};
ghost use Rattle.std.specs.Int.{abs_diff};

use crate::nearest::{over, rounded};
use crate::num::size_of_float;
use crate::scale::DecimalScale;
use crate::span::SampleSpan;

/// Steps of `unit` from `middle`, both in the scale's unit.
#[derive(Clone, Copy)]
pub(crate) struct Steps {
    pub scale: DecimalScale,
    pub middle: i64,
    pub unit: i64,
    /// Near 2^64 / unit.
    inverse: u64,
    /// The maximum number of steps on one side.
    pub most: i32,
}

/// The maximum number of steps on one side in samples of 16 bits, and of 32 bits.
const MOST: i32 = 32_767;

const MOST_LONG: i32 = 2_147_483_647;

/// The same as a number of 64 bits.
const ROOM: u64 = 2_147_483_647;

/// A positive number as a multiple of a power of ten with at most nine digits, rounded up, and
/// that power.
fn nine_digits(n: i64) -> Option<(i64, i64)> {
    let mut power = 1i64;
    for _ in 0..10 {
        if n.checked_div(power)? < 999_999_999 {
            break;
        }
        power = power.checked_mul(10)?;
    }
    let up = n.checked_add(power.checked_sub(1)?)?.checked_div(power)?;
    Some((up.checked_mul(power)?, power))
}

/// The steps of 16 bits between the least and the greatest sample.
pub(crate) fn steps_of(span: &SampleSpan) -> Option<Steps> {
    let (low, high) = span.reach.ends()?;
    let least = (high.checked_sub(low)? / 65_533).checked_add(1)?;
    let (unit, power) = nine_digits(least)?;
    let sum = high.checked_add(low)?;
    let middle = over(sum / 2, power)?.checked_mul(power)?;
    Some(Steps {
        scale: span.scale,
        middle,
        unit,
        inverse: u64::MAX.checked_div(unit.unsigned_abs())?,
        most: MOST,
    })
}

/// The least power of ten of which this width is at most so many steps: its exponent, and it.
fn ten_for(width: u64, steps: u64) -> Option<(u8, u64)>
    ensures wide { IfSome result (λ ten. width ≤ ten.1 * steps) }
    ensures power { IfSome result (λ ten. ten.1 ≡ 10 ^ ten.0) }
{
    for n in 0..20u8 {
        let unit = 10u64.checked_pow(u32::from(n))?;
        if width <= unit.checked_mul(steps)? {
            return Some((n, unit));
        }
    }
    None
}

/// Steps of a power of ten: the least of which 32 bits hold all samples, from 0 where they can. Also
/// whether all samples are whole numbers of them.
pub(crate) fn long_steps_of(span: &SampleSpan) -> Option<(Steps, bool)> {
    let (low, high) = span.reach.ends()?;
    let (exponent, unit) = ten_for(high.abs_diff(low), 2 * ROOM - 2)?;
    let places = span.scale.shift.checked_sub(i32::from(exponent))?;
    let size = low.unsigned_abs().max(high.unsigned_abs());
    let power = i64::try_from(unit).ok()?;
    let middle = if size.checked_div(unit)? < ROOM {
        0
    } else {
        let sum = i128::from(low) + i128::from(high);
        let steps = rounded(sum, 2 * i128::from(power))?;
        i64::try_from(steps).ok()?.checked_mul(power)?
    };
    let steps = Steps {
        scale: span.scale,
        middle,
        unit: power,
        inverse: u64::MAX.checked_div(unit)?,
        most: MOST_LONG,
    };
    Some((steps, span.need <= places))
}

/// The steps of which all samples are multiples, if there are any.
pub(crate) fn exact_steps_of(span: &SampleSpan) -> Option<Steps> {
    let step = span.step?;
    let (low, high) = span.reach.ends()?;
    let count = high.abs_diff(low).checked_div(step)?;
    let half = (count / 2).checked_mul(step)?;
    Some(Steps {
        scale: span.scale,
        middle: low.checked_add(i64::try_from(half).ok()?)?,
        unit: i64::try_from(step).ok()?,
        inverse: u64::MAX.checked_div(step)?,
        most: MOST,
    })
}

/// A size divided by a unit, and the rest, given a number near 2^64 / unit. It multiplies by this,
/// which gives at most one too few, because a division for each sample would take longer than
/// everything else.
fn divided(size: u64, unit: u64, inverse: u64) -> Option<(u64, u64)>
    ensures parts { IfSome result (λ found. size ≡ found.0 * unit + found.1) }
    ensures rest { IfSome result (λ found. found.1 < unit) }
{
    let mut count = upper(size, inverse);
    let mut rest = size.checked_sub(count.checked_mul(unit)?)?;
    if unit <= rest {
        count = count.checked_add(1)?;
        rest -= unit;
    }
    if rest < unit {
        Some((count, rest))
    } else {
        Some((size.checked_div(unit)?, size.checked_rem(unit)?))
    }
}

/// The upper 64 bits of a product.
fn upper(a: u64, b: u64) -> u64 {
    ((u128::from(a) * u128::from(b)) >> 64) as u64
}

impl Steps {
    /// The number of steps nearest to a number in the scale's unit (halves away from 0, at most
    /// `most`), and the error; None if 64 bits cannot hold the number's distance from the middle.
    pub(crate) fn nearest(self, near: i64) -> Option<(i64, i64)> {
        let from = near.checked_sub(self.middle)?;
        let (count, off) = self.nearest_size(from.unsigned_abs())?;
        let count = i64::try_from(count).ok()?;
        let off = i64::try_from(off).ok()?;
        if from < 0 {
            return Some((count.checked_neg()?, off));
        }
        Some((count, off))
    }

    /// The same of a distance from the middle.
    fn nearest_size(self, size: u64) -> Option<(u64, u64)>
        ensures error { IfSome result (λ found.
            found.1 ≡ abs_diff size (found.0 * unsigned_abs self.unit)) }
        ensures half { IfSome result (λ found. (2 * found.1 ≤ unsigned_abs self.unit)
            ⊎ (found.0 ≡ unsigned_abs self.most)) }
    {
        let unit = self.unit.unsigned_abs();
        let half = unit / 2;
        let (count, rest) = divided(size.checked_add(half)?, unit, self.inverse)?;
        let most = u64::from(self.most.unsigned_abs());
        if count <= most {
            return Some((count, rest.abs_diff(half)));
        }
        Some((most, size.checked_sub(most.checked_mul(unit)?)?))
    }

    /// The same for a float, if 64 bits are enough.
    pub(crate) fn of_float(self, bits: u32) -> Option<(i64, i64)> {
        let size = size_of_float(bits)?;
        let near = self.scale.near_in_64(u64::from(size.mant), size.two)?;
        let near = if bits >> 31 == 1 {
            near.checked_neg()?
        } else {
            near
        };
        self.nearest(near)
    }
}
