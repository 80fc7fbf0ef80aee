//! Numbers as whole multiples of a power of ten.

ghost use Rattle.jiff_core.specs.Calendar.{IsWithin};

use crate::nearest::over;
use crate::num::{Num, ten_to};

/// Multiples of 10^-shift; `fives` is 5^shift for a shift from 0 to 44, else 1.
#[derive(Clone, Copy)]
pub(crate) struct DecimalScale {
    pub shift: i32,
    fives: Option<u128>,
    /// The same if it has at most 39 bits.
    short: Option<u64>,
    ghost near: { IsWithin 60 shift },
}

/// The greatest power of five that has at most 39 bits.
const SHORT: u32 = 16;

impl DecimalScale {
    /// The scale with this shift, or with the nearest one from -60 to 44: the product of a float's
    /// 24 bits and 5^44 has at most 127 bits.
    pub(crate) fn new(shift: i32) -> DecimalScale {
        let shift = if shift < -60 {
            -60
        } else if 44 < shift {
            44
        } else {
            shift
        };
        let power = if shift < 0 { 0 } else { shift.unsigned_abs() };
        DecimalScale {
            shift,
            fives: 5u128.checked_pow(power),
            short: if power <= SHORT {
                5u64.checked_pow(power)
            } else {
                None
            },
        }
    }

    /// The scale that distinguishes eighteen digits of numbers below 10^order.
    pub(crate) fn below(order: i32) -> DecimalScale {
        if order < -100 {
            return DecimalScale::new(118);
        }
        if 100 < order {
            return DecimalScale::new(-82);
        }
        DecimalScale::new(18 - order)
    }

    /// The multiple nearest to a number; None if 64 bits cannot hold it, so not if the number's
    /// order is at most 18 - shift.
    pub(crate) fn nearest(self, num: Num) -> Option<i64> {
        if num.two == 0 {
            return decimal_at(num, self.shift);
        }
        let size = num.mant.unsigned_abs();
        let near = match self.near_in_64(size, num.two) {
            Some(near) => near,
            None => self.near(num)?,
        };
        if num.mant < 0 {
            near.checked_neg()
        } else {
            Some(near)
        }
    }

    /// The multiple nearest to the magnitude of a number.
    fn near(self, num: Num) -> Option<i64> {
        let size = u128::from(num.mant.unsigned_abs());
        let near = if self.shift < 0 {
            tenth(shifted(size, num.two)?, self.shift.unsigned_abs())?
        } else {
            shifted(size.checked_mul(self.fives?)?, self.shift + num.two)?
        };
        i64::try_from(near).ok()
    }

    /// The multiple nearest to size * 2^two, if 64 bits are enough.
    pub(crate) fn near_in_64(self, size: u64, two: i32) -> Option<i64> {
        if self.shift < 0 || 0x100_0000 <= size {
            return None;
        }
        let product = size.checked_mul(self.short?)?;
        let power = self.shift.checked_add(two)?;
        if power < 0 {
            over_power(product, power.unsigned_abs())
        } else {
            times_power(product, power.unsigned_abs())
        }
    }
}

/// A magnitude divided by 2^n, rounded, for n from 1 to 62.
fn over_power(size: u64, n: u32) -> Option<i64> {
    if 62 < n {
        return None;
    }
    let half = 1u64.checked_shl(n.checked_sub(1)?)?;
    i64::try_from(size.checked_add(half)?.checked_shr(n)?).ok()
}

/// A magnitude times 2^n, if the product has at most 63 bits.
fn times_power(size: u64, n: u32) -> Option<i64> {
    i64::try_from(size.checked_mul(1u64.checked_shl(n)?)?).ok()
}

/// A magnitude divided by 10^n, rounded; None for n above 38.
fn tenth(size: u128, n: u32) -> Option<u128> {
    let part = 10u128.checked_pow(n)?;
    size.checked_add(part / 2)?.checked_div(part)
}

/// A magnitude times 2^n, rounded, if 128 bits can hold it.
fn shifted(size: u128, n: i32) -> Option<u128> {
    let size_of_n = n.unsigned_abs();
    if 0 <= n {
        return size.checked_mul(1u128.checked_shl(size_of_n)?);
    }
    if 127 < size_of_n {
        return Some(0);
    }
    let half = 1u128.checked_shl(size_of_n.checked_sub(1)?)?;
    size.checked_add(half)?.checked_shr(size_of_n)
}

/// A decimal as the nearest multiple of 10^-shift, if 64 bits can hold it.
fn decimal_at(num: Num, shift: i32) -> Option<i64>
    requires { IsWithin 60 shift }
{
    if num.mant == 0 {
        return Some(0);
    }
    let power = num.ten + shift;
    if 0 <= power {
        return num.mant.checked_mul(ten_to(power)?);
    }
    match ten_to(-power) {
        Some(part) => over(num.mant, part),
        None => Some(0), // the digits of a decimal are below 10^18, so it is below half a unit
    }
}
