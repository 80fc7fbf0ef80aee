//! Numbers as samples give them: decimals, and binary floats.

ghost use Rattle.std.specs.Prelude.{◌<◌};
ghost use Rattle.jiff_core.specs.Calendar.{IsWithin};

use comtrade_values::Exact;

/// The number mant * 10^ten * 2^two.
#[derive(Clone, Copy)]
pub(crate) struct Num {
    pub mant: i64,
    pub ten: i32,
    pub two: i32,
    ghost tens: { IsWithin 1000000000 ten },
    ghost twos: { IsWithin 200 two },
}

static TENS: [i64; 19] = [
    1,
    10,
    100,
    1_000,
    10_000,
    100_000,
    1_000_000,
    10_000_000,
    100_000_000,
    1_000_000_000,
    10_000_000_000,
    100_000_000_000,
    1_000_000_000_000,
    10_000_000_000_000,
    100_000_000_000_000,
    1_000_000_000_000_000,
    10_000_000_000_000_000,
    100_000_000_000_000_000,
    1_000_000_000_000_000_000,
];

/// 10^n, for n from 0 to 18.
pub(crate) fn ten_to(n: i32) -> Option<i64> {
    TENS.get(usize::try_from(n).ok()?).copied()
}

impl Num {
    pub(crate) fn of(mant: i64) -> Num {
        Num {
            mant,
            ten: 0,
            two: 0,
        }
    }

    /// The number as a whole number, if it is one.
    pub(crate) fn whole(self) -> Option<i64> {
        if self.mant == 0 {
            return Some(0);
        }
        if self.two != 0 {
            if self.two < 0 || 39 < self.two {
                return None;
            }
            return self
                .mant
                .checked_mul(1i64.checked_shl(self.two.unsigned_abs())?);
        }
        if 0 <= self.ten {
            return self.mant.checked_mul(ten_to(self.ten)?);
        }
        let part = ten_to(-self.ten)?;
        if self.mant.checked_rem(part)? == 0 {
            self.mant.checked_div(part)
        } else {
            None
        }
    }

    /// The greatest n, possibly negative, for which the number divided by 10^n is whole.
    pub(crate) fn zeros(self) -> i32
        ensures { IsWithin 1000009999 result }
    {
        if self.two == 0 {
            return self.ten + zeros_of(self.mant);
        }
        self.two.min(0)
    }

    /// A whole number n such that the magnitude of the number is below 10^n.
    pub(crate) fn order(self) -> i32 {
        if self.two == 0 {
            return digits_of(self.mant.unsigned_abs()) + self.ten;
        }
        self.twos() * 30_103 / 100_000 + 1
    }

    /// Whether the magnitude of a decimal is so great that it marks a missing value: from 3.4E38 on.
    pub(crate) fn is_mark(self) -> bool {
        if self.ten < 20 || self.mant == 0 {
            return false; // its digits are below 10^18
        }
        let order = self.order();
        if order != 39 {
            return 39 < order;
        }
        let size = self.mant.unsigned_abs();
        let front = match ten_to(37 - self.ten) {
            Some(part) => size.checked_div(part.unsigned_abs()),
            None => size.checked_mul(10),
        };
        match front {
            Some(front) => 34 <= front,
            None => true,
        }
    }

    /// The least n for which the magnitude is below 2^n, for a number that is no multiple of a
    /// power of ten.
    fn twos(self) -> i32
        ensures { IsWithin 264 result }
    {
        64 - self.mant.unsigned_abs().leading_zeros() as i32 + self.two
    }

    /// A whole number that compares as the numbers do, if none is a multiple of a power of ten: the
    /// exponent of the power of two above it, followed by the bits of its magnitude.
    pub(crate) fn place(self) -> i128 {
        let size = self.mant.unsigned_abs();
        let Some(bits) = size.checked_shl(size.leading_zeros()) else {
            return 0; // (0 alone has 64 leading zeros)
        };
        let place = place_above(self.twos() + 10_000, bits);
        if self.mant < 0 { -place } else { place }
    }
}

/// 2^64, above all magnitudes of 64 bits.
const BITS: i128 = 18_446_744_073_709_551_616;

/// An exponent followed by 64 bits, as one whole number.
fn place_above(exponent: i32, bits: u64) -> i128
    requires { IsWithin 20000 exponent }
    ensures { IsWithin 1000000000000000000000000 result }
{
    i128::from(exponent) * BITS + i128::from(bits)
}

/// The number of trailing zeros in decimal; for 0 it is very large.
fn zeros_of(mant: i64) -> i32
    ensures { IsWithin 9999 result }
{
    if mant == 0 {
        return 9_999;
    }
    let mut left = mant;
    for zeros in 0..18u8 {
        if left % 10 != 0 {
            return i32::from(zeros);
        }
        left /= 10;
    }
    18
}

/// The number of decimal digits.
fn digits_of(size: u64) -> i32
    ensures { IsWithin 20 result }
{
    let mut left = size;
    for digits in 0..20u8 {
        if left == 0 {
            return i32::from(digits);
        }
        left /= 10;
    }
    20
}

/// The magnitude of a 32-bit float: mant * 2^two.
#[derive(Clone, Copy)]
pub(crate) struct FloatSize {
    pub mant: u32,
    pub two: i32,
    ghost short: { mant < 16777216 },
    ghost near: { IsWithin 149 two },
}

/// The magnitude from which on floats are marks of missing values: 3.4E38. The greatest float, which
/// writers use as a mark, is a little more.
const FLOAT_MARK: u32 = 0x7f7f_c99e;

/// Whether a 32-bit float is a number so great that it marks a missing value.
pub(crate) fn is_float_mark(bits: u32) -> bool {
    let size = bits & 0x7fff_ffff;
    FLOAT_MARK <= size && size < 0x7f80_0000
}

/// The magnitude of a 32-bit float; None for infinities, NaN and marks of missing values.
pub(crate) fn size_of_float(bits: u32) -> Option<FloatSize> {
    let exponent = bits >> 23 & 0xff;
    let fraction = bits & 0x7f_ffff;
    match exponent {
        _ if FLOAT_MARK <= bits & 0x7fff_ffff => None,
        255 => None,
        0 => Some(FloatSize {
            mant: fraction,
            two: -149,
        }),
        _ => Some(FloatSize {
            mant: fraction + 0x80_0000,
            two: exponent as i32 - 150,
        }),
    }
}

/// The number with these bits as a float, if they are a number.
pub(crate) fn num_of_float(bits: u32) -> Option<Num> {
    let size = size_of_float(bits)?;
    if size.mant == 0 {
        return Some(Num::of(0));
    }
    let zeros = size.mant.trailing_zeros().min(23);
    let mant = i64::from(size.mant >> zeros);
    let two = size.two + zeros as i32;
    let mant = if bits >> 31 == 1 { -mant } else { mant };
    if 0 <= two && two < 39 {
        let power = 1i64.checked_shl(two.unsigned_abs())?;
        return Some(Num::of(mant.checked_mul(power)?));
    }
    Some(Num { mant, ten: 0, two })
}

/// A sample as an exact number.
pub(crate) fn exact_of(num: Num) -> Option<Exact> {
    let mant = i128::from(num.mant);
    if 0 <= num.two {
        let two = 2i128.checked_pow(num.two.unsigned_abs())?;
        return Some(Exact {
            units: mant.checked_mul(two)?,
            places: -num.ten,
        });
    }
    let five = 5i128.checked_pow(num.two.unsigned_abs())?;
    Some(Exact {
        units: mant.checked_mul(five)?,
        places: -num.two,
    })
}
