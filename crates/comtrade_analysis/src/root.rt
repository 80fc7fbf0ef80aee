//! The root of a mean square.

ghost use Rattle.std.specs.Prelude.{◌≡◌, ◌≢◌, ◌+◌, ◌*◌, ◌/◌, ◌<◌, ◌≤◌, ◌^◌, ◌⊎◌, MatchOption, IfSome, IfNone};
ghost use Rattle.comtrade_analysis.specs.Wide.{number};
ghost use Rattle.comtrade_analysis.specs.Roots as spec;

use crate::mean_square::MeanSquare;
use crate::wide::Wide;
use comtrade_values::Decimal;

/// The most places of a decimal.
const MOST_PLACES: u8 = 80;

/// A square in units of 100^-places: its root has `places` places.
#[derive(Clone, Copy)]
struct Square {
    value: u128,
    places: u8,
    ghost few: { places ≤ 80 },
}

/// The same, of any length.
#[derive(Clone, Copy)]
struct LongSquare {
    value: Wide,
    places: u8,
    ghost few: { places ≤ 80 },
}

/// 100^n; `n` is at most 19.
fn hundreds(n: u8) -> u128
    requires { n < 20 }
    ensures { result ≡ 100 ^ n }
{
    100u128.pow(n as u32)
}

impl Wide {
    /// The number, if it has at most 128 bits.
    fn short(self) -> Option<u128>
        ensures { MatchOption result (2 ^ 128 ≤ number self) (λ n. n ≡ number self) }
    {
        let high = u64::try_from(self.high).ok()?;
        Some(high as u128 * 0x1_0000_0000_0000_0000 + self.low as u128)
    }

    /// The number, if it is below `limit`.
    fn below(self, limit: u128) -> Option<u128>
        ensures value { IfSome result (λ n. n ≡ number self) }
        ensures small { IfSome result (λ n. n < limit) }
        ensures none { IfNone result (limit ≤ number self) }
    {
        let short = self.short()?;
        if short < limit { Some(short) } else { None }
    }
}

impl LongSquare {
    /// With one place fewer, rounded down; None if it has none, or falls below `least`.
    fn shortened(self, least: u128) -> Option<LongSquare>
        ensures places { IfSome result (λ s. s.places + 1 ≡ self.places) }
        ensures value { IfSome result (λ s. number s.value ≡ number self.value / 100) }
        ensures enough { IfSome result (λ s. least ≤ number s.value) }
        ensures none { IfNone result (self.places ≢ 0 → number self.value / 100 < least) }
    {
        if self.places == 0 {
            return None;
        }
        let value = self.value.divided(100);
        match value.below(least) {
            Some(_) => None,
            None => Some(LongSquare {
                value,
                places: self.places - 1,
            }),
        }
    }
}

impl Square {
    /// With one place more; None if it has all, or its quotient by `count` is at `least` or more.
    fn lengthened(self, count: u64, least: u128) -> Option<Square>
        requires count { 0 < count }
        requires room { 100 * least * count < 2 ^ 128 }
        ensures places { IfSome result (λ s. s.places ≡ self.places + 1) }
        ensures value { IfSome result (λ s. s.value ≡ self.value * 100) }
        ensures small { IfSome result (λ s. s.value < 100 * least * count) }
        ensures none { IfNone result ((80 ≤ self.places) ⊎ (least ≤ self.value / count)) }
    {
        if MOST_PLACES <= self.places || least <= self.value / count as u128 {
            return None;
        }
        Some(Square {
            value: self.value * 100,
            places: self.places + 1,
        })
    }
}

impl MeanSquare {
    /// The square with as few places as leave it at `least` or more, from its whole part; None if
    /// it has then more than 128 bits.
    fn coarser(self, whole: Wide, least: u128) -> Option<Square>
        requires floor { spec.IsFloor self self.places (number whole) }
        requires enough { least ≤ number whole }
        requires room { 100 * least ≤ 2 ^ 128 }
        ensures floor { IfSome result (λ s. spec.IsFloor self s.places s.value) }
        ensures enough { IfSome result (λ s. least ≤ s.value) }
        ensures fewest { IfSome result (λ s. s.places ≢ 0 → s.value < 100 * least) }
        ensures none { IfNone result (spec.IsTooLarge self) }
    {
        let mut square = LongSquare {
            value: whole,
            places: self.places,
        };
        while let Some(shorter) = square.shortened(least) {
            square = shorter;
        }
        Some(Square {
            value: square.value.short()?,
            places: square.places,
        })
    }

    /// The square with as many places as bring it to `least`; None if 80 don't.
    fn finer(self, least: u128) -> Option<Square>
        requires low { number self.sum < least * self.count }
        requires room { 100 * least * self.count < 2 ^ 128 }
        ensures floor { IfSome result (λ s. spec.IsFloor self s.places s.value) }
        ensures enough { IfSome result (λ s. least ≤ s.value) }
        ensures fewest { IfSome result (λ s. s.value < 100 * least) }
        ensures none { IfNone result (number self.sum * 100 ^ 80 < least * spec.parts self) }
    {
        let mut sum = Square {
            value: self.sum.short()?,
            places: self.places,
        };
        while let Some(longer) = sum.lengthened(self.count, least) {
            sum = longer;
        }
        let value = sum.value / self.count as u128;
        if value < least {
            return None;
        }
        Some(Square {
            value,
            places: sum.places,
        })
    }

    /// The mean square, rounded down, with the places that bring it to `least`, and no more.
    fn square(self, least: u128) -> Option<Square>
        requires room { 100 * least * self.count < 2 ^ 128 }
        ensures floor { IfSome result (λ s. spec.IsFloor self s.places s.value) }
        ensures enough { IfSome result (λ s. number self.sum ≢ 0 → least ≤ s.value) }
        ensures fewest { IfSome result (λ s. s.places ≢ 0 → s.value < 100 * least) }
        ensures none { IfNone result (((number self.sum ≢ 0) × (number self.sum * 100 ^ 80 < least * spec.parts self)) ⊎ spec.IsTooLarge self) }
    {
        if self.sum.high == 0 && self.sum.low == 0 {
            return Some(Square {
                value: 0,
                places: 0,
            });
        }
        let whole = self.sum.divided(self.count);
        match whole.below(least) {
            Some(_) => self.finer(least),
            None => self.coarser(whole, least),
        }
    }

    /// The root, as the rms value is: rounded down to so many significant digits, or to an integer
    /// that has more. None if 80 places don't give it so many digits, or if it is 2^64 or more.
    pub fn root(self, digits: u8) -> Option<Decimal>
        requires some { 0 < digits }
        requires few { digits ≤ 9 }
        ensures { spec.IsRootOf self digits result }
    {
        let square = self.square(hundreds(digits - 1))?;
        Decimal::new(square.value.isqrt() as i128, square.places)
    }
}
