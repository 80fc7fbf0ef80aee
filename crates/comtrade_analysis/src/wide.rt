//! Natural numbers of at most 192 bits, as sums of squares are.

ghost use Rattle.std.specs.Prelude.{◌≡◌, ◌+◌, ◌*◌, ◌/◌, ◌<◌};
ghost use Rattle.comtrade_analysis.specs.Wide.{number, IsNumber};

/// The number high·2^64 + low.
#[derive(Clone, Copy, Debug, PartialEq, Eq)]
pub struct Wide {
    pub high: u128,
    pub low: u64,
}

/// 2^64.
const LIMB: u128 = 0x1_0000_0000_0000_0000;

/// The least number of more than 96 bits.
const MOST: u128 = 0x1_0000_0000_0000_0000_0000_0000;

/// The square; None if it needs more than 192 bits.
pub(crate) fn square_of(n: u128) -> Option<Wide>
    ensures { IsNumber (n * n) result }
{
    if MOST <= n {
        return None;
    }
    let upper = n / LIMB;
    let lower = n % LIMB;
    let end = lower * lower;
    let middle = 2 * upper * lower + end / LIMB;
    Some(Wide {
        high: upper * upper * LIMB + middle,
        low: (end % LIMB) as u64,
    })
}

impl Wide {
    /// The sum; None if it needs more than 192 bits.
    pub(crate) fn plus(self, other: Wide) -> Option<Wide>
        ensures { IsNumber (number self + number other) result }
    {
        let low = self.low as u128 + other.low as u128;
        let high = self.high.checked_add(other.high)?.checked_add(low / LIMB)?;
        Some(Wide {
            high,
            low: (low % LIMB) as u64,
        })
    }

    /// The quotient, rounded down.
    pub(crate) fn divided(self, by: u64) -> Wide
        requires { 0 < by }
        ensures { number result ≡ number self / by }
    {
        let rest = self.high % by as u128;
        Wide {
            high: self.high / by as u128,
            low: ((rest * LIMB + self.low as u128) / by as u128) as u64,
        }
    }
}
