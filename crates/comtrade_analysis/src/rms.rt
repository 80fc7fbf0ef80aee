//! The rms value as a float.

ghost use Rattle.std.specs.Prelude.{◌≡◌, IfOk};
ghost use Rattle.comtrade_analysis.specs.Rms as spec;

use crate::mean_square::MeanSquare;
use crate::wide::Wide;
use comtrade_format::nearest_f64;
use comtrade_values::{Decimal, Memory};
use std::alloc::Allocator;
use std::num::nearest_u64_to_f64;

/// 2^64.
const LIMB: u128 = 0x1_0000_0000_0000_0000;

const FLOAT_LIMB: f64 = 18446744073709551616.0;

impl Wide {
    /// The number as a float, by its three parts of 64 bits.
    fn float(self) -> f64
        ensures { result ≡ spec.float_of self }
    {
        let first = nearest_u64_to_f64((self.high / LIMB) as u64);
        let second = nearest_u64_to_f64((self.high % LIMB) as u64);
        let upper = first * FLOAT_LIMB + second;
        upper * FLOAT_LIMB + nearest_u64_to_f64(self.low)
    }
}

impl MeanSquare {
    /// The rms value, within 3 units of the last place of a float.
    pub fn rms<A: Allocator>(self, alloc: A) -> Result<f64, Memory>
        ensures { IfOk result (spec.IsRms self) }
    {
        let mean = self.sum.float() / nearest_u64_to_f64(self.count);
        match Decimal::new(1, self.places) {
            Some(unit) => Ok(mean.sqrt() * nearest_f64(alloc, unit)?),
            None => unreachable!(),
        }
    }
}
