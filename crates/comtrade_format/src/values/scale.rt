//! Scales samples to values in their channel's unit.

ghost use Rattle.std.specs.Prelude.{◌≡◌, IfOk};
ghost use Rattle.comtrade_format.specs.Floats.{IsScale, scaled};

use crate::values::nearest_f64;
use comtrade_values::Memory;
use dfr_channels::AnalogChannel;
use std::alloc::Allocator;

/// A channel's factors as floats: a sample x has the value a·x + b in the channel's unit
/// (C37.111-1999, 5.3.3).
#[derive(Clone, Copy, Debug)]
pub struct Scale {
    /// The factor, in the channel's unit per step of a sample.
    pub a: f64,
    /// The offset, in the channel's unit.
    pub b: f64,
}

/// The floats nearest to a channel's a and b. `Memory`: an allocation failed.
pub fn scale_of<A: Allocator + Copy>(alloc: A, channel: &AnalogChannel<A>) -> Result<Scale, Memory>
    ensures { IfOk result (λ scale. IsScale channel.now scale) }
{
    let a = nearest_f64(alloc, channel.a)?;
    let b = nearest_f64(alloc, channel.b)?;
    Ok(Scale { a, b })
}

impl Scale {
    /// The value a·x + b of a sample x. The product and the sum are each rounded to the
    /// nearest float.
    pub fn value(self, sample: i32) -> f64
        ensures { result ≡ scaled self sample }
    {
        self.a * f64::from(sample) + self.b
    }
}
