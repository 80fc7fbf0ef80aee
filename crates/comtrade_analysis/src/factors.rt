//! The value of a sample.

ghost use Rattle.std.specs.Prelude.{◌≡◌};
ghost use Rattle.std.specs.Option.{SomeIff};
ghost use Rattle.comtrade_values.specs.Arithmetic as arithmetic;

use comtrade_values::{Decimal, exact_value};
use dfr_channels::AnalogChannel;
use std::alloc::Allocator;

/// The factors of an analogue channel: a sample x has the value a·x + b in the channel's unit
/// (C37.111-1999, 5.3.3).
#[derive(Clone, Copy, Debug)]
pub struct Factors {
    pub a: Decimal,
    pub b: Decimal,
}

impl Factors {
    /// The factors of a channel.
    pub fn of<A: Allocator>(channel: &AnalogChannel<A>) -> Factors
        ensures a { result.a ≡ channel.now.a }
        ensures b { result.b ≡ channel.now.b }
    {
        Factors {
            a: channel.a,
            b: channel.b,
        }
    }

    /// The value of a sample, exactly, with the decimal places of the finer factor. None if a·x, b
    /// or the sum then has more than 36 digits.
    pub fn value(&self, sample: i32) -> Option<Decimal>
        ensures { SomeIff result (arithmetic.IsShort self.now.a self.now.b sample) (arithmetic.value self.now.a self.now.b sample) }
    {
        exact_value(self.a, self.b, sample)
    }
}
