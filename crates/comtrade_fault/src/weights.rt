//! The weights of three channels.

ghost use Rattle.std.specs.Prelude.{◌≤◌};

use crate::scan::Weights;
use comtrade_analysis::Sequence;
use comtrade_values::{Decimal, with_places};
use dfr_channels::AnalogChannel;
use std::alloc::Allocator;

/// The size of a factor in units of so many places, if it has 64 bits or fewer.
fn weight_of(factor: Decimal, places: u8) -> Option<u64>
    requires { factor.places ≤ places }
{
    let units = with_places(factor, places)?.units();
    u64::try_from(units.unsigned_abs()).ok()
}

/// Whether a factor is below 0.
fn is_negative(factor: Decimal) -> bool {
    factor.units() < 0
}

/// The weights of the three phases of a sequence: 1 each where they have one factor, else the
/// sizes of the factors in units of the last place of all three. None where a channel isn't there,
/// a factor has too many digits, or only some are below 0.
pub fn weights_of<A: Allocator>(
    channels: &[AnalogChannel<A>],
    sequence: Sequence,
) -> Option<Weights> {
    let a = channels.get(sequence.a)?.a;
    let b = channels.get(sequence.b)?.a;
    let c = channels.get(sequence.c)?.a;
    if a == b && b == c {
        return Some(Weights { a: 1, b: 1, c: 1 });
    }
    if is_negative(a) != is_negative(b) || is_negative(b) != is_negative(c) {
        return None;
    }
    let places = a.places().max(b.places()).max(c.places());
    Some(Weights {
        a: weight_of(a, places)?,
        b: weight_of(b, places)?,
        c: weight_of(c, places)?,
    })
}
