//! Whether the voltages can confirm a fault.

ghost use Rattle.std.specs.Prelude.{◌≡◌};
ghost use Rattle.comtrade_views.specs.Witnesses as spec;

use comtrade_fault::{Found, weights_of};
use dfr_channels::AnalogChannel;
use std::alloc::Allocator;

/// What the voltages are.
#[derive(Clone, Copy, Debug, PartialEq, Eq)]
pub(crate) enum Witness {
    /// There are none.
    Absent,
    /// Their factors differ in sign, or have too many digits together.
    Unlike,
    /// They are less than half as large before the inception as after it.
    Dead,
    Live,
}

/// What voltages are that are there, whose factors can be compared, and that are live.
fn witness_by(is_there: bool, is_alike: bool, is_live: bool) -> Witness
    ensures { result ≡ spec.witness is_there is_alike is_live }
{
    if !is_there {
        Witness::Absent
    } else if !is_alike {
        Witness::Unlike
    } else if !is_live {
        Witness::Dead
    } else {
        Witness::Live
    }
}

/// What the voltages of a fault are.
pub(crate) fn witness_of<A: Allocator>(channels: &[AnalogChannel<A>], found: Found) -> Witness {
    let is_alike = match found.place.voltages {
        Some(voltages) => weights_of(channels, voltages).is_some(),
        None => false,
    };
    let is_live = found.disturbance.evidence.voltages.is_some();
    witness_by(found.place.voltages.is_some(), is_alike, is_live)
}
