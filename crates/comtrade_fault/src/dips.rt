//! How the voltages change in a disturbance.

ghost use Rattle.std.specs.Prelude.{◌≡◌, ◌≤◌};
ghost use Rattle.comtrade_fault.specs.Sizing.{Fit};
ghost use Rattle.comtrade_fault.specs.Deciding as spec;

use crate::sizes::Sizes;
use crate::types::FaultType;

/// Whether the voltages change by one part in so many of the greatest before, or more.
pub(crate) fn changes_by(voltages: Sizes, parts: u128) -> bool
    requires small { Fit voltages }
    requires few { parts ≤ 64 }
    ensures { result ≡ spec.changes_by voltages parts }
{
    voltages.before.most() <= parts * voltages.change.phases().most()
}

/// Whether the greatest voltage falls to so many parts of another number, or lower.
fn falls_to(voltages: Sizes, parts: u128, of: u128) -> bool
    requires small { Fit voltages }
    requires few { parts ≤ 64 }
    requires whole { of ≤ 64 }
    ensures { result ≡ spec.falls_to voltages parts of }
{
    of * voltages.after.most() <= parts * voltages.before.most()
}

/// Whether the voltages change as in a fault of this type: of three phases the greatest falls by an
/// eighth, else one changes by a thirty-second of it.
pub(crate) fn dips(voltages: Sizes, fault: FaultType) -> bool
    requires { Fit voltages }
    ensures { result ≡ spec.dips voltages fault }
{
    if fault.is_threefold() {
        falls_to(voltages, 7, 8)
    } else {
        changes_by(voltages, 32)
    }
}

/// Whether they change twice as much.
pub(crate) fn dips_far(voltages: Sizes, fault: FaultType) -> bool
    requires { Fit voltages }
    ensures { result ≡ spec.dips_far voltages fault }
{
    if fault.is_threefold() {
        falls_to(voltages, 3, 4)
    } else {
        changes_by(voltages, 16)
    }
}

/// Whether they change half as much.
pub(crate) fn dips_near(voltages: Sizes, fault: FaultType) -> bool
    requires { Fit voltages }
    ensures { result ≡ spec.dips_near voltages fault }
{
    if fault.is_threefold() {
        falls_to(voltages, 15, 16)
    } else {
        changes_by(voltages, 64)
    }
}

/// Whether the least voltage falls by more than one part in so many of the greatest before.
pub(crate) fn sags(voltages: Sizes, parts: u128) -> bool
    requires small { Fit voltages }
    requires few { parts ≤ 64 }
    ensures { result ≡ spec.sags voltages parts }
{
    let (before, after) = (voltages.before, voltages.after);
    parts * after.least() + before.most() < parts * before.least()
}
