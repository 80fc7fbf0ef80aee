//! The part of the line between its measured end and the fault.

ghost use Rattle.std.specs.Prelude.{◌≡◌};
ghost use Rattle.comtrade_distance.specs.Places as spec;

use crate::line::Line;
use crate::loops::Loop;
use crate::turned::Three;
use comtrade_analysis::Phasor;

/// Parts of the line up to the fault: 0 at the measured end, 1 at the far one. Which is right
/// depends on the current through the fault, which one end doesn't measure.
#[derive(Clone, Copy, Debug)]
pub struct Place {
    /// Where that current is in phase with the reference.
    pub likely: f64,
    /// Where it is behind, and where it is ahead.
    pub behind: f64,
    pub ahead: f64,
}

/// The part of the line whose drop leaves of the voltage only what is in phase with a current: the
/// voltage of an arc. None where the drop is in phase with it, too.
pub(crate) fn part_of(voltage: Phasor, drop: Phasor, current: Phasor) -> Option<f64>
    ensures { result ≡ spec.part voltage drop current }
{
    let part = voltage.across(current) / drop.across(current);
    if part.is_finite() { Some(part) } else { None }
}

/// Where a fault is, by the voltages and currents during it and the currents before it. The current
/// through the fault is taken for at most `turn`, a phasor of magnitude 1, ahead of or behind the
/// reference. None where the drop along the line is in phase with that.
pub fn place_of(
    line: Line,
    loop_: Loop,
    voltages: Three,
    currents: Three,
    before: Three,
    turn: Phasor,
) -> Option<Place>
    ensures { result ≡ spec.place line loop_ voltages currents before turn }
{
    let voltage = loop_.voltage(voltages);
    let drop = loop_.drop_along(line, currents);
    let reference = loop_.reference(currents, before);
    Some(Place {
        likely: part_of(voltage, drop, reference)?,
        behind: part_of(voltage, drop, reference.times(turn.mirrored()))?,
        ahead: part_of(voltage, drop, reference.times(turn))?,
    })
}
