//! The loop through a line and a fault, its voltage, and what drives it.

ghost use Rattle.std.specs.Prelude.{◌≡◌};
ghost use Rattle.comtrade_distance.specs.Loops as spec;

use crate::line::Line;
use crate::turned::Three;
use comtrade_analysis::Phasor;
use comtrade_fault::FaultType;

/// A loop: of one phase and earth, or of two phases.
#[derive(Clone, Copy, Debug, PartialEq, Eq)]
pub enum Loop {
    A,
    B,
    C,
    AB,
    BC,
    CA,
}

/// The loop by which a fault is located: of its phase and earth, or of two of its phases.
pub fn loop_of(fault: FaultType) -> Loop
    ensures { result ≡ spec.loop_of fault }
{
    match fault {
        FaultType::AG => Loop::A,
        FaultType::BG => Loop::B,
        FaultType::CG => Loop::C,
        FaultType::AB | FaultType::ABG | FaultType::ABC | FaultType::ABCG => Loop::AB,
        FaultType::BC | FaultType::BCG => Loop::BC,
        FaultType::CA | FaultType::CAG => Loop::CA,
    }
}

fn thrice(phasor: Phasor) -> Phasor
    ensures { result ≡ spec.thrice phasor }
{
    phasor.plus(phasor).plus(phasor)
}

impl Loop {
    /// What the phases put on the loop: one of them, or the difference of two.
    pub fn of(self, three: Three) -> Phasor
        ensures { result ≡ spec.along self three }
    {
        match self {
            Loop::A => three.a,
            Loop::B => three.b,
            Loop::C => three.c,
            Loop::AB => three.a.minus(three.b),
            Loop::BC => three.b.minus(three.c),
            Loop::CA => three.c.minus(three.a),
        }
    }

    /// Whether earth is a part of the loop.
    fn has_earth(self) -> bool
        ensures { result ≡ spec.has_earth self }
    {
        match self {
            Loop::A | Loop::B | Loop::C => true,
            Loop::AB | Loop::BC | Loop::CA => false,
        }
    }

    /// The voltage of the loop along the whole line under these currents: three times that of a
    /// phase and earth.
    pub(crate) fn drop_along(self, line: Line, currents: Three) -> Phasor
        ensures { result ≡ spec.drop_along self line currents }
    {
        let own = line.positive.times(self.of(currents));
        if self.has_earth() {
            let earth = line.zero.minus(line.positive).times(currents.sum());
            thrice(own).plus(earth)
        } else {
            own
        }
    }

    /// The voltage of the loop where it is measured, as many times as `drop_along`.
    pub(crate) fn voltage(self, voltages: Three) -> Phasor
        ensures { result ≡ spec.voltage self voltages }
    {
        if self.has_earth() {
            thrice(self.of(voltages))
        } else {
            self.of(voltages)
        }
    }

    /// The current that is taken for in phase with the current through the fault: the sum of the
    /// phases where earth is a part of the loop, else what the fault has added to the loop's current.
    pub(crate) fn reference(self, now: Three, before: Three) -> Phasor
        ensures { result ≡ spec.reference self now before }
    {
        if self.has_earth() {
            now.sum()
        } else {
            self.of(now).minus(self.of(before))
        }
    }
}
