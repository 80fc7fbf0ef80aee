//! Quantities of three phases.

ghost use Rattle.std.specs.Prelude.{◌≡◌};
ghost use Rattle.comtrade_distance.specs.Loops as spec;

use comtrade_analysis::Phasor;

/// The phasors of phases A, B and C at one time: voltages to earth in volts, or currents into the
/// line in amperes.
#[derive(Clone, Copy, Debug)]
pub struct Three {
    pub a: Phasor,
    pub b: Phasor,
    pub c: Phasor,
}

impl Three {
    /// The sum of the phases: three times the zero sequence.
    pub fn sum(self) -> Phasor
        ensures { result ≡ spec.sum self }
    {
        self.a.plus(self.b).plus(self.c)
    }
}
