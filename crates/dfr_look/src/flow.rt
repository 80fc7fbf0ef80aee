//! A stream of sampled values.

ghost use Rattle.std.specs.Prelude.{◌≡◌, ◌≤◌};
ghost use Rattle.dfr_look.specs.Flows as spec;

use crate::counter::up;
use crate::track::Track;
use crate::unit::Unit;

/// How the clock of a stream is synchronised: how many units say so.
#[derive(Clone, Copy, Debug, PartialEq, Eq)]
pub struct Synchs {
    /// Not at all (0).
    pub none: u64,
    /// To a local clock (1).
    pub local: u64,
    /// To a global clock (2).
    pub global: u64,
    /// To the clock of a number (3 to 255).
    pub clock: u64,
}

/// What the units of a stream come to.
#[derive(Clone, Copy, Debug, PartialEq, Eq)]
pub struct Flow {
    /// The first unit.
    pub first: Unit,
    /// How many units there are.
    pub units: u64,
    /// Their sample counts.
    pub track: Track,
    /// The bits that the quality of a value has.
    pub quality: u32,
    /// How many units have a quality other than 0.
    pub bad: u64,
    /// How their clock is synchronised.
    pub synchs: Synchs,
    /// How many units have not the form of the first: its values, rate and revision.
    pub changed: u64,
}

/// 1 if so, else 0.
pub(crate) fn counts(is_so: bool) -> u64
    ensures value { result ≡ spec.counts is_so }
    ensures bound { result ≤ 1 }
{
    if is_so { 1 } else { 0 }
}

/// Whether two numbers that may be left out are the same.
fn same(a: Option<u16>, b: Option<u16>) -> bool
    ensures { result ≡ spec.same a b }
{
    match (a, b) {
        (None, None) => true,
        (Some(a), Some(b)) => a == b,
        _ => false,
    }
}

/// Whether a unit has the form of the first.
fn is_like(first: &Unit, unit: &Unit) -> bool
    ensures { result ≡ spec.is_like first.now unit.now }
{
    unit.values == first.values
        && same(unit.rate, first.rate)
        && same(unit.modulus, first.modulus)
        && unit.revision == first.revision
}

impl Synchs {
    ghost use Rattle.std.specs.Prelude.{◌≡◌};
    ghost use Rattle.dfr_look.specs.Flows.{synchs_after, no_synchs};

    /// Of no unit.
    fn none() -> Synchs
        ensures { result ≡ no_synchs }
    {
        Synchs {
            none: 0,
            local: 0,
            global: 0,
            clock: 0,
        }
    }

    /// With one unit more.
    fn after(self, synch: u8) -> Synchs
        ensures { result ≡ synchs_after synch self }
    {
        match synch {
            0 => Synchs {
                none: up(self.none, 1),
                ..self
            },
            1 => Synchs {
                local: up(self.local, 1),
                ..self
            },
            2 => Synchs {
                global: up(self.global, 1),
                ..self
            },
            _ => Synchs {
                clock: up(self.clock, 1),
                ..self
            },
        }
    }
}

impl Flow {
    ghost use Rattle.std.specs.Prelude.{◌≡◌};
    ghost use Rattle.dfr_look.specs.Flows.{first_flow, flow_after};

    /// A stream of one unit.
    pub fn new(unit: Unit) -> Flow
        ensures { result ≡ first_flow unit }
    {
        Flow {
            first: unit,
            units: 1,
            track: Track::new(unit.count),
            quality: unit.quality,
            bad: counts(unit.quality != 0),
            synchs: Synchs::none().after(unit.synch),
            changed: 0,
        }
    }

    /// The stream after one unit more.
    pub fn after(self, unit: Unit) -> Flow
        ensures { result ≡ flow_after self unit }
    {
        Flow {
            first: self.first,
            units: up(self.units, 1),
            track: self.track.after(unit.count),
            quality: self.quality | unit.quality,
            bad: up(self.bad, counts(unit.quality != 0)),
            synchs: self.synchs.after(unit.synch),
            changed: up(self.changed, counts(!is_like(&self.first, &unit))),
        }
    }
}
