//! Whether a disturbance is a fault, and what it is else.

ghost use Rattle.std.specs.Prelude.{◌≡◌, ◌*◌, ◌≤◌};
ghost use Rattle.comtrade_fault.specs.Sizing.{Fit, AreSmall, limit};
ghost use Rattle.comtrade_fault.specs.Deciding as spec;

use crate::dips::{changes_by, dips, dips_far, dips_near, sags};
use crate::sizes::{Changes, Phases, Sizes};
use crate::types::FaultType;

/// What a disturbance is that is no fault.
#[derive(Clone, Copy, Debug, PartialEq, Eq)]
pub enum Cause {
    /// A transformer is energised: a phase rises, and the second harmonic of the greatest current is
    /// a quarter of it or more.
    Inrush,
    /// No phase rises by more than an eighth: load is lost, a pole opens, or a fault ends whose
    /// inception is not seen.
    Drop,
    /// Else: load is taken up.
    Load,
}

/// What a disturbance is.
#[derive(Clone, Copy, Debug, PartialEq, Eq)]
pub enum Kind {
    Fault(FaultType),
    Other(Cause),
}

/// What makes a kind doubtful.
#[derive(Clone, Copy, Debug, PartialEq, Eq)]
pub struct Doubts {
    /// A ratio that decides the fault type is near its bound.
    pub ratio: bool,
    /// The voltages have another fault type than the currents.
    pub voltages: bool,
    /// How much the voltages change is near the bound of a fault, or there are no voltages.
    pub level: bool,
    /// Samples of the currents are missing in the cycles around the inception.
    pub missing: bool,
}

/// What a disturbance is decided by.
#[derive(Clone, Copy, Debug, PartialEq, Eq)]
pub struct Evidence {
    pub currents: Sizes,
    /// The greatest current of a phase in the first cycle.
    pub usual: u128,
    /// The second harmonics of the currents in the cycle from the inception on.
    pub second: Phases,
    /// The voltages, unless they were dead: less than half as large before as after.
    pub voltages: Option<Sizes>,
    /// No sample of the currents is missing in the cycles around the inception.
    pub is_whole: bool,
}

/// Whether a phase has at least half of the greatest current before, and an eighth of that or less
/// after.
fn is_opened(most: u128, before: u128, after: u128) -> bool
    requires before { before ≤ limit }
    requires after { after ≤ limit }
    ensures { result ≡ spec.is_opened most before after }
{
    most <= 2 * before && 8 * after <= before
}

/// What the phase with the greatest current has of these.
fn of_greatest(currents: Phases, these: Phases) -> u128
    ensures { result ≡ spec.of_greatest currents these }
{
    let most = currents.most();
    if currents.a == most {
        these.a
    } else if currents.b == most {
        these.b
    } else {
        these.c
    }
}

impl Evidence {
    /// Whether a phase rises by more than an eighth, and the second harmonic of the greatest current
    /// is a quarter of it or more.
    #[tactic(auto, unfolding(crate::specs::Deciding::is_inrush))]
    fn is_inrush(self) -> bool
        requires { spec.IsSmall self }
        ensures { result ≡ spec.is_inrush self }
    {
        let after = self.currents.after;
        !self.drops() && after.most() <= 4 * of_greatest(after, self.second)
    }

    /// Whether a phase's current is at least twice the greatest before and in the first cycle.
    #[tactic(auto, unfolding(crate::specs::Deciding::rises))]
    fn rises(self) -> bool
        requires { spec.IsSmall self }
        ensures { result ≡ spec.rises self }
    {
        2 * self.currents.before.most().max(self.usual) <= self.currents.after.most()
    }

    /// Whether a phase's current is at least three times the greatest before and in the first cycle,
    /// which has currents.
    #[tactic(auto, unfolding(crate::specs::Deciding::multiplies))]
    fn multiplies(self) -> bool
        requires { spec.IsSmall self }
        ensures { result ≡ spec.multiplies self }
    {
        let most = self.currents.before.most().max(self.usual);
        0 < self.usual && 3 * most <= self.currents.after.most()
    }

    /// Whether no phase's current rises by more than an eighth.
    #[tactic(auto, unfolding(crate::specs::Deciding::drops))]
    fn drops(self) -> bool
        requires { spec.IsSmall self }
        ensures { result ≡ spec.drops self }
    {
        let before = self.currents.before;
        let after = self.currents.after;
        8 * after.a <= 9 * before.a && 8 * after.b <= 9 * before.b && 8 * after.c <= 9 * before.c
    }

    /// Whether a pole opens.
    #[tactic(auto, unfolding(crate::specs::Deciding::opens))]
    fn opens(self) -> bool
        requires { spec.IsSmall self }
        ensures { result ≡ spec.opens self }
    {
        let before = self.currents.before;
        let after = self.currents.after;
        let most = before.most();
        is_opened(most, before.a, after.a)
            || is_opened(most, before.b, after.b)
            || is_opened(most, before.c, after.c)
    }

    /// Whether no current rises, and a pole opens or the least voltage does not fall by one part in
    /// so many.
    #[tactic(auto, unfolding(crate::specs::Deciding::subsides))]
    fn subsides(self, voltages: Sizes, parts: u128) -> bool
        requires small { spec.IsSmall self }
        requires fit { Fit voltages }
        requires few { parts ≤ 64 }
        ensures { result ≡ spec.subsides self voltages parts }
    {
        self.drops() && (self.opens() || !sags(voltages, parts))
    }

    /// What it is if it is no fault.
    #[tactic(auto, unfolding(crate::specs::Deciding::cause))]
    fn cause(self) -> Cause
        requires { spec.IsSmall self }
        ensures { result ≡ spec.cause self }
    {
        if self.is_inrush() {
            Cause::Inrush
        } else if self.drops() {
            Cause::Drop
        } else {
            Cause::Load
        }
    }

    /// The changes that decide the type: of the voltages where no current rises, else of the
    /// currents.
    #[tactic(auto, unfolding(crate::specs::Deciding::deciding))]
    fn deciding(self) -> Changes
        requires { spec.IsSmall self }
        ensures value { result ≡ spec.deciding self }
        ensures small { AreSmall result }
    {
        match self.voltages {
            Some(voltages) if !self.rises() => voltages.change,
            _ => self.currents.change,
        }
    }

    /// Whether it is a fault of this type: the voltages change as in one or a current multiplies,
    /// unless there is inrush and no voltage changes by an eighth, or the current only subsides.
    /// Without voltages: a current rises, without inrush.
    #[tactic(auto, unfolding(crate::specs::Deciding::is_fault))]
    fn is_fault(self, fault: FaultType) -> bool
        requires { spec.IsSmall self }
        ensures { result ≡ spec.is_fault self fault }
    {
        match self.voltages {
            Some(voltages) => {
                (dips(voltages, fault) || self.multiplies())
                    && (!self.is_inrush() || changes_by(voltages, 8))
                    && !self.subsides(voltages, 32)
            }
            None => self.rises() && !self.is_inrush(),
        }
    }

    /// What the disturbance is.
    #[tactic(auto, unfolding(crate::specs::Deciding::kind))]
    pub fn kind(self) -> Kind
        requires { spec.IsSmall self }
        ensures { result ≡ spec.kind self }
    {
        let fault = self.deciding().fault_type();
        if self.is_fault(fault) {
            Kind::Fault(fault)
        } else {
            Kind::Other(self.cause())
        }
    }

    /// Whether the voltages change or sag by about as much as decides: less than twice that in a
    /// fault, half that or more else; or there are none.
    #[tactic(auto, unfolding(crate::specs::Deciding::is_level_near))]
    fn is_level_near(self) -> bool
        requires { spec.IsSmall self }
        ensures { result ≡ spec.is_level_near self }
    {
        let fault = self.deciding().fault_type();
        match self.voltages {
            Some(voltages) if self.is_fault(fault) => {
                !dips_far(voltages, fault) || self.subsides(voltages, 16)
            }
            Some(voltages) => dips_near(voltages, fault) && !self.subsides(voltages, 64),
            None => true,
        }
    }

    /// Whether the voltages have another fault type than the currents.
    #[tactic(auto, unfolding(crate::specs::Deciding::is_contradicted))]
    fn is_contradicted(self) -> bool
        requires { spec.IsSmall self }
        ensures { result ≡ spec.is_contradicted self }
    {
        match self.voltages {
            Some(voltages) => {
                let other = self.currents.change.fault_type();
                voltages.change.fault_type().is_other_than(other)
            }
            None => false,
        }
    }

    /// What makes the kind doubtful. A ratio or the voltages' type play a part in faults only.
    #[tactic(auto, unfolding(crate::specs::Deciding::doubts))]
    pub fn doubts(self) -> Doubts
        requires { spec.IsSmall self }
        ensures { result ≡ spec.doubts self }
    {
        let deciding = self.deciding();
        let is_fault = self.is_fault(deciding.fault_type());
        Doubts {
            ratio: is_fault && deciding.is_near(),
            voltages: is_fault && self.is_contradicted(),
            level: self.is_level_near(),
            missing: !self.is_whole,
        }
    }
}
