//! Fault types, by the changes of three phases.

ghost use Rattle.std.specs.Prelude.{◌≡◌, ◌≤◌, IfSome, ℕ};
ghost use Rattle.comtrade_fault.specs.Sizing.{AreSmall, limit};
ghost use Rattle.comtrade_fault.specs.Typing as spec;

use crate::ends::Ends;
use crate::sizes::Changes;

/// The phases that a fault connects; G: and earth.
#[derive(Clone, Copy, Debug, PartialEq, Eq)]
pub enum FaultType {
    AG,
    BG,
    CG,
    AB,
    BC,
    CA,
    ABG,
    BCG,
    CAG,
    ABC,
    ABCG,
}

impl Changes {
    /// The least difference of two phases.
    fn least(self) -> u128
        ensures { result ≡ spec.least self }
    {
        self.ab.min(self.bc).min(self.ca)
    }

    /// The greatest difference of two phases.
    fn greatest(self) -> u128
        ensures { result ≡ spec.greatest self }
    {
        self.ab.max(self.bc).max(self.ca)
    }

    /// Whether the sum of the phases is a twenty-fourth of the greatest difference or more.
    fn has_earth(self) -> bool
        requires { AreSmall self }
        ensures { result ≡ spec.has_earth self }
    {
        self.greatest() <= 24 * self.earth
    }

    /// Whether two phases change alike: their difference is below a quarter of the greatest one.
    fn is_single(self) -> bool
        requires { AreSmall self }
        ensures { result ≡ spec.is_single self }
    {
        4 * self.least() < self.greatest()
    }

    /// Whether all differences are over three quarters of the greatest one.
    fn is_threefold(self) -> bool
        requires { AreSmall self }
        ensures { result ≡ spec.is_threefold self }
    {
        3 * self.greatest() < 4 * self.least()
    }

    /// The phase that changes, where the two others change alike.
    fn single(self) -> FaultType
        ensures { result ≡ spec.single self }
    {
        if self.bc == self.least() {
            FaultType::AG
        } else if self.ca == self.least() {
            FaultType::BG
        } else {
            FaultType::CG
        }
    }

    /// The two phases with the greatest difference.
    fn double(self) -> FaultType
        requires { AreSmall self }
        ensures { result ≡ spec.double self }
    {
        if self.ab == self.greatest() {
            if self.has_earth() {
                FaultType::ABG
            } else {
                FaultType::AB
            }
        } else if self.bc == self.greatest() {
            if self.has_earth() {
                FaultType::BCG
            } else {
                FaultType::BC
            }
        } else if self.has_earth() {
            FaultType::CAG
        } else {
            FaultType::CA
        }
    }

    /// The fault type that the changes have.
    #[tactic(auto, unfolding(crate::specs::Typing::fault_type))]
    pub fn fault_type(self) -> FaultType
        requires { AreSmall self }
        ensures { result ≡ spec.fault_type self }
    {
        if self.is_single() {
            self.single()
        } else if !self.is_threefold() {
            self.double()
        } else if self.has_earth() {
            FaultType::ABCG
        } else {
            FaultType::ABC
        }
    }

    /// Whether the sum of the phases is a forty-eighth to a sixteenth of the greatest difference.
    fn is_earth_near(self) -> bool
        requires { AreSmall self }
        ensures { result ≡ spec.is_earth_near self }
    {
        let greatest = self.greatest();
        greatest <= 48 * self.earth && 16 * self.earth < greatest
    }

    /// Whether a ratio that decides the type is near its bound.
    #[tactic(auto, unfolding(crate::specs::Typing::is_near))]
    pub fn is_near(self) -> bool
        requires { AreSmall self }
        ensures { result ≡ spec.is_near self }
    {
        let least = self.least();
        let greatest = self.greatest();
        if self.is_single() {
            greatest < 7 * least || 4 * self.earth < greatest
        } else if self.is_threefold() {
            20 * least < 17 * greatest || self.is_earth_near()
        } else {
            3 * least < greatest || 13 * greatest < 20 * least || self.is_earth_near()
        }
    }
}

/// The later of two rows, where there are both.
fn later(one: Option<usize>, other: Option<usize>) -> Option<usize>
    ensures { result ≡ spec.later one other }
{
    match (one, other) {
        (Some(one), Some(other)) => Some(one.max(other)),
        _ => None,
    }
}

impl FaultType {
    /// Whether all three phases take part.
    pub fn is_threefold(self) -> bool
        ensures { result ≡ spec.of_three self }
    {
        matches!(self, FaultType::ABC | FaultType::ABCG)
    }

    /// Whether earth takes part.
    pub fn has_earth(self) -> bool
        ensures { result ≡ spec.to_earth self }
    {
        !matches!(
            self,
            FaultType::AB | FaultType::BC | FaultType::CA | FaultType::ABC
        )
    }

    /// The last end of the phases that take part; None where one has none.
    #[tactic(auto, unfolding(crate::specs::Typing::last_end))]
    pub fn end(self, ends: Ends) -> Option<usize>
        ensures { result ≡ spec.last_end self ends }
    {
        match self {
            FaultType::AG => ends.a,
            FaultType::BG => ends.b,
            FaultType::CG => ends.c,
            FaultType::AB | FaultType::ABG => later(ends.a, ends.b),
            FaultType::BC | FaultType::BCG => later(ends.b, ends.c),
            FaultType::CA | FaultType::CAG => later(ends.c, ends.a),
            FaultType::ABC | FaultType::ABCG => later(later(ends.a, ends.b), ends.c),
        }
    }

    /// Its place among the types.
    fn index(self) -> u8
        ensures { result ≡ spec.index self }
    {
        match self {
            FaultType::AG => 0,
            FaultType::BG => 1,
            FaultType::CG => 2,
            FaultType::AB => 3,
            FaultType::BC => 4,
            FaultType::CA => 5,
            FaultType::ABG => 6,
            FaultType::BCG => 7,
            FaultType::CAG => 8,
            FaultType::ABC => 9,
            FaultType::ABCG => 10,
        }
    }

    /// Whether it is another type.
    pub fn is_other_than(self, other: FaultType) -> bool
        ensures { result ≡ spec.is_other_type self other }
    {
        self.index() != other.index()
    }
}
