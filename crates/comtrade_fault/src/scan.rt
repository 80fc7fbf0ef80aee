//! The samples of three phases in a row, and the quantities that they give.

ghost use Rattle.std.specs.Prelude.{◌≡◌, ◌*◌, ◌^◌, ◌≤◌};
ghost use Rattle.comtrade_fault.specs.Levels as spec;

/// The samples of phases A, B and C in a row, each raised by 2^31, so that none is below 0. Where
/// any of the three is missing, `is_known` is false, and all three are `ZERO`.
#[derive(Clone, Copy, Debug, PartialEq, Eq)]
pub struct Scan {
    pub is_known: bool,
    pub a: u32,
    pub b: u32,
    pub c: u32,
}

/// The sample 0, raised by 2^31.
pub const ZERO: u32 = 0x8000_0000;

/// A row in which each sample is 0.
pub const NOTHING: Scan = Scan {
    is_known: false,
    a: ZERO,
    b: ZERO,
    c: ZERO,
};

/// Whole numbers that stand to one another as the factors of three channels: the samples times
/// these have one common unit, the step.
#[derive(Clone, Copy, Debug, PartialEq, Eq)]
pub struct Weights {
    pub a: u64,
    pub b: u64,
    pub c: u64,
}

/// A quantity of three phases: a phase, the difference of two, or the sum of all (3I0, 3U0).
#[derive(Clone, Copy, Debug, PartialEq, Eq)]
pub enum Signal {
    A,
    B,
    C,
    AB,
    BC,
    CA,
    Earth,
}

/// A sample times its weight.
fn product(weight: u64, sample: u32) -> u128
    ensures value { result ≡ weight * sample }
    ensures small { result ≤ 2 ^ 96 }
{
    weight as u128 * sample as u128
}

/// What counts for a quantity in a row, in steps: the value is this less `minus_of`.
pub fn plus_of(weights: Weights, signal: Signal, scan: Scan) -> u128
    ensures value { result ≡ spec.plus weights signal scan }
    ensures small { result ≤ 3 * 2 ^ 96 }
{
    let a = product(weights.a, scan.a);
    let b = product(weights.b, scan.b);
    let c = product(weights.c, scan.c);
    match signal {
        Signal::A | Signal::AB => a,
        Signal::B | Signal::BC => b,
        Signal::C | Signal::CA => c,
        Signal::Earth => a + b + c,
    }
}

/// What counts against a quantity in a row, in steps.
pub fn minus_of(weights: Weights, signal: Signal, scan: Scan) -> u128
    ensures value { result ≡ spec.minus weights signal scan }
    ensures small { result ≤ 3 * 2 ^ 96 }
{
    match signal {
        Signal::AB => product(weights.b, scan.b),
        Signal::BC => product(weights.c, scan.c),
        Signal::CA => product(weights.a, scan.a),
        Signal::A | Signal::B | Signal::C | Signal::Earth => 0,
    }
}
