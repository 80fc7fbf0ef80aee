//! How many scans some cycles of the line take.

ghost use Rattle.std.specs.Prelude.{◌≡◌, ◌≤◌, ◌<◌, ◌+◌, ◌*◌, ◌^◌, Some, None, IfOk, IfErr};
ghost use Rattle.dfr_detect.specs.Cycles as spec;
ghost use Rattle.dfr_detect.specs.Cycles.{AreCycleScans};

use comtrade_values::Decimal;
use thiserror::Error;

/// How many scans some cycles take: exactly `whole + part / of`, where `part` is less than `of`.
#[derive(Clone, Copy, Debug, PartialEq, Eq)]
pub struct CycleScans {
    /// The nearest whole number, the larger of two: the window for these cycles.
    pub nearest: u32,
    /// The whole scans.
    pub whole: u128,
    /// The rest.
    pub part: u128,
    /// What the rest is in units of.
    pub of: u128,
}

/// Why there is no window of some cycles, in the order of the tests.
#[derive(Clone, Copy, Debug, PartialEq, Eq, Error)]
pub enum CycleFault {
    /// The frequency is not above 0.
    #[error("the line frequency is above 0")]
    Frequency,
    /// The frequency has too many decimal places.
    #[error("the line frequency has at most 18 decimal places")]
    Places,
    /// The cycles take too few scans, or too many.
    #[error("a window has 1 to 65536 scans")]
    Length,
}

/// The rate times the cycles, without the frequency's decimal places.
fn scans_times(rate: u32, cycles: u32, places: u8) -> u128
    requires { places ≤ 18 }
    ensures value { result ≡ spec.scans_times rate cycles places }
    ensures bound { result < 2 ^ 125 }
{
    u128::from(rate) * u128::from(cycles) * 10u128.pow(u32::from(places))
}

/// The nearest whole number of scans.
fn nearest(whole: u128, part: u128, of: u128) -> u128
    requires whole { whole < 2 ^ 127 }
    requires part { part < 2 ^ 127 }
    ensures { result ≡ spec.rounded whole part of }
{
    if 2 * part < of { whole } else { whole + 1 }
}

/// How many scans so many cycles of a line frequency take at a rate, in scans a second.
pub fn cycle_scans(rate: u32, cycles: u32, frequency: Decimal) -> Result<CycleScans, CycleFault>
    ensures scans { IfOk result (λ scans. AreCycleScans rate cycles frequency scans) }
    ensures nearest { IfOk result (λ scans. scans.nearest ≡ spec.window_of rate cycles frequency) }
    ensures fits { IfOk result (λ _. spec.cycle_fault rate cycles frequency ≡ None) }
    ensures err { IfErr result (λ fault. spec.cycle_fault rate cycles frequency ≡ Some fault) }
{
    let units = frequency.units();
    if units <= 0 {
        return Err(CycleFault::Frequency);
    }
    if frequency.places() > 18 {
        return Err(CycleFault::Places);
    }
    let of = units.unsigned_abs();
    let times = scans_times(rate, cycles, frequency.places());
    let (whole, part) = (times / of, times % of);
    let scans = nearest(whole, part, of);
    if scans < 1 || scans > 65_536 {
        return Err(CycleFault::Length);
    }
    Ok(CycleScans {
        nearest: scans as u32,
        whole,
        part,
        of,
    })
}
