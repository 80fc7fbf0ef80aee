//! Levels in samples, and windows in scans.

ghost use Rattle.std.specs.Prelude.{◌≡◌, ◌≤◌, ◌*◌, ◌^◌, IfSome};
ghost use Rattle.dfr_detect.specs.Cycles.{cycle_fault, window_of};
ghost use Rattle.dfr_setup.specs.Quantities as spec;

use crate::Test;
use crate::tested::{is_frequency, is_share};
use comtrade_values::Decimal;
use dfr_detect::cycle_scans;

/// The number with so many zeros; None if that is over 128 bits.
#[tactic(auto, using(crate::proofs::Zeros::power_below, crate::proofs::Zeros::some_left))]
fn with_zeros(number: u128, zeros: u8) -> Option<u128>
    requires { 1 ≤ number }
    ensures value { result ≡ spec.short (number * 10 ^ zeros) }
    ensures some { IfSome result (λ n. 1 ≤ n) }
{
    let power = 10u128.checked_pow(u32::from(zeros))?;
    number.checked_mul(power)
}

/// The number, if it is 1 to `most`.
fn within(n: u128, most: u64) -> Option<u64>
    ensures value { result ≡ spec.within n most }
    ensures bound { IfSome result (λ x. x ≤ most) }
{
    if 1 <= n && n <= u128::from(most) {
        Some(n as u64)
    } else {
        None
    }
}

/// The quotient, rounded to the side on which the detector fires later.
fn rounded(test: Test, value: u128, one: u128) -> u128
    requires { 1 ≤ one }
    ensures { result ≡ spec.rounded test value one }
{
    match test {
        Test::RmsUnder | Test::FrequencyUnder | Test::SequenceUnder(_) => value / one,
        _ => value.div_ceil(one),
    }
}

/// Whether the level is above 0, and there is a multiplier.
fn has_quotient(level: Decimal, a: Decimal) -> bool
    ensures { result ≡ spec.has_quotient level a }
{
    0 < level.units() && a.units().unsigned_abs() != 0
}

/// A unit with so many decimal places.
fn unit(places: u8) -> Decimal
    requires { places ≤ 3 }
    ensures { result ≡ spec.unit places }
{
    let Some(one) = Decimal::new(1, places) else {
        unreachable!()
    };
    one
}

/// What a level is counted in: samples, by the channels' multiplier `a`, mHz, or tenths of a percent.
pub(crate) fn one_of(test: Test, a: Decimal) -> Decimal
    ensures { result ≡ spec.one_of test a }
{
    if is_frequency(test) {
        unit(3)
    } else if is_share(test) {
        unit(1)
    } else {
        a
    }
}

/// A level counted in `a`: 1 to `most`. None otherwise.
pub(crate) fn level_in(test: Test, level: Decimal, a: Decimal, most: u64) -> Option<u64>
    ensures { result ≡ spec.level_in test level a most }
{
    if !has_quotient(level, a) {
        return None;
    }
    let value = with_zeros(level.units().unsigned_abs(), a.places())?;
    let one = with_zeros(a.units().unsigned_abs(), level.places())?;
    within(rounded(test, value, one), most)
}

/// The greatest value of a test, by the largest sample and the rate.
pub(crate) fn reach(test: Test, largest: u64, rate: u32) -> u64
    requires { largest ≤ 2 ^ 40 }
    ensures { result ≡ spec.reach test largest rate }
{
    match test {
        Test::RmsOver | Test::RmsUnder => largest,
        Test::SequenceOver(_) | Test::SequenceUnder(_) => largest,
        Test::Harmonic(_) | Test::Unbalance => 1000,
        Test::Change => 2 * largest,
        Test::Jump => 4 * largest,
        Test::FrequencyOver | Test::FrequencyUnder => 500 * u64::from(rate),
        Test::FrequencyChange => 2_147_483_648,
    }
}

/// How deep a half wave is at least, or how large a wave, in samples, by the channels' multiplier `a`.
pub(crate) fn least_in(test: Test, least: Decimal, a: Decimal, largest: u64) -> Option<u64>
    ensures { result ≡ spec.least_in test least a largest }
{
    if is_frequency(test) || is_share(test) {
        level_in(Test::RmsOver, least, a, largest)
    } else {
        Some(1)
    }
}

/// Over how many cycles a frequency is taken: 1 to 64. None otherwise.
pub(crate) fn cycles_in(cycles: u32) -> Option<u32>
    ensures value { result ≡ spec.within cycles 64 }
    ensures bound { IfSome result (λ n. n ≤ 64) }
{
    let cycles = within(u128::from(cycles), 64)?;
    Some(cycles as u32)
}

/// How many periods of the line a window has. Of a frequency: twice the cycles that are looked at.
pub(crate) fn periods(test: Test, cycles: u32) -> u32
    requires { cycles ≤ 64 }
    ensures { result ≡ spec.periods test cycles }
{
    match test {
        Test::FrequencyOver | Test::FrequencyUnder => 2 * cycles,
        Test::FrequencyChange => 4 * cycles,
        _ => 1,
    }
}

/// The scans nearest to so many periods: 1 to 65,536. None otherwise.
fn periods_in(count: u32, rate: u32, freq: Decimal) -> Option<u32>
    ensures { result ≡ spec.unless_fault (cycle_fault rate count freq) (window_of rate count freq) }
{
    match cycle_scans(rate, count, freq) {
        Ok(scans) => Some(scans.nearest),
        Err(_) => None,
    }
}

/// The scans of a window, which is so many periods if none is given: 1 to 65,536. None otherwise.
pub(crate) fn window_in(window: Option<u32>, count: u32, rate: u32, freq: Decimal) -> Option<u32>
    ensures { result ≡ spec.window_in window count rate freq }
{
    let Some(n) = window else {
        return periods_in(count, rate, freq);
    };
    let scans = within(u128::from(n), 65_536)?;
    Some(scans as u32)
}
