//! How many rows a cycle of the line frequency has.

ghost use Rattle.std.specs.Prelude.{◌≡◌, ◌+◌, ◌-◌, ◌*◌, ◌/◌, ◌^◌, ◌<◌, ◌≤◌, ◌≤ℤ◌, pos, IfOk, IfSome, unsigned_abs};
ghost use Rattle.std.specs.Int.{IsGcd};
ghost use Rattle.comtrade_format.specs.Cycles.{Lasts};

use comtrade_values::Decimal;
use std::num::nearest_u64_to_f64;

/// Why `cycle_of` has no result.
#[derive(Clone, Copy, Debug, PartialEq, Eq)]
pub enum CycleFault {
    /// The line frequency isn't above 0.
    NoFrequency,
    /// The rate isn't above 0.
    NoRate,
    /// The computation exceeds 128 bits, or the quotient in lowest terms needs more than 64.
    Digits,
    /// A cycle has fewer than 3 rows.
    Slow,
}

/// The length of a cycle: `cycles` cycles of the line frequency last exactly `rows` rows. From
/// `cycle_of` there are at least 3 rows per cycle.
#[derive(Clone, Copy, Debug, PartialEq, Eq)]
pub struct Cycle {
    pub cycles: u64,
    pub rows: u64,
}

/// The greatest common divisor. Numbers of 128 bits take at most 185 steps.
fn common(x: u128, y: u128) -> u128
    ensures { IsGcd x y result }
{
    let mut greater = x;
    let mut less = y;
    while less != 0 {
        let rest = greater % less;
        greater = less;
        less = rest;
    }
    greater
}

/// The number times 10^zeros, if it fits in 128 bits.
fn with_zeros(number: u128, zeros: u8) -> Option<u128>
    ensures { IfSome result (λ n. n ≡ number * 10 ^ zeros) }
{
    let mut long = number;
    for i in 0..zeros {
        long = long.checked_mul(10)?;
    }
    Some(long)
}

/// The number's size in units of the last place that either number has, if it fits in 128 bits.
fn size_beside(number: Decimal, other: Decimal) -> Option<u128>
    ensures { IfSome result (λ n. n ≡ unsigned_abs number.units * 10 ^ (other.places - number.places)) }
{
    let zeros = other.places().saturating_sub(number.places());
    with_zeros(number.units().unsigned_abs(), zeros)
}

/// The quotient in lowest terms, if both of its numbers fit in 64 bits.
fn reduced(cycles: u128, rows: u128) -> Option<Cycle>
    requires { 0 < cycles }
    ensures { IfSome result (λ cycle. cycle.cycles * rows ≡ cycle.rows * cycles) }
{
    let divisor = common(cycles, rows);
    if divisor == 0 {
        return None;
    }
    Some(Cycle {
        cycles: u64::try_from(cycles / divisor).ok()?,
        rows: u64::try_from(rows / divisor).ok()?,
    })
}

/// Rows per second over cycles per second.
fn quotient_of(frequency: Decimal, rate: Decimal) -> Option<Cycle>
    ensures { IfSome result (λ cycle. Lasts frequency rate cycle.cycles cycle.rows) }
{
    let cycles = size_beside(frequency, rate)?;
    let rows = size_beside(rate, frequency)?;
    if cycles == 0 {
        return None;
    }
    reduced(cycles, rows)
}

/// The cycle of a line frequency in Hz at a rate in scans per second (C37.111-1999, 5.3.5, 5.3.6).
/// Errors, in this order: `NoFrequency`, `NoRate`, `Digits`, `Slow`.
pub fn cycle_of(frequency: Decimal, rate: Decimal) -> Result<Cycle, CycleFault>
    ensures exact { IfOk result (λ cycle. Lasts frequency rate cycle.cycles cycle.rows) }
    ensures slow { IfOk result (λ cycle. (0 < cycle.cycles) × (3 * cycle.cycles ≤ cycle.rows)) }
    ensures no_frequency { result ≡ Err CycleFault.NoFrequency → frequency.units ≤ℤ pos 0 }
    ensures no_rate { result ≡ Err CycleFault.NoRate → rate.units ≤ℤ pos 0 }
{
    if frequency.units() <= 0 {
        return Err(CycleFault::NoFrequency);
    }
    if rate.units() <= 0 {
        return Err(CycleFault::NoRate);
    }
    let Some(cycle) = quotient_of(frequency, rate) else {
        return Err(CycleFault::Digits);
    };
    if cycle.cycles == 0 || cycle.rows / 3 < cycle.cycles {
        return Err(CycleFault::Slow);
    }
    Ok(cycle)
}

impl Cycle {
    /// The rows in this many cycles, rounded down.
    pub fn rows_in(self, cycles: u64) -> u128
        ensures { 0 < self.cycles → result ≡ cycles * self.rows / self.cycles }
    {
        cycles as u128 * self.rows as u128 / self.cycles.max(1) as u128
    }

    /// The most cycles whose rows, rounded down, are at most this many.
    pub fn cycles_in(self, rows: u64) -> u128
        ensures { 0 < self.cycles → 0 < self.rows → result ≡ ((rows + 1) * self.cycles - 1) / self.rows }
    {
        ((rows as u128 + 1) * self.cycles as u128).saturating_sub(1) / self.rows.max(1) as u128
    }

    /// The fraction of a row that a cycle has in addition to its whole rows.
    pub fn part(self) -> f64 {
        let rest = self.rows % self.cycles.max(1);
        nearest_u64_to_f64(rest) / nearest_u64_to_f64(self.cycles)
    }
}
