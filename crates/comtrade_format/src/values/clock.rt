//! Computes when the rows of a data file were sampled.

ghost use Rattle.std.specs.Prelude.{◌≡◌, ◌<◌, ◌≤◌, ◌*◌, ◌^◌, ℕ, Option, length, IfSome};
ghost use Rattle.comtrade_format.specs.Borders as Borders;
ghost use Rattle.comtrade_format.specs.Times as Times;

use crate::file::{File, Head, Rate};
use crate::parts::head_of;
use crate::values::border::{Border, border_of};
use comtrade_values::Decimal;
use std::alloc::Allocator;

/// 10^zeros. Rates have few places, and computing a power for each row would cost much.
fn ten_to(zeros: u8) -> u128
    requires { zeros < 39 }
    ensures { result ≡ 10 ^ zeros }
{
    match zeros {
        0 => 1,
        9 => 1_000_000_000,
        10 => 10_000_000_000,
        11 => 100_000_000_000,
        12 => 1_000_000_000_000,
        13 => 10_000_000_000_000,
        _ => 10u128.pow(zeros as u32),
    }
}

/// The number's units; None if it is negative.
fn size_of(number: Decimal) -> Option<u128>
    ensures { result ≡ Times.size number.units }
{
    let units = number.units();
    if units < 0 {
        return None;
    }
    Some(units.unsigned_abs())
}

/// The product, if it and both numbers fit in 64 bits.
#[inline(always)]
fn short_product(x: u128, y: u128) -> Option<u64>
    ensures { IfSome result (λ n. n ≡ x * y) }
{
    let x = u64::try_from(x).ok()?;
    let y = u64::try_from(y).ok()?;
    x.checked_mul(y)
}

/// The product, if it fits in 128 bits; nearly all fit in 64.
fn product(x: u128, y: u128) -> Option<u128>
    ensures { result ≡ Times.product x y }
{
    match short_product(x, y) {
        Some(n) => Some(n as u128),
        None => x.checked_mul(y),
    }
}

/// The quotient, rounded down; None if the divisor is 0.
fn quotient(x: u128, y: u128) -> Option<u128>
    ensures { result ≡ Times.quotient x y }
{
    if y == 0 { None } else { Some(x / y) }
}

/// How long `rows` rows take at a rate, in nanoseconds, rounded down. None if the rate isn't above
/// 0 or has more than 29 places, or if the computation exceeds 128 bits.
pub(crate) fn span_of(rate: Decimal, rows: u64) -> Option<u128>
    ensures { result ≡ Times.span rate rows }
{
    let units = size_of(rate)?;
    if 29 < rate.places() {
        return None;
    }
    let nanos = product(rows as u128, ten_to(rate.places() + 9))?;
    quotient(nanos, units)
}

/// The time of a stamp in nanoseconds, rounded down; the stamp times `timemult` is in
/// microseconds. None if `timemult` is negative or has more than 38 places, or if the computation
/// exceeds 128 bits.
pub(crate) fn nanos_of_stamp(timemult: Decimal, stamp: u64) -> Option<u128>
    ensures { result ≡ Times.stamp_time timemult stamp }
{
    let units = size_of(timemult)?;
    if 38 < timemult.places() {
        return None;
    }
    let nanos = product(product(stamp as u128, units)?, 1000)?;
    quotient(nanos, ten_to(timemult.places()))
}

/// The sum of both times, if both exist and it fits in 128 bits.
fn together(x: Option<u128>, y: Option<u128>) -> Option<u128>
    ensures { result ≡ Times.together x y }
{
    x?.checked_add(y?)
}

/// Whether a rate is above 0, so that it gives the times of its rows.
fn is_rate(rate: &Rate) -> bool
    ensures { result ≡ Times.is_rate rate.now }
{
    0 < rate.samp.units()
}

/// Whether every rate is above 0.
pub(crate) fn are_rates(rates: &[Rate]) -> bool
    ensures { result ≡ Times.are_rates rates.now }
{
    for rate in rates {
        if !is_rate(rate) {
            return false;
        }
    }
    true
}

/// The rates of a file, from that of some row on.
#[derive(Clone, Copy, Debug)]
struct Paces<'a> {
    border: Border,
    rates: &'a [Rate],
    /// The time of row `from`, in nanoseconds since the first row.
    begun: Option<u128>,
    /// The row from which the rows of the first of these rates are counted.
    from: u64,
}

/// The row from which the rows of the next rate are counted.
fn counted_from(border: Border, endsamp: u64) -> u64
    ensures { result ≡ Times.counted_from border endsamp }
{
    match border {
        Border::Old => endsamp,
        Border::New => endsamp.saturating_sub(1),
    }
}

/// The rates after the first one.
fn next<'a>(paces: Paces<'a>, rate: &Rate, more: &'a [Rate]) -> Paces<'a>
    ensures { result ≡ Times.after paces.entry rate.now more.entry }
{
    let from = counted_from(paces.border, rate.endsamp);
    let rows = from.saturating_sub(paces.from);
    Paces {
        border: paces.border,
        rates: more,
        begun: together(paces.begun, span_of(rate.samp, rows)),
        from,
    }
}

/// The rates without the ones whose rows all precede `row`.
#[inline(always)] // for each row: to hand its answer over in memory takes as long as to find it
fn past<'a>(paces: Paces<'a>, row: u64) -> Paces<'a>
    ensures since { (later : ℕ) → row ≤ later → Times.since_by result later ≡ Times.since_by paces.entry later }
    ensures first { Times.IsFirst row result.rates.now }
{
    let mut left = paces;
    while let Some((rate, more)) = left.rates.split_first() {
        if row < rate.endsamp {
            return left;
        }
        left = next(left, rate, more);
    }
    left
}

/// The time of the row with this index, from 0, according to the rates.
fn by_rates(paces: Paces<'_>, row: u64) -> Option<u128>
    ensures { result ≡ Times.since_by paces.entry row }
{
    let left = past(paces, row);
    match left.rates.first() {
        Some(rate) => together(
            left.begun,
            span_of(rate.samp, row.saturating_sub(left.from)),
        ),
        None => None,
    }
}

/// The clock of a file: it gives the time of each row. If `nrates` isn't 0 and every rate is above
/// 0, the rates alone decide, even if rows have stamps (C37.111-1999, 5.3.6). Otherwise the stamps
/// decide (5.3.9).
#[derive(Clone, Copy, Debug)]
pub struct Clock<'a> {
    paces: Paces<'a>,
    has_rates: bool,
    timemult: Decimal,
}

/// Whether the rates give the times of all rows.
fn rates_decide<A: Allocator>(head: &Head<A>) -> bool
    ensures { result ≡ Times.rates_decide head.now }
{
    head.nrates != 0 && are_rates(head.rates.items())
}

/// The clock of the file with this head, if this rate gives the interval across each border.
pub fn clock_with<A: Allocator>(head: &Head<A>, border: Border) -> Clock<'_>
    ensures { (row : ℕ) (stamp : Option ℕ)
        → Times.time_by result row stamp ≡ Times.time_with border head.now row stamp }
{
    Clock {
        paces: Paces {
            border,
            rates: head.rates.items(),
            begun: Some(0),
            from: 0,
        },
        has_rates: rates_decide(head),
        timemult: head.timemult,
    }
}

/// The clock of the file with this head, if the old rate gives the interval across each border.
pub fn clock_of<A: Allocator>(head: &Head<A>) -> Clock<'_>
    ensures { (row : ℕ) (stamp : Option ℕ) → Times.time_by result row stamp ≡ Times.time_of head.now row stamp }
{
    clock_with(head, Border::Old)
}

/// The clock of a file. Its stamps show which rate gives the interval across each border.
pub fn clock_in<A: Allocator>(file: &File<A>) -> Clock<'_>
    ensures { (row : ℕ) (stamp : Option ℕ) → Times.time_by result row stamp ≡ Borders.time_in file.now row stamp }
{
    clock_with(head_of(file), border_of(file))
}

impl<'a> Clock<'a> {
    /// The clock from `row` on. It gives the same times for `row` and all later rows, and is faster
    /// if there are many rates.
    pub fn at(&self, row: u64) -> Clock<'a>
        ensures { (later : ℕ) (stamp : Option ℕ) → row ≤ later
            → Times.time_by result later stamp ≡ Times.time_by self.now later stamp }
    {
        Clock {
            paces: past(self.paces, row),
            has_rates: self.has_rates,
            timemult: self.timemult,
        }
    }

    /// The time of the row with this index, from 0, and this stamp. It is in nanoseconds since the
    /// first row, rounded down within each rate.
    ///
    /// None if neither a rate nor a stamp gives the time, or `timemult` is negative. None also if
    /// a rate has more than 29 places, `timemult` has more than 38, or the computation exceeds
    /// 128 bits.
    pub fn nanos(&self, row: u64, stamp: Option<u64>) -> Option<u128>
        ensures { result ≡ Times.time_by self.now row stamp }
    {
        if self.has_rates {
            return by_rates(self.paces, row);
        }
        match stamp {
            Some(stamp) => nanos_of_stamp(self.timemult, stamp),
            None => None,
        }
    }
}
