//! Finds which rate gives the interval between the last row of one rate and the first row of the
//! next.

ghost use Rattle.std.specs.Prelude.{◌≡◌, ◌+◌, ◌≤◌, ◌==◌, ◌&&◌, ◌||◌, not, nat_lt, ℕ, Option, length};
ghost use Rattle.comtrade_format.specs.Parts.{HeadParts};
ghost use Rattle.comtrade_format.specs.Borders as Borders;
ghost use Rattle.comtrade_format.specs.Times as Times;

use crate::file::{File, Head, Rate};
use crate::parts::{head_of, rows_of};
use crate::values::clock::{are_rates, nanos_of_stamp, span_of};
use comtrade_values::Decimal;
use std::alloc::Allocator;

/// Which rate gives the interval between the last row of one rate and the first row of the next.
/// The standard leaves it open (C37.111-1999, 5.3.6), and files have both.
#[derive(Clone, Copy, Debug, PartialEq, Eq)]
pub enum Border {
    /// The rate of the last row.
    Old,
    /// The rate of the first row.
    New,
}

/// The rates without the ones whose rows all precede `row`.
#[inline(always)]
fn rates_from(rates: &[Rate], row: u64) -> &[Rate]
    ensures same { (later : ℕ) → row ≤ later
        → Borders.rate_at result.now later ≡ Borders.rate_at rates.now later }
    ensures first { Times.IsFirst row result.now }
{
    let mut left = rates;
    while let Some((rate, more)) = left.split_first() {
        if row < rate.endsamp {
            return left;
        }
        left = more;
    }
    left
}

/// How long one row at the rate of `row` lasts, in nanoseconds.
#[inline(always)]
fn interval_in(rates: &[Rate], row: u64) -> Option<u128>
    requires { Times.IsFirst row rates.now }
    ensures { result ≡ Borders.interval_at rates.now row }
{
    match rates.first() {
        Some(rate) => span_of(rate.samp, 1),
        None => None,
    }
}

/// The time of a row by its stamp.
#[inline(always)]
fn stamped(timemult: Decimal, stamp: Option<u64>) -> Option<u128>
    ensures { result ≡ Borders.stamped timemult stamp }
{
    match stamp {
        Some(stamp) => nanos_of_stamp(timemult, stamp),
        None => None,
    }
}

/// Whether a step from one row to the next is about an interval of the next, and nearer to it than
/// to the interval of the row before, if that is another one.
fn is_step(old: u128, own: u128, step: u128) -> bool
    ensures { result ≡ Borders.is_step old own step }
{
    let off = step.abs_diff(own);
    0 < own && off <= own / 2 && (own == old || off < step.abs_diff(old))
}

/// Whether two consecutive rows with these intervals and times are one interval of the second
/// apart. False if one of these isn't known.
fn follows(old: Option<u128>, own: Option<u128>, from: Option<u128>, to: Option<u128>) -> bool
    ensures { result ≡ Borders.follows old own from to }
{
    let Some(old) = old else {
        return false;
    };
    let Some(own) = own else {
        return false;
    };
    let Some(from) = from else {
        return false;
    };
    let Some(to) = to else {
        return false;
    };
    from <= to && is_step(old, own, to.saturating_sub(from))
}

/// The same of the row with this index and the one before. The first row always fits.
fn fits_at(
    row: u64,
    old: Option<u128>,
    own: Option<u128>,
    from: Option<u128>,
    to: Option<u128>,
) -> bool
    ensures { result ≡ (row == 0 || Borders.follows old own from to) }
{
    row == 0 || follows(old, own, from, to)
}

/// Whether both intervals are known and differ.
fn differ(old: Option<u128>, own: Option<u128>) -> bool
    ensures { result ≡ Borders.differ old own }
{
    match old {
        Some(old) => match own {
            Some(own) => own != old,
            None => false,
        },
        None => false,
    }
}

/// Whether there are several rates, all above 0, and the file counts them.
fn can_have_borders(rates: &[Rate], are_counted: bool) -> bool
    ensures { result ≡ (nat_lt 1 (length rates.now) && (are_counted && Times.are_rates rates.now)) }
{
    1 < rates.len() && are_counted && are_rates(rates)
}

/// Whether there are several rates, all above 0, in a file with this head.
fn has_borders<A: Allocator>(head: &Head<A>) -> bool
    ensures { result ≡ Borders.has_borders head.now }
{
    can_have_borders(head.rates.items(), head.nrates != 0)
}

/// A search through the rows of a file for what their stamps show about the borders between rates.
#[derive(Clone, Copy, Debug)]
pub struct BorderSearch<'a> {
    left: &'a [Rate],
    timemult: Decimal,
    has_borders: bool,
    /// The interval and the time of the last row.
    interval: Option<u128>,
    time: Option<u128>,
    /// Each row follows the one before.
    fits: bool,
    /// Some row has another interval than the one before.
    changes: bool,
}

/// The search before the first row of a file with these rates and this factor of its stamps.
/// `are_counted` is false if the file's number of rates is 0.
pub fn search_in(rates: &[Rate], are_counted: bool, timemult: Decimal) -> BorderSearch<'_>
    ensures { (head : HeadParts) (stamps : ℕ → Option ℕ) → rates.now ≡ head.rates
        → are_counted ≡ not (head.nrates == 0) → timemult ≡ head.timemult
        → Borders.Seen head stamps 0 result }
{
    BorderSearch {
        left: rates,
        timemult,
        has_borders: can_have_borders(rates, are_counted),
        interval: None,
        time: None,
        fits: true,
        changes: false,
    }
}

/// The search before the first row of the file with this head.
pub fn search_of<A: Allocator>(head: &Head<A>) -> BorderSearch<'_>
    ensures { (stamps : ℕ → Option ℕ) → Borders.Seen head.now stamps 0 result }
{
    search_in(head.rates.items(), head.nrates != 0, head.timemult)
}

impl<'a> BorderSearch<'a> {
    /// The search after the next row, which has this index, from 0, and this stamp.
    #[inline(always)]
    pub fn after(self, row: u64, stamp: Option<u64>) -> BorderSearch<'a>
        ensures { (head : HeadParts) (stamps : ℕ → Option ℕ) → Borders.Seen head stamps row self.entry
            → stamp ≡ stamps row → Borders.Seen head stamps (row + 1) result }
    {
        let left = rates_from(self.left, row);
        let interval = interval_in(left, row);
        let time = stamped(self.timemult, stamp);
        let fits = fits_at(row, self.interval, interval, self.time, time);
        let differ = differ(self.interval, interval);
        BorderSearch {
            left,
            timemult: self.timemult,
            has_borders: self.has_borders,
            interval,
            time,
            fits: self.fits & fits,
            changes: self.changes | differ,
        }
    }

    /// What the stamps of all rows show: the new rate, if each row follows the one before by the
    /// interval of its own rate, also across a border. Otherwise the old rate.
    pub fn border(self) -> Border
        ensures { (head : HeadParts) (stamps : ℕ → Option ℕ) (rows : ℕ)
            → Borders.Seen head stamps rows self.entry → result ≡ Borders.border head rows stamps }
    {
        if self.has_borders && self.fits && self.changes {
            Border::New
        } else {
            Border::Old
        }
    }
}

/// Which rate gives the interval across the borders of a file, by the stamps of all rows.
pub fn border_of<A: Allocator>(file: &File<A>) -> Border
    ensures { result ≡ Borders.border_in file.now }
{
    let head = head_of(file);
    if !has_borders(head) {
        return Border::Old;
    }
    let mut search = search_of(head);
    for (i, row) in rows_of(file).iter().enumerate() {
        search = search.after(i as u64, row.stamp);
    }
    search.border()
}
