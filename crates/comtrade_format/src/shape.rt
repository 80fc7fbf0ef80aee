//! Checks that the parts of a file match each other and keep to the limits of the format.

ghost use Rattle.std.specs.Prelude.{◌≡◌};
ghost use Rattle.std.specs.List.{list_all};
ghost use Rattle.comtrade_format.specs.Shape as spec;

use crate::file::{File, Head, Rate, Row};
use crate::parts::{analog_of, head_of, rows_of, status_of};
use dfr_channels::AnalogChannel;
use std::alloc::Allocator;

/// Whether there are 1 to 999,999 channels in total.
fn channels_fit(k: usize, m: usize) -> bool
    ensures { result ≡ spec.channels_fit k m }
{
    k < 1_000_000 && m < 1_000_000 - k && 0 < k + m
}

/// Whether there are `nrates` rates, or one if that is 0, and at most 999.
fn rates_counted<A: Allocator>(h: &Head<A>) -> bool
    ensures { result ≡ spec.rates_counted h.now }
{
    let lines = if h.nrates > 0 { h.nrates } else { 1 };
    h.nrates <= 999 && h.rates.items().len() == lines as usize
}

/// The last `endsamp`; None if one is below the one before it or over 9,999,999,999.
fn rates_end(rates: &[Rate]) -> Option<u64>
    ensures { result ≡ spec.rates_end 0 rates.now }
{
    let mut last = 0;
    for rate in rates {
        if !(last <= rate.endsamp && rate.endsamp <= 9_999_999_999) {
            return None;
        }
        last = rate.endsamp;
    }
    Some(last)
}

fn is_some_of(end: Option<u64>, n: u64) -> bool
    ensures { result ≡ spec.is_some_of end n }
{
    match end {
        Some(e) => e == n,
        None => false,
    }
}

fn is_counted<A: Allocator>(h: &Head<A>, n: u64) -> bool
    ensures { result ≡ spec.is_some_of (spec.rates_end 0 h.now.rates) n }
{
    is_some_of(rates_end(h.rates.items()), n)
}

/// Whether an instant is in the years 1 to 9999.
fn is_writable(instant: i64) -> bool
    ensures { result ≡ spec.is_writable instant }
{
    -62_135_596_800_000_000 <= instant && instant <= 253_402_300_799_999_999
}

fn in_bounds(x: i32) -> bool
    ensures { result ≡ spec.in_bounds x }
{
    -99_999 <= x && x <= 99_999
}

fn has_bounds<A: Allocator>(a: &AnalogChannel<A>) -> bool
    ensures { result ≡ spec.has_bounds a.now }
{
    in_bounds(a.min) && in_bounds(a.max)
}

fn have_bounds<A: Allocator>(channels: &[AnalogChannel<A>]) -> bool
    ensures { result ≡ list_all spec.has_bounds channels.now }
{
    channels.iter().all(|a| has_bounds(a))
}

fn instants_fit<A: Allocator>(h: &Head<A>) -> bool
    ensures { result ≡ spec.instants_fit h.now }
{
    is_writable(h.first) && is_writable(h.trigger)
}

#[tactic(auto, unfolding(crate::specs::Shape::head_shaped))]
fn head_shaped<A: Allocator>(h: &Head<A>) -> bool
    ensures { result ≡ spec.head_shaped h.now }
{
    if !channels_fit(analog_of(h).len(), status_of(h).len()) {
        return false;
    }
    if !rates_counted(h) {
        return false;
    }
    if !instants_fit(h) {
        return false;
    }
    have_bounds(analog_of(h))
}

fn row_shaped<A: Allocator>(k: usize, m: usize, row: &Row<A>) -> bool
    ensures { result ≡ spec.row_shaped k m row.now }
{
    row.values.items().len() == k && row.bits.items().len() == m
}

fn rows_shaped<A: Allocator>(h: &Head<A>, rows: &[Row<A>]) -> bool
    ensures { result ≡ spec.rows_shaped h.now rows.now }
{
    let k = analog_of(h).len();
    let m = status_of(h).len();
    rows.iter().all(|row| row_shaped(k, m, row))
}

/// Whether the parts of the file match each other, and its counts, instants and bounds are
/// in range.
#[tactic(auto, unfolding(crate::specs::Shape::is_shaped))]
pub(crate) fn is_shaped<A: Allocator>(file: &File<A>) -> bool
    ensures { result ≡ spec.is_shaped file.now }
{
    let head = head_of(file);
    let rows = rows_of(file);
    if !head_shaped(head) {
        return false;
    }
    if !is_counted(head, rows.len() as u64) {
        return false;
    }
    rows_shaped(head, rows)
}
