//! What the files of a record show of its instants. The recorder knows the instants of its set-up.
//! Where the clock dates a record, the last lines of its configuration file are written anew.

ghost use Rattle.std.specs.Prelude.{◌≡◌, ◌≤◌, ◌++◌, ◌∷◌, ◌-◌, ◌^◌, true, [], length, IfOk, OnOk};
ghost use Rattle.comtrade_format.specs.Cfg.{kind_text};
ghost use Rattle.comtrade_format.specs.Lines.{line};
ghost use Rattle.comtrade_format.specs.Shape.{is_writable};
ghost use Rattle.comtrade_values.specs.Dates.{instant_fields};
ghost use Rattle.comtrade_values.specs.Written.{decimal_text};
ghost use Rattle.comtrade_write.specs.OfRecord.{whole};
ghost use Rattle.dfr_channels.specs.Scans.{micros as spec_micros};
ghost use Rattle.dfr_station.specs.Dated as spec;

use comtrade_values::{Decimal, has_date, put_decimal, put_instant};
use comtrade_write::Kind;
use dfr_channels::Layout;
use dfr_recorder::Extent;
use std::alloc::{AllocError, Allocator};

/// The end of the year 9999, in microseconds since 1970-01-01 00:00:00.
const LAST: u128 = 253_402_300_799_999_999;

/// The instants that the files of a record show, in microseconds since 1970-01-01 00:00:00.
#[derive(Clone, Copy, Debug, PartialEq, Eq)]
pub(crate) struct Shown {
    pub(crate) first: i64,
    pub(crate) trigger: i64,
}

/// A record that is shown as if scan 0 had been at `start`.
#[derive(Clone, Copy, Debug, PartialEq, Eq)]
pub(crate) struct Redated {
    pub(crate) start: u128,
    /// Its instants by the set-up.
    pub(crate) was: Shown,
    /// Its instants by that start.
    pub(crate) is: Shown,
}

/// The microseconds from scan 0 to scan k.
fn micros(rate: u32, k: u64) -> u128
    requires rate { 1 ≤ rate }
    ensures value { result ≡ spec_micros rate k }
    ensures bound { result ≤ 2 ^ 84 }
{
    u128::from(k) * 1_000_000 / u128::from(rate)
}

/// The instant of scan k, if scan 0 was at `start`.
fn instant_from(rate: u32, start: u128, k: u64) -> Option<i64>
    requires rate { 1 ≤ rate }
    requires start { start ≤ 253_402_300_799_999_999 }
    ensures { result ≡ spec.instant_from rate start k }
{
    let instant = start + micros(rate, k);
    if instant <= LAST {
        Some(instant as i64)
    } else {
        None
    }
}

/// The instant, if its year is from 1 to 9999.
fn writable(instant: Option<i64>) -> Option<i64>
    ensures { result ≡ spec.writable instant }
{
    match instant {
        Some(instant) if has_date(instant) => Some(instant),
        _ => None,
    }
}

/// Both instants, if there are both.
fn shown_at(first: Option<i64>, trigger: Option<i64>) -> Option<Shown>
    ensures { result ≡ spec.shown_at first trigger }
{
    match (first, trigger) {
        (Some(first), Some(trigger)) => Some(Shown { first, trigger }),
        _ => None,
    }
}

/// What the files of a record show by the set-up.
fn shown_before<A: Allocator>(layout: &Layout<A>, extent: Extent) -> Option<Shown>
    ensures { result ≡ spec.shown_under layout.now extent }
{
    let first = writable(layout.instant(extent.first));
    let trigger = writable(layout.instant(extent.trigger));
    shown_at(first, trigger)
}

/// What they show if scan 0 was at `start`.
fn shown_from(rate: u32, start: u128, extent: Extent) -> Option<Shown>
    requires rate { 1 ≤ rate }
    requires start { start ≤ 253_402_300_799_999_999 }
    ensures { result ≡ spec.shown_from rate start extent }
{
    let first = writable(instant_from(rate, start, extent.first));
    let trigger = writable(instant_from(rate, start, extent.trigger));
    shown_at(first, trigger)
}

/// The change from the one to the other, if both can be shown.
fn change_of(start: u128, was: Option<Shown>, is: Option<Shown>) -> Option<Redated>
    ensures { result ≡ spec.change_of start was is }
{
    match (was, is) {
        (Some(was), Some(is)) => Some(Redated { start, was, is }),
        _ => None,
    }
}

/// How a record is shown whose trigger has this date, in microseconds since 1970-01-01 00:00:00. None:
/// as by the set-up.
pub(crate) fn redated_by<A: Allocator>(
    layout: &Layout<A>,
    extent: Extent,
    date: u128,
) -> Option<Redated>
    ensures { result ≡ spec.redated_by layout.now extent date }
{
    let rate = layout.rate();
    let before = micros(rate, extent.trigger);
    if date < before || LAST < date {
        return None;
    }
    let start = date - before;
    let was = shown_before(layout, extent);
    let is = shown_from(rate, start, extent);
    change_of(start, was, is)
}

#[tactic(auto, unfolding(comtrade_format::specs::Lines::line, comtrade_values::specs::Dates::instant_text, comtrade_values::specs::Dates::instant_fields))]
fn put_instant_line<A: Allocator>(out: &mut Vec<u8, A>, instant: i64) -> Result<(), AllocError>
    requires { is_writable instant ≡ true }
    ensures { OnOk result (out.new.items ≡ out.old.items ++ line (instant_fields instant)) }
{
    put_instant(out, instant)?;
    out.extend_from_slice(b"\r\n")
}

#[tactic(auto, unfolding(comtrade_format::specs::Lines::line))]
fn put_kind_line<A: Allocator>(out: &mut Vec<u8, A>, kind: Kind) -> Result<(), AllocError>
    ensures { OnOk result (out.new.items ≡ out.old.items ++ line (kind_text kind ∷ [])) }
{
    match kind {
        Kind::Ascii => out.extend_from_slice(b"ASCII\r\n"),
        Kind::Binary => out.extend_from_slice(b"BINARY\r\n"),
    }
}

/// Appends the line of the multiplier of stamps, which is 1.
#[tactic(auto, unfolding(comtrade_format::specs::Lines::line))]
fn put_one_line<A: Allocator>(out: &mut Vec<u8, A>) -> Result<(), AllocError>
    ensures { OnOk result (out.new.items ≡ out.old.items ++ line (decimal_text (whole 1) ∷ [])) }
{
    let Some(one) = Decimal::new(1, 0) else {
        unreachable!()
    };
    put_decimal(out, one)?;
    out.extend_from_slice(b"\r\n")
}

/// The last lines of a configuration file, from the instants on.
fn last_lines<A: Allocator>(alloc: A, kind: Kind, shown: Shown) -> Result<Vec<u8, A>, AllocError>
    requires { spec.AreWritable shown }
    ensures { IfOk result (λ text. text.items ≡ spec.last_text kind shown) }
{
    let mut text = Vec::new(alloc);
    put_instant_line(&mut text, shown.first)?;
    put_instant_line(&mut text, shown.trigger)?;
    put_kind_line(&mut text, kind)?;
    put_one_line(&mut text)?;
    Ok(text)
}

/// How long a text is without its ending.
fn front_len(text: &[u8], ending: &[u8]) -> usize
    ensures { result ≡ length text.now - length ending.now }
{
    if text.len() < ending.len() {
        0
    } else {
        text.len() - ending.len()
    }
}

/// A text with another ending in place of the one that it has.
fn with_ending<A: Allocator>(
    alloc: A,
    text: &[u8],
    was: &[u8],
    is: &[u8],
) -> Result<Vec<u8, A>, AllocError>
    ensures { IfOk result (λ changed. changed.items ≡ spec.with_ending text.now was.now is.now) }
{
    let mut changed = Vec::new(alloc);
    changed.extend_from_slice(&text[..front_len(text, was)])?;
    changed.extend_from_slice(is)?;
    Ok(changed)
}

/// The configuration file of a record as it is shown.
pub(crate) fn shown_cfg<A: Allocator + Copy>(
    alloc: A,
    kind: Kind,
    redated: Redated,
    cfg: &[u8],
) -> Result<Vec<u8, A>, AllocError>
    requires was { spec.AreWritable redated.was }
    requires is { spec.AreWritable redated.is }
    ensures { IfOk result (λ shown. shown.items ≡ spec.changed_cfg kind redated cfg.now) }
{
    let was = last_lines(alloc, kind, redated.was)?;
    let is = last_lines(alloc, kind, redated.is)?;
    with_ending(alloc, cfg, &was, &is)
}
