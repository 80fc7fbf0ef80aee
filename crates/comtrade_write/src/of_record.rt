//! The `File` of a record.

ghost use Rattle.std.specs.Prelude.{◌≡◌, ◌≤◌, ◌<◌, ◌^◌, Some, [], ◌∷◌, true, IfOk, length};
ghost use Rattle.std.specs.List.{list_all};
ghost use Rattle.dfr_channels.specs.Scans.{micros};
ghost use Rattle.dfr_channels.specs.Setups.{IsLawful};
ghost use Rattle.dfr_recorder.specs.Limits.{has_stamps};
ghost use Rattle.dfr_recorder.specs.Own as own;
ghost use Rattle.comtrade_format.specs.Numbered.{numbered};
ghost use Rattle.comtrade_write.specs.OfRecord as spec;
ghost use Rattle.comtrade_write.specs.OfRecord.{FileAnswers};
ghost use Rattle.comtrade_format.specs.Data.{IsWritable};

use comtrade_format::{File, Head, Kind, Rate, Row};
use comtrade_values::{Decimal, Items, Memory, copies_of};
use dfr_channels::{Layout, Scan};
use dfr_recorder::Record;
use std::alloc::Allocator;
use thiserror::Error;

/// Why a record has no `File`.
#[derive(Clone, Copy, Debug, PartialEq, Eq, Error)]
pub enum FileFault {
    /// The record doesn't match the layout: a scan doesn't pass the layout's check, the last scan
    /// has no instant in this layout, or the last row's stamp is over 4,294,967,294 microseconds.
    #[error("the record does not match the layout")]
    Foreign,
    /// An allocation failed.
    #[error("out of memory")]
    Memory,
}

impl From<Memory> for FileFault {
    ghost use Rattle.comtrade_write.specs.declared.of_record.FileFault.TheVariants.{Memory};

    ghost from_gives = { λ _ e. e ≡ Memory };

    fn from(_error: Memory) -> FileFault {
        FileFault::Memory
    }
}

/// The highest stamp that a binary data file can hold, in microseconds (C37.111-1999, clause 6).
const LAST_STAMP: u128 = 4_294_967_294;

fn passes<A: Allocator>(layout: &Layout<A>, scan: &Scan<A>) -> bool
    ensures { result ≡ own.passes layout.now scan.now }
{
    match layout.check(scan) {
        Ok(()) => true,
        Err(_) => false,
    }
}

fn all_pass<A: Allocator>(layout: &Layout<A>, scans: &[Scan<A>]) -> bool
    ensures { result ≡ list_all (own.passes layout.now) scans.now }
{
    scans.iter().all(|scan| passes(layout, scan))
}

fn has_instant<A: Allocator>(layout: &Layout<A>, k: u64) -> bool
    ensures { result ≡ own.has_instant layout.now k }
{
    match layout.instant(k) {
        Some(_) => true,
        None => false,
    }
}

/// Whether the stamps of this many rows can be written.
fn has_stamps<A: Allocator>(layout: &Layout<A>, rows: usize) -> bool
    ensures { result ≡ has_stamps layout.now.rate rows }
{
    let last = rows.saturating_sub(1) as u128;
    last * 1_000_000 / layout.rate() as u128 <= LAST_STAMP
}

#[tactic(auto, unfolding(dfr_recorder::specs::Own::is_own))]
fn is_own<A: Allocator>(layout: &Layout<A>, taken: &Record<A>) -> bool
    ensures { result ≡ own.is_own layout.now taken.now }
{
    if !all_pass(layout, taken.scans()) {
        return false;
    }
    if !has_instant(layout, taken.extent().last) {
        return false;
    }
    has_stamps(layout, taken.scans().len())
}

/// The number as a decimal without places.
fn whole(n: u32) -> Decimal
    ensures { result ≡ spec.whole n }
{
    let Some(decimal) = Decimal::new(n as i128, 0) else {
        unreachable!()
    };
    decimal
}

/// The instant of scan k, in microseconds since 1970-01-01 00:00:00.
fn instant_at<A: Allocator>(layout: &Layout<A>, k: u64) -> i64
    requires { own.has_instant layout.now k ≡ true }
    ensures { result ≡ spec.instant_at layout.now k }
{
    let Some(instant) = layout.instant(k) else {
        unreachable!()
    };
    instant
}

fn copied<T: Copy, A: Allocator + Copy>(alloc: A, list: &[T]) -> Result<Items<T, A>, Memory>
    ensures { IfOk result (λ r. r ≡ list.now) }
{
    Ok(Items::of(Vec::from_slice(alloc, list)?))
}

fn one_rate<A: Allocator + Copy>(alloc: A, rate: u32, rows: u64) -> Result<Items<Rate, A>, Memory>
    ensures { IfOk result (λ r. r ≡ record { samp = spec.whole rate; endsamp = rows } ∷ []) }
{
    let mut list = Vec::new(alloc);
    list.push(Rate {
        samp: whole(rate),
        endsamp: rows,
    })?;
    Ok(Items::of(list))
}

fn head<A: Allocator + Copy>(
    alloc: A,
    layout: &Layout<A>,
    taken: &Record<A>,
    kind: Kind,
) -> Result<Head<A>, Memory>
    requires first { own.has_instant layout.now taken.now.extent.first ≡ true }
    requires trigger { own.has_instant layout.now taken.now.extent.trigger ≡ true }
    ensures { IfOk result (λ h. h ≡ spec.head_of layout.now taken.now kind) }
{
    let extent = taken.extent();
    let first = instant_at(layout, extent.first);
    let trigger = instant_at(layout, extent.trigger);
    let station = copied(alloc, layout.station())?;
    let device = copied(alloc, layout.device())?;
    let analog = copies_of(alloc, layout.analog())?;
    let status = copies_of(alloc, layout.status())?;
    let rates = one_rate(alloc, layout.rate(), taken.scans().len() as u64)?;
    Ok(Head {
        station,
        device,
        analog,
        status,
        line_freq: layout.line_freq(),
        nrates: 1,
        rates,
        first,
        trigger,
        kind,
        timemult: whole(1),
    })
}

fn row<A: Allocator + Copy>(
    alloc: A,
    number: u64,
    stamp: u64,
    scan: &Scan<A>,
) -> Result<Row<A>, Memory>
    ensures { IfOk result (λ r. r ≡ record { number = number; stamp = Some stamp; values = scan.now.analog; bits = scan.now.status }) }
{
    let values = copied(alloc, scan.analog())?;
    let bits = copied(alloc, scan.status())?;
    Ok(Row {
        number,
        stamp: Some(stamp),
        values,
        bits,
    })
}

fn rows<A: Allocator + Copy>(
    alloc: A,
    rate: u32,
    scans: &[Scan<A>],
) -> Result<Items<Row<A>, A>, Memory>
    requires rate { 1 ≤ rate }
    requires few { length scans.now ≤ 4_294_967_295 }
    ensures { IfOk result (λ r. r ≡ numbered (spec.row_of rate) 1 scans.now) }
{
    let mut list = Vec::with_capacity(alloc, scans.len())?;
    for (i, scan) in scans.iter().enumerate() {
        let stamp = i as u64 * 1_000_000 / rate as u64;
        list.push(row(alloc, i as u64 + 1, stamp, scan)?)?;
    }
    Ok(Items::of(list))
}

/// The `File` of a record that matches the layout.
pub(crate) fn own_file<A: Allocator + Copy>(
    alloc: A,
    layout: &Layout<A>,
    taken: &Record<A>,
    kind: Kind,
) -> Result<File<A>, Memory>
    requires { own.is_own layout.now taken.now ≡ true }
    ensures file { IfOk result (λ f. f ≡ spec.file layout.now taken.now kind) }
    ensures writable { IfOk result (λ f. IsWritable f) }
{
    let _whole = taken.extent();
    let rate = layout.rate();
    let head = head(alloc, layout, taken, kind)?;
    let rows = rows(alloc, rate, taken.scans())?;
    Ok(File { head, rows })
}

/// The `File` of a record, for ASCII or BINARY data (`kind`). It has the layout's texts, channels
/// and line frequency, one rate, and the instants of the first scan and of the trigger. Each scan
/// has a row, with its stamp in microseconds since the first scan. The writers refuse this `File`
/// only when out of memory.
///
/// `Foreign`: exactly if the record doesn't match the layout. `Memory`: an allocation failed.
pub fn file_of<A: Allocator + Copy>(
    alloc: A,
    layout: &Layout<A>,
    taken: &Record<A>,
    kind: Kind,
) -> Result<File<A>, FileFault>
    ensures answer { FileAnswers result (own.is_own layout.now taken.now) (spec.file layout.now taken.now kind) }
    ensures writable { IfOk result (λ f. IsWritable f) }
{
    if !is_own(layout, taken) {
        return Err(FileFault::Foreign);
    }
    let file = own_file(alloc, layout, taken, kind)?;
    Ok(file)
}
