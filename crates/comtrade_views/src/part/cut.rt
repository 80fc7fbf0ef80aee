//! Cuts rows and channels out of a record.

use crate::part::names::Channels;
use crate::part::rows::Rows;
use comtrade_format::{Border, File, Head, Rate, Row, border_of, clock_with};
use comtrade_values::{Items, Memory, TryClone};
use dfr_channels::{AnalogChannel, StatusChannel};
use std::alloc::Allocator;

/// The items at these indices.
fn picked<T: TryClone, A: Allocator + Copy>(
    alloc: A,
    list: &[T],
    places: &[usize],
) -> Result<Items<T, A>, Memory> {
    let mut picked = Vec::with_capacity(alloc, places.len())?;
    for place in places {
        if let Some(item) = list.get(*place) {
            picked.push(item.try_clone()?)?;
        }
    }
    Ok(Items::of(picked))
}

/// The items at these indices, which are copied without memory.
fn picked_copies<T: Copy, A: Allocator>(
    alloc: A,
    list: &[T],
    places: &[usize],
) -> Result<Items<T, A>, Memory> {
    let mut picked = Vec::with_capacity(alloc, places.len())?;
    picked.extend(places.iter().filter_map(|place| list.get(*place).copied()))?;
    Ok(Items::of(picked))
}

/// The rows with these channels only, numbered from `first` on, with stamps relative to this one; a
/// stamp before it is left out. Without one, all are.
pub(crate) fn cut_piece<A: Allocator + Copy>(
    alloc: A,
    rows: &[Row<A>],
    channels: &Channels<A>,
    first: u64,
    base: Option<u64>,
) -> Result<Items<Row<A>, A>, Memory> {
    let mut cut = Vec::with_capacity(alloc, rows.len())?;
    for (number, row) in (first..=u64::MAX).zip(rows.iter()) {
        let values = picked_copies(alloc, row.values.items(), &channels.analog)?;
        let bits = picked_copies(alloc, row.bits.items(), &channels.status)?;
        let stamp = match (row.stamp, base) {
            (Some(stamp), Some(base)) => stamp.checked_sub(base),
            _ => None,
        };
        cut.push(Row {
            number,
            stamp,
            values,
            bits,
        })?;
    }
    Ok(Items::of(cut))
}

/// The rows with these channels only, numbered from 1, with stamps relative to the first row; a
/// stamp before that of the first row is left out.
fn cut_rows<A: Allocator + Copy>(
    alloc: A,
    rows: &[Row<A>],
    channels: &Channels<A>,
) -> Result<Items<Row<A>, A>, Memory> {
    // (without a stamp in the first row the others stay)
    let base = rows.first().and_then(|row| row.stamp).unwrap_or(0);
    cut_piece(alloc, rows, channels, 1, Some(base))
}

/// The rates of the rows; the last one ends with the last row.
fn cut_rates<A: Allocator + Copy>(
    alloc: A,
    rates: &[Rate],
    rows: Rows,
) -> Result<Items<Rate, A>, Memory> {
    let (from, to) = (rows.from as u64, rows.to as u64);
    let mut cut: Vec<Rate, A> = Vec::new(alloc);
    let mut last = 0u64;
    for rate in rates {
        match rate.endsamp.min(to).checked_sub(from) {
            Some(endsamp) if last < endsamp => {
                cut.push(Rate {
                    samp: rate.samp,
                    endsamp,
                })?;
                last = endsamp;
            }
            _ => {}
        }
    }
    Ok(Items::of(cut))
}

/// The stamp of the first of the rows of a part, and which rate gives the interval across each
/// border of the whole record.
#[derive(Clone, Copy)]
pub(crate) struct First {
    pub(crate) border: Border,
    pub(crate) stamp: Option<u64>,
}

/// The instant of the first of the rows, to the nearest microsecond; None where its time is not
/// known, or no number of 64 bits.
fn first_instant<A: Allocator>(head: &Head<A>, first: First, from: usize) -> Option<i64> {
    let nanos = clock_with(head, first.border).nanos(from as u64, first.stamp)?;
    let micros = i64::try_from(nanos.checked_add(500)? / 1000).ok()?;
    head.first.checked_add(micros)
}

/// The head of the part.
pub(crate) fn cut_head<A: Allocator + Copy>(
    alloc: A,
    head: &Head<A>,
    first: First,
    rows: Rows,
    channels: &Channels<A>,
) -> Result<Head<A>, Memory> {
    let station = head.station.try_clone()?;
    let device = head.device.try_clone()?;
    let analog: Items<AnalogChannel<A>, A> = picked(alloc, head.analog.items(), &channels.analog)?;
    let status: Items<StatusChannel<A>, A> = picked(alloc, head.status.items(), &channels.status)?;
    let rates = cut_rates(alloc, head.rates.items(), rows)?;
    let nrates = if head.nrates == 0 {
        0
    } else {
        // (a file has at most 999 rates)
        u32::try_from(rates.items().len()).unwrap_or(u32::MAX)
    };
    Ok(Head {
        station,
        device,
        analog,
        status,
        line_freq: head.line_freq,
        nrates,
        rates,
        // (the instant of the whole record stands for one that is not known)
        first: first_instant(head, first, rows.from).unwrap_or(head.first),
        trigger: head.trigger,
        kind: head.kind,
        timemult: head.timemult,
    })
}

/// A record of these rows and channels, which keep their instants.
pub(crate) fn cut_of<A: Allocator + Copy>(
    alloc: A,
    file: &File<A>,
    rows: Rows,
    channels: &Channels<A>,
) -> Result<File<A>, Memory> {
    let kept = match file.rows.items().get(rows.from..rows.to) {
        Some(kept) => kept,
        None => &[],
    };
    let first = First {
        border: border_of(file),
        stamp: kept.first().and_then(|row| row.stamp),
    };
    let head = cut_head(alloc, &file.head, first, rows, channels)?;
    let rows = cut_rows(alloc, kept, channels)?;
    Ok(File { head, rows })
}
