//! The numbers of rows, and the rates for the rows that exist.

use crate::draft::ConfigDraft;
use crate::fault::ImportFault;
use crate::key::Key;
use crate::note::{Notes, Place};
use crate::num::Num;
use comtrade_format::Rate;
use comtrade_values::{put, put_number};
use std::alloc::{AllocError, Allocator};

/// A row's number and stamp.
#[derive(Clone, Copy)]
pub(crate) struct Tick {
    pub number: i64,
    pub stamp: Option<Num>,
}

/// How row numbers continue.
#[derive(Clone, Copy, PartialEq, Eq)]
pub(crate) enum Numbering {
    /// 1, 2, 3 and so on.
    Plain,
    /// Upwards, with gaps.
    Gaps,
    Other,
}

pub(crate) fn run_of(ticks: &[Tick]) -> Numbering {
    let mut is_plain = true;
    let mut rises = true;
    let mut has_gap = false;
    let mut before: Option<i64> = None;
    for (wanted, tick) in (1i64..).zip(ticks) {
        is_plain = is_plain && tick.number == wanted;
        if let Some(before) = before {
            rises = rises && before < tick.number;
            has_gap = has_gap || lost_between(before, tick.number).is_some();
        }
        before = Some(tick.number);
    }
    if is_plain {
        return Numbering::Plain;
    }
    if rises && has_gap {
        Numbering::Gaps
    } else {
        Numbering::Other
    }
}

/// How many rows are lost between two numbers, if any are.
fn lost_between(before: i64, number: i64) -> Option<u64> {
    if number <= before {
        return None;
    }
    match number.abs_diff(before).checked_sub(1)? {
        0 => None,
        lost => Some(lost),
    }
}

/// Notes where rows are lost, and how many.
pub(crate) fn tell_lost<A: Allocator + Copy>(
    notes: &mut Notes<A>,
    ticks: &[Tick],
) -> Result<(), ImportFault> {
    let mut before: Option<i64> = None;
    for (row, tick) in (1u64..).zip(ticks) {
        if let Some(before) = before {
            if let Some(gap) = lost_between(before, tick.number) {
                let mut piece = Vec::new(notes.allocator());
                put_number(&mut piece, gap)?;
                put(
                    &mut piece,
                    " missing before it; no rate is written, times come from the time stamps",
                )?;
                notes.tell(Key::RowsLost, Place::Row(row), &piece)?;
            }
        }
        before = Some(tick.number);
    }
    Ok(())
}

/// Notes the first row whose number differs from its position.
pub(crate) fn tell_numbers<A: Allocator + Copy>(
    notes: &mut Notes<A>,
    ticks: &[Tick],
) -> Result<(), ImportFault> {
    for (wanted, tick) in (1i64..).zip(ticks) {
        if tick.number != wanted {
            let mut piece = Vec::new(notes.allocator());
            if tick.number < 0 {
                put(&mut piece, "-")?;
            }
            put_number(&mut piece, tick.number.unsigned_abs())?;
            notes.tell(
                Key::SampleNumbers,
                Place::Row(wanted.unsigned_abs()),
                &piece,
            )?;
            return Ok(());
        }
    }
    Ok(())
}

/// Notes that the data have another number of rows than the configuration file says.
fn tell_rows<A: Allocator + Copy>(
    notes: &mut Notes<A>,
    key: Key,
    rows: u64,
    last: u64,
) -> Result<(), AllocError> {
    let mut piece = Vec::new(notes.allocator());
    put_number(&mut piece, rows)?;
    put(&mut piece, " rows, endsamp ")?;
    put_number(&mut piece, last)?;
    notes.tell(key, Place::Whole("data file"), &piece)
}

/// The rates for this many rows. Notes a different last row in the configuration file.
pub(crate) fn rates_for<A: Allocator + Copy>(
    alloc: A,
    notes: &mut Notes<A>,
    draft: &ConfigDraft<A>,
    rows: u64,
    is_told: bool,
) -> Result<Vec<Rate, A>, ImportFault> {
    match draft.rates.last {
        Some(last) if rows < last && !is_told => tell_rows(notes, Key::RowsFewer, rows, last)?,
        Some(last) if last < rows => tell_rows(notes, Key::RowsMore, rows, last)?,
        _ => {}
    }
    let mut list: Vec<Rate, A> = Vec::new(alloc);
    let mut before = 0u64;
    let count = draft.rates.list.len();
    for (i, rate) in draft.rates.list.iter().enumerate() {
        let is_last = i + 1 == count;
        let endsamp = if is_last {
            rows
        } else {
            rate.endsamp.min(rows)
        };
        if before < endsamp || list.is_empty() && is_last {
            list.push(Rate {
                samp: rate.samp,
                endsamp,
            })?;
        }
        before = before.max(endsamp);
    }
    Ok(list)
}
