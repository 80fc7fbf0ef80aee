//! The lines of rates.

use crate::cursor::TextCursor;
use crate::dates::is_like_instant;
use crate::draft::Rates;
use crate::fault::{ImportFault, Why};
use crate::field::LineFields;
use crate::key::Key;
use crate::lines::{FieldRow, LineReader, at, decimal_of, decimal_or, next_row, tell_empty};
use crate::note::Place;
use comtrade_format::Rate;
use comtrade_values::{Decimal, integer_of, whole_of};
use std::alloc::Allocator;

/// A whole number of at least 0.
fn count_of<A: Allocator + Copy>(
    reader: &mut LineReader<'_, '_, A>,
    row: FieldRow<'_>,
    index: usize,
) -> Result<u64, ImportFault> {
    let text = row.parts.at(index);
    let number = decimal_of(reader.notes, reader.mark, row.number, text)?;
    if integer_of(text).is_none() {
        reader
            .notes
            .tell_text(Key::RatesForm, Place::Cfg(row.number), text)?;
    }
    let count = match whole_of(number) {
        Some(n) => u64::try_from(n).ok(),
        None => None,
    };
    count.ok_or(at(row.number, Why::Number))
}

fn rate_count<A: Allocator + Copy>(
    reader: &mut LineReader<'_, '_, A>,
) -> Result<(u64, u64), ImportFault> {
    let row = next_row(&mut reader.cursor, reader.mark, reader.notes, 1)?;
    if row.parts.at(0).is_empty() {
        tell_empty(reader.notes, row.number, "number of rates: 0")?;
        return Ok((0, row.number));
    }
    if 1 < row.parts.full {
        return Err(at(row.number, Why::Rate));
    }
    let count = count_of(reader, row, 0)?;
    if 999 < count {
        Err(at(row.number, Why::ManyRates))
    } else {
        Ok((count, row.number))
    }
}

/// A rate and its last row.
fn rate_of<A: Allocator + Copy>(
    reader: &mut LineReader<'_, '_, A>,
) -> Result<(Rate, u64), ImportFault> {
    let row = next_row(&mut reader.cursor, reader.mark, reader.notes, 2)?;
    if 2 < row.parts.full {
        return Err(at(row.number, Why::Rate));
    }
    let samp = decimal_or(
        reader.notes,
        reader.mark,
        row.number,
        row.parts.at(0),
        ("rate: 0", 0),
    )?;
    if samp.units() < 0 {
        return Err(at(row.number, Why::Rate));
    }
    if row.parts.at(1).is_empty() {
        tell_empty(reader.notes, row.number, "last row: the number of rows")?;
        return Ok((Rate { samp, endsamp: 0 }, row.number));
    }
    let endsamp = count_of(reader, row, 1)?;
    Ok((Rate { samp, endsamp }, row.number))
}

/// Whether the next line is a rate line.
fn has_rate_line(cursor: TextCursor<'_>, mark: u8) -> bool {
    let mut ahead = cursor;
    let Some(line) = ahead.next_line() else {
        return false;
    };
    if is_like_instant(line.text, mark) {
        return false;
    }
    Decimal::read(LineFields::of(line.text, mark).at(0)).is_some()
}

/// The rates in this many lines.
fn rates_in<A: Allocator + Copy>(
    reader: &mut LineReader<'_, '_, A>,
    count: u64,
) -> Result<Rates<A>, ImportFault> {
    let mut list = Vec::new(reader.alloc);
    let mut last = 0u64;
    let mut is_usable = true;
    for number in 1..=count {
        let (rate, line) = rate_of(reader)?;
        if rate.endsamp < last {
            return Err(at(line, Why::RateOrder));
        }
        let is_last = number == count;
        let has_rows = last < rate.endsamp || is_last && list.is_empty();
        last = rate.endsamp;
        if !has_rows {
            continue;
        }
        if rate.samp.units() == 0 {
            reader.notes.tell(Key::RateZero, Place::Cfg(line), &[])?;
            is_usable = false;
        }
        list.push(rate)?;
    }
    if !is_usable {
        list.clear();
    }
    Ok(Rates {
        list,
        last: Some(last),
    })
}

/// Reads the lines from the number of rates to the last rate.
pub(crate) fn rates_of<A: Allocator + Copy>(
    reader: &mut LineReader<'_, '_, A>,
) -> Result<Rates<A>, ImportFault> {
    let (count, line) = rate_count(reader)?;
    if 0 < count {
        return rates_in(reader, count);
    }
    if !has_rate_line(reader.cursor, reader.mark) {
        reader
            .notes
            .tell(Key::RateLineAbsent, Place::Cfg(line), &[])?;
        return Ok(Rates {
            list: Vec::new(reader.alloc),
            last: None,
        });
    }
    let (rate, _) = rate_of(reader)?;
    Ok(Rates {
        list: Vec::new(reader.alloc),
        last: Some(rate.endsamp),
    })
}
