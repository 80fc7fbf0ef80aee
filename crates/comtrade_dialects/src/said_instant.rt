//! Reads a line with a date and time, before the order of day and month is known.

use crate::cursor::{TextCursor, around};
use crate::dates::{Civil, Order, TimeOfDay, civil_of, clock_of, is_like_instant};
use crate::fault::{ImportFault, Why};
use crate::key::Key;
use crate::lines::{FieldRow, LineReader, at, next_row};
use crate::note::{Notes, Place};
use crate::text::{around_any, push_quoted};
use comtrade_values::trim;
use std::alloc::Allocator;
use std::fmt::Write;

/// A line with a date and time; either is None if it is missing.
#[derive(Clone, Copy)]
pub(crate) struct InstantLine {
    civil: Option<Civil>,
    clock: Option<TimeOfDay>,
    pub line: u64,
}

/// The texts of the date and the time of day in a line. They may share one field, with a blank
/// between them.
fn texts_of<'a>(row: FieldRow<'a>, mark: u8) -> (&'a [u8], &'a [u8], bool) {
    let field = row.parts.at(0);
    if 1 < row.parts.full || field.is_empty() || mark == 0 {
        let time = if row.parts.full == 3 {
            rest_after(row.text, mark)
        } else {
            row.parts.at(1)
        };
        return (field, time, false);
    }
    match around_any(field, b" \t").or(around_any(field, b"T")) {
        Some((date, time)) => (date, trim(time), true),
        None => (field, &field[field.len()..], false),
    }
}

/// The text after the first separator of a line.
fn rest_after(line: &[u8], mark: u8) -> &[u8] {
    match around(line, mark) {
        Some((_, rest)) => trim(rest),
        None => line,
    }
}

fn tell_clock<A: Allocator + Copy>(
    notes: &mut Notes<A>,
    line: u64,
    clock: TimeOfDay,
    text: &[u8],
) -> Result<(), ImportFault> {
    for (is_odd, key) in [
        (clock.is_24, Key::Time24),
        (clock.is_leap, Key::LeapSecond),
        (clock.is_long, Key::FractionLong),
        (clock.is_odd, Key::FractionForm),
        (clock.has_colon, Key::FractionColon),
        (clock.has_comma, Key::DecimalComma),
        (clock.has_blank, Key::DateForm),
    ] {
        if is_odd {
            notes.tell_text(key, Place::Cfg(line), text)?;
        }
    }
    Ok(())
}

fn tell_civil<A: Allocator + Copy>(
    notes: &mut Notes<A>,
    line: u64,
    civil: Civil,
    is_other: bool,
    text: &[u8],
) -> Result<(), ImportFault> {
    if civil.is_unset() {
        return Ok(());
    }
    if civil.is_other || is_other {
        notes.tell_text(Key::DateForm, Place::Cfg(line), text)?;
    }
    if civil.has_short_year {
        let mut piece = String::new(notes.allocator());
        push_quoted(&mut piece, text)?;
        write!(piece, " is in {}", civil.year)?;
        notes.tell(Key::Years2Digits, Place::Cfg(line), piece.as_bytes())?;
    }
    Ok(())
}

/// Whether the next line can be a date and time; None if there is no line.
fn is_next(cursor: TextCursor<'_>, mark: u8) -> Option<bool> {
    let mut ahead = cursor;
    let line = ahead.next_line()?;
    Some(is_like_instant(line.text, mark))
}

/// Reads the date and the time of day in a line, and notes their oddities.
fn said_in<A: Allocator + Copy>(
    notes: &mut Notes<A>,
    row: FieldRow<'_>,
    mark: u8,
) -> Result<InstantLine, ImportFault> {
    let line = row.number;
    let (date, time, is_joined) = texts_of(row, mark);
    let civil = civil_of(date);
    let clock = clock_of(time);
    if civil.is_none() && !date.is_empty()
        || clock.is_none() && !time.is_empty()
        || 3 < row.parts.full
    {
        return Err(at(line, Why::Instant));
    }
    if let Some(clock) = clock {
        tell_clock(notes, line, clock, time)?;
    }
    if let Some(civil) = civil {
        if clock.is_none() && !civil.is_unset() {
            return Err(at(line, Why::Instant));
        }
        tell_civil(notes, line, civil, is_joined, date)?;
    }
    Ok(InstantLine { civil, clock, line })
}

/// Reads the next line, which is a date and time.
fn said_there<A: Allocator + Copy>(
    reader: &mut LineReader<'_, '_, A>,
) -> Result<InstantLine, ImportFault> {
    let row = next_row(&mut reader.cursor, reader.mark, reader.notes, 2)?;
    said_in(reader.notes, row, reader.mark)
}

/// Reads the next line, if it is a date and time.
pub(crate) fn said_of<A: Allocator + Copy>(
    reader: &mut LineReader<'_, '_, A>,
) -> Result<InstantLine, ImportFault> {
    let mut ahead = reader.cursor;
    let line = ahead.next_number();
    let Some(is_instant) = is_next(ahead, reader.mark) else {
        return Err(at(line, Why::Missing));
    };
    if is_instant {
        return said_there(reader);
    }
    ahead.skip_blanks();
    reader.cursor = ahead;
    Ok(InstantLine {
        civil: None,
        clock: None,
        line,
    })
}

impl InstantLine {
    /// The date, if one is set.
    pub(crate) fn date(self) -> Option<Civil> {
        match self.civil {
            Some(civil) if !civil.is_unset() => Some(civil),
            _ => None,
        }
    }

    pub(crate) fn micros(self) -> i64 {
        match self.clock {
            Some(clock) => clock.micros,
            None => 0,
        }
    }

    pub(crate) fn is_long(self) -> bool {
        match self.clock {
            Some(clock) => clock.is_long,
            None => false,
        }
    }

    /// Whether the date, if one is set, is valid in this order.
    pub(crate) fn fits(self, order: Order) -> bool {
        match self.date() {
            Some(civil) => civil.day_in(order).is_some(),
            None => true,
        }
    }

    /// Whether a date is set whose order is not certain.
    pub(crate) fn is_open(self) -> bool {
        match self.date() {
            Some(civil) => !civil.is_fixed(),
            None => false,
        }
    }

    /// Whether both orders give the same date.
    pub(crate) fn is_same_in_both(self) -> bool {
        match self.date() {
            Some(civil) => civil.day_in(Order::DayFirst) == civil.day_in(Order::MonthFirst),
            None => true,
        }
    }
}
