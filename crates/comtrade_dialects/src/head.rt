//! Reads a configuration file line by line.

use crate::analog::analog_of;
use crate::counts::counts_of;
use crate::cursor::TextCursor;
use crate::dates::Order;
use crate::draft::{ChannelLines, ConfigDraft, NamesLine, Revision};
use crate::ending::ending_of;
use crate::fault::{ImportFault, Why};
use crate::field::{LineFields, joint_of};
use crate::ids::Ids;
use crate::key::Key;
use crate::lines::{FieldRow, LineReader, at, decimal_or, next_row, text_of};
use crate::note::{Notes, Place};
use crate::rates::rates_of;
use crate::status::status_of;
use comtrade_values::{Decimal, integer_of};
use std::alloc::Allocator;

/// The revision in the first line.
#[derive(Clone, Copy)]
enum Year<'a> {
    Absent,
    Said(Revision),
    /// Another year, as it stands there.
    Other(&'a [u8]),
}

/// Whether a text is a year between those of the revisions 1991 and 2013, or 1999 in another form.
fn is_other_year(text: &[u8]) -> bool {
    let digits = match text {
        [front @ .., b'.', b'0'] => front,
        _ => text,
    };
    match integer_of(digits) {
        Some(year) => 1991 < year && year < 2013,
        None => false,
    }
}

fn year_of(row: FieldRow<'_>) -> Result<Year<'_>, ImportFault> {
    if 3 < row.parts.full || row.parts.all < 2 {
        return Err(at(row.number, Why::FirstLine));
    }
    match row.parts.at(2) {
        [] => Ok(Year::Absent),
        b"1991" => Ok(Year::Said(Revision::Of1991)),
        b"1999" => Ok(Year::Said(Revision::Of1999)),
        b"2013" => Ok(Year::Said(Revision::Of2013)),
        text if is_other_year(text) => Ok(Year::Other(text)),
        _ => Err(at(row.number, Why::Year)),
    }
}

/// The separator between fields: a comma, or a semicolon if the first line has no comma.
fn mark_of(cursor: TextCursor<'_>) -> u8 {
    let mut ahead = cursor;
    match ahead.next_line() {
        Some(line) if !line.text.contains(&b',') && line.text.contains(&b';') => b';',
        _ => b',',
    }
}

/// The revision: from the year, else from the number of fields in the line of the first channel.
fn revision_of<A: Allocator + Copy>(
    reader: &mut LineReader<'_, '_, A>,
    year: Year<'_>,
    line: u64,
    has_analog: bool,
) -> Result<Revision, ImportFault> {
    let place = Place::Cfg(line);
    let revision = match year {
        Year::Said(revision) => revision,
        Year::Other(text) => {
            reader.notes.tell_text(Key::RevisionOther, place, text)?;
            return Ok(Revision::Of1999);
        }
        Year::Absent => {
            let mut ahead = reader.cursor;
            let full = match ahead.next_line() {
                Some(line) => LineFields::of(line.text, reader.mark).full,
                None => 0,
            };
            if full <= if has_analog { 10 } else { 3 } {
                Revision::Of1991
            } else {
                reader.notes.tell(Key::RevisionAbsent, place, &[])?;
                return Ok(Revision::Of1999);
            }
        }
    };
    match revision {
        Revision::Of1991 => reader.notes.tell(Key::Revision1991, place, &[])?,
        Revision::Of2013 => reader.notes.tell(Key::Revision2013, place, &[])?,
        Revision::Of1999 => {}
    }
    Ok(revision)
}

/// The lines of channels.
fn channels_of<A: Allocator + Copy>(
    reader: &mut LineReader<'_, '_, A>,
    counts: (u64, u64),
    is_old: bool,
) -> Result<ChannelLines<A>, ImportFault> {
    let mut channels = ChannelLines {
        analog: Vec::new(reader.alloc),
        said: Vec::new(reader.alloc),
        status: Vec::new(reader.alloc),
    };
    let mut ids = Ids::new(reader.alloc);
    let wanted = if is_old { 10 } else { 13 };
    for number in 1..=counts.0 {
        let row = next_row(&mut reader.cursor, reader.mark, reader.notes, wanted)?;
        let (mut channel, said, text) = analog_of(
            reader.notes,
            reader.mark,
            row,
            (number, is_old),
        )?;
        ids.set_apart(reader.notes, &mut channel.id, text, (row.number, number))?;
        channels.analog.push(channel)?;
        channels.said.push(said)?;
    }
    for number in 1..=counts.1 {
        let row = next_row(&mut reader.cursor, reader.mark, reader.notes, 5)?;
        let (mut channel, text) = status_of(reader.notes, row, number, is_old)?;
        ids.set_apart(reader.notes, &mut channel.id, text, (row.number, number))?;
        channels.status.push(channel)?;
    }
    Ok(channels)
}

fn frequency_of<A: Allocator + Copy>(
    reader: &mut LineReader<'_, '_, A>,
) -> Result<Decimal, ImportFault> {
    let row = next_row(&mut reader.cursor, reader.mark, reader.notes, 1)?;
    if 1 < row.parts.full {
        return Err(at(row.number, Why::Number));
    }
    decimal_or(
        reader.notes,
        reader.mark,
        row.number,
        row.parts.at(0),
        ("line frequency: 0", 0),
    )
}

/// The names in the first line, with the year and the number of the line.
fn names_of<'a, A: Allocator + Copy>(
    reader: &mut LineReader<'a, '_, A>,
) -> Result<(NamesLine<A>, Year<'a>, u64), ImportFault> {
    let mut row = next_row(&mut reader.cursor, reader.mark, reader.notes, 3)?;
    if row.parts.full == 4
        && let Some(joint) = joint_of(&row.parts, (0, true), (1, true))
        && let Some(parts) = row.parts.joined(joint)
    {
        row.parts = parts;
    }
    let year = year_of(row)?;
    let station = text_of(reader.notes, row.number, row.parts.at(0), 64, None)?;
    let device = text_of(reader.notes, row.number, row.parts.at(1), 64, None)?;
    Ok((NamesLine { station, device }, year, row.number))
}

/// Reads the lines after the first, in a file with these names.
fn draft_after<A: Allocator + Copy>(
    reader: &mut LineReader<'_, '_, A>,
    names: NamesLine<A>,
    first: (Year<'_>, u64, u64),
    asked: Option<Order>,
) -> Result<ConfigDraft<A>, ImportFault> {
    let (year, line, bytes) = first;
    let counts = counts_of(reader, bytes)?;
    let revision = revision_of(reader, year, line, 0 < counts.0)?;
    let channels = channels_of(reader, counts, revision == Revision::Of1991)?;
    let line_freq = frequency_of(reader)?;
    let rates = rates_of(reader)?;
    let ending = ending_of(reader, revision, asked)?;
    Ok(ConfigDraft {
        names,
        channels,
        line_freq,
        rates,
        first: ending.instants.first,
        trigger: ending.instants.trigger,
        form: ending.form,
        timemult: ending.timemult,
        revision,
        has_nanos: ending.instants.has_nanos,
    })
}

/// Reads the lines of a configuration file of this many bytes.
fn draft_in<A: Allocator + Copy>(
    reader: &mut LineReader<'_, '_, A>,
    bytes: u64,
    asked: Option<Order>,
) -> Result<ConfigDraft<A>, ImportFault> {
    let (names, year, line) = names_of(reader)?;
    draft_after(reader, names, (year, line, bytes), asked)
}

/// Reads a configuration file and notes its repairs.
pub(crate) fn draft_of<A: Allocator + Copy>(
    alloc: A,
    notes: &mut Notes<A>,
    cfg: &[u8],
    asked: Option<Order>,
) -> Result<ConfigDraft<A>, ImportFault> {
    let cursor = TextCursor::new(cfg);
    let mark = mark_of(cursor);
    let mut ahead = cursor;
    if ahead.next_line().is_none() {
        return Err(at(1, Why::Empty));
    }
    if cursor.ends_in_returns() {
        notes.tell(Key::LineEndsCr, Place::Whole("configuration file"), &[])?;
    }
    if mark == b';' {
        notes.tell(
            Key::SeparatorSemicolon,
            Place::Whole("configuration file"),
            &[],
        )?;
    }
    let mut reader = LineReader {
        alloc,
        cursor,
        mark,
        notes,
    };
    draft_in(&mut reader, cfg.len() as u64, asked)
}
