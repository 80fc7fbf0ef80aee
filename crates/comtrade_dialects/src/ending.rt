//! The lines after the rates.

use crate::cursor::TextCursor;
use crate::dates::Order;
use crate::draft::Revision;
use crate::fault::{ImportFault, Why};
use crate::field::LineFields;
use crate::instants::{Instants, instants_of};
use crate::key::Key;
use crate::kinds::{Form, form_of};
use crate::lines::{LineReader, at, decimal_or, next_row};
use crate::note::Place;
use crate::zone::zone_of;
use comtrade_values::{Decimal, trim};
use std::alloc::Allocator;

/// What was found in place of the data type.
#[derive(Clone, Copy)]
enum TypeLine {
    Form(Form),
    Number,
    Nothing,
    Other,
}

fn look_at(cursor: TextCursor<'_>, mark: u8) -> TypeLine {
    let mut ahead = cursor;
    let Some(line) = ahead.next_line() else {
        return TypeLine::Nothing;
    };
    let text = LineFields::of(line.text, mark).at(0);
    match form_of(text) {
        Some(form) => TypeLine::Form(form),
        None if text.is_empty() => TypeLine::Nothing,
        None if Decimal::read(text).is_some() => TypeLine::Number,
        None => TypeLine::Other,
    }
}

/// Skips a line that holds no data type.
fn pass(cursor: &mut TextCursor<'_>, next: TypeLine) {
    match next {
        TypeLine::Nothing => {
            let _ = cursor.next_line();
        }
        _ => cursor.skip_blanks(),
    }
}

/// The form, from a line that must have no other field.
fn said_form<A: Allocator + Copy>(
    reader: &mut LineReader<'_, '_, A>,
    form: Form,
) -> Result<Option<Form>, ImportFault> {
    let row = next_row(&mut reader.cursor, reader.mark, reader.notes, 1)?;
    if row.parts.full == 1 {
        Ok(Some(form))
    } else {
        Err(at(row.number, Why::Kind))
    }
}

/// The form of the data; None if no line declares it.
fn type_of<A: Allocator + Copy>(
    reader: &mut LineReader<'_, '_, A>,
) -> Result<Option<Form>, ImportFault> {
    let mut ahead = reader.cursor;
    let number = ahead.next_number();
    let next = look_at(ahead, reader.mark);
    match next {
        TypeLine::Form(form) => return said_form(reader, form),
        TypeLine::Other => return Err(at(number, Why::Kind)),
        _ => {}
    }
    pass(&mut ahead, next);
    reader.cursor = ahead;
    reader.notes.tell(Key::KindAbsent, Place::Cfg(number), &[])?;
    Ok(None)
}

/// The time multiplier: 1 if no line has it.
fn timemult_of<A: Allocator + Copy>(
    reader: &mut LineReader<'_, '_, A>,
    revision: Revision,
) -> Result<Decimal, ImportFault> {
    let mut ahead = reader.cursor;
    let number = reader.cursor.next_number();
    let is_there = match ahead.next_line() {
        Some(line) => LineFields::of(line.text, reader.mark).full < 2,
        None => false,
    };
    if is_there {
        let row = next_row(&mut reader.cursor, reader.mark, reader.notes, 1)?;
        return decimal_or(
            reader.notes,
            reader.mark,
            row.number,
            row.parts.at(0),
            ("timemult: 1", 1),
        );
    }
    if revision != Revision::Of1991 {
        reader.notes.tell(Key::NoTimemult, Place::Cfg(number), &[])?;
    }
    match Decimal::new(1, 0) {
        Some(one) => Ok(one),
        None => Err(at(number, Why::Number)),
    }
}

/// Reads time codes and time quality, for which 1999 has no lines; refuses any other text.
fn end_of<A: Allocator + Copy>(reader: &mut LineReader<'_, '_, A>) -> Result<(), ImportFault> {
    for number in 0..2u8 {
        let mut ahead = reader.cursor;
        let Some(line) = ahead.next_line() else {
            return Ok(());
        };
        let parts = LineFields::of(line.text, reader.mark);
        if 2 < parts.full || 10 < parts.at(0).len() || 10 < parts.at(1).len() {
            return Err(at(line.number, Why::Extra));
        }
        if number == 0 {
            reader.notes.set_zone(zone_of(parts.at(0)));
        }
        reader.cursor = ahead;
        reader.notes.tell_text(
            Key::Lines2013Dropped,
            Place::Cfg(line.number),
            trim(line.text),
        )?;
    }
    match reader.cursor.next_line() {
        Some(line) => Err(at(line.number, Why::Extra)),
        None => Ok(()),
    }
}

/// The contents of the lines after the rates.
#[derive(Clone, Copy)]
pub(crate) struct LastLines {
    pub instants: Instants,
    pub form: Option<Form>,
    pub timemult: Decimal,
}

pub(crate) fn ending_of<A: Allocator + Copy>(
    reader: &mut LineReader<'_, '_, A>,
    revision: Revision,
    asked: Option<Order>,
) -> Result<LastLines, ImportFault> {
    let instants = instants_of(reader, revision, asked)?;
    let form = type_of(reader)?;
    let timemult = timemult_of(reader, revision)?;
    end_of(reader)?;
    Ok(LastLines {
        instants,
        form,
        timemult,
    })
}
