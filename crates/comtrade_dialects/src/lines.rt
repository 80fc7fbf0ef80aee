//! Reads what all lines of a configuration file have in common.

use crate::cursor::{TextCursor, TextLine};
use crate::fault::{ImportFault, Why};
use crate::field::LineFields;
use crate::key::Key;
use crate::note::{Notes, Place};
use crate::numeral::spelled_of;
use crate::spelled::{cut_to, numbered, plain_of};
use crate::text::without_nuls;
use comtrade_values::{Decimal, Items};
use std::alloc::{AllocError, Allocator};

/// The remaining lines, the separator between their fields, and the notes so far.
#[derive(Drop)]
pub(crate) struct LineReader<'a, 'n, A: Allocator> {
    pub alloc: A,
    pub cursor: TextCursor<'a>,
    pub mark: u8,
    pub notes: &'n mut Notes<A>,
}

/// A line's fields, and its number.
#[derive(Clone, Copy)]
pub(crate) struct FieldRow<'a> {
    pub parts: LineFields<'a>,
    pub text: &'a [u8],
    pub number: u64,
}

pub(crate) fn at(line: u64, why: Why) -> ImportFault {
    ImportFault::Cfg(line, why)
}

/// Notes the oddities of a line as a whole.
pub(crate) fn tell_line<A: Allocator + Copy>(
    notes: &mut Notes<A>,
    line: TextLine<'_>,
    place: Place,
) -> Result<(), AllocError> {
    if line.after_blank {
        notes.tell(Key::BlankLines, place, &[])?;
    }
    if line.is_doubled && !notes.has(Key::LineEndsCrcr) {
        notes.tell(Key::LineEndsCrcr, place, &[])?;
    }
    Ok(())
}

/// The next line. Notes its oddities, such as empty fields at its end beyond `wanted`.
pub(crate) fn next_row<'a, A: Allocator + Copy>(
    cursor: &mut TextCursor<'a>,
    mark: u8,
    notes: &mut Notes<A>,
    wanted: usize,
) -> Result<FieldRow<'a>, ImportFault> {
    let missing = cursor.next_number();
    let Some(line) = cursor.next_line() else {
        return Err(at(missing, Why::Missing));
    };
    tell_line(notes, line, Place::Cfg(line.number))?;
    let parts = LineFields::of(line.text, mark);
    if wanted < parts.all && parts.full <= wanted {
        notes.tell(Key::TrailingCommas, Place::Cfg(line.number), &[])?;
    }
    Ok(FieldRow {
        parts,
        text: line.text,
        number: line.number,
    })
}

/// The decimal in a text. Notes the oddities of its form.
pub(crate) fn decimal_of<A: Allocator + Copy>(
    notes: &mut Notes<A>,
    mark: u8,
    line: u64,
    text: &[u8],
) -> Result<Decimal, ImportFault> {
    if let Some(decimal) = Decimal::read(text) {
        return Ok(decimal);
    }
    let Some(spelled) = spelled_of(text, mark == b';') else {
        return Err(at(line, Why::Number));
    };
    if spelled.is_fortran {
        notes.tell_text(Key::ExponentD, Place::Cfg(line), text)?;
    }
    if spelled.has_comma {
        notes.tell_text(Key::DecimalComma, Place::Cfg(line), text)?;
    }
    match decimal_in(notes.allocator(), text)? {
        Some(decimal) => Ok(decimal),
        None => Err(at(line, Why::Number)),
    }
}

/// The decimal in a text that may have a comma for the point or a D for the exponent's E.
fn decimal_in<A: Allocator + Copy>(alloc: A, text: &[u8]) -> Result<Option<Decimal>, AllocError> {
    let mut plain = Vec::new(alloc);
    for b in text {
        plain.push(match *b {
            b',' => b'.',
            b'd' | b'D' => b'E',
            other => other,
        })?;
    }
    Ok(Decimal::read(&plain))
}

/// The decimal in a text, or the value used for an empty one, with a note.
pub(crate) fn decimal_or<A: Allocator + Copy>(
    notes: &mut Notes<A>,
    mark: u8,
    line: u64,
    text: &[u8],
    empty: (&str, i128),
) -> Result<Decimal, ImportFault> {
    if !text.is_empty() {
        return decimal_of(notes, mark, line, text);
    }
    tell_empty(notes, line, empty.0)?;
    match Decimal::new(empty.1, 0) {
        Some(decimal) => Ok(decimal),
        None => Err(at(line, Why::Number)),
    }
}

pub(crate) fn tell_empty<A: Allocator + Copy>(
    notes: &mut Notes<A>,
    line: u64,
    what: &str,
) -> Result<(), AllocError> {
    notes.tell(Key::NumberEmpty, Place::Cfg(line), what.as_bytes())
}

/// A text without the NUL bytes at its end, which are noted.
fn unpadded<'a, A: Allocator + Copy>(
    notes: &mut Notes<A>,
    line: u64,
    text: &'a [u8],
) -> Result<&'a [u8], AllocError> {
    let inner = without_nuls(text);
    if inner.len() < text.len() {
        notes.tell_text(Key::TextNul, Place::Cfg(line), inner)?;
    }
    Ok(inner)
}

/// A text of at most this many bytes. A longer one is cut; the number, if any, is appended to it.
/// Where texts are kept, the text as it is.
pub(crate) fn text_of<A: Allocator + Copy>(
    notes: &mut Notes<A>,
    line: u64,
    text: &[u8],
    most: usize,
    number: Option<u64>,
) -> Result<Items<u8, A>, ImportFault> {
    let alloc = notes.allocator();
    if notes.keeps_texts() {
        let text = without_nuls(text);
        if text.contains(&b',') {
            notes.tell_text(Key::TextComma, Place::Cfg(line), text)?;
        }
        return Ok(Items::of(Vec::from_slice(alloc, text)?));
    }
    let text = unpadded(notes, line, text)?;
    let plain = plain_of(alloc, text)?;
    let place = Place::Cfg(line);
    if plain.is_spelled {
        notes.tell_change(Key::TextsNotAscii, place, text, &plain.bytes)?;
    }
    if plain.had_comma {
        notes.tell_change(Key::TextComma, place, text, &plain.bytes)?;
    }
    let whole = cut_to(&plain.bytes, plain.bytes.len());
    if whole.len() <= most {
        return Ok(Items::of(Vec::from_slice(alloc, whole)?));
    }
    notes.tell_text(Key::TextLong, place, text)?;
    let Some(number) = number else {
        return Ok(Items::of(Vec::from_slice(alloc, cut_to(whole, most))?));
    };
    match numbered(alloc, whole, most, number)? {
        Some(short) => Ok(Items::of(short)),
        None => Err(at(line, Why::ManyChannels)),
    }
}

/// A phase; one of more than two bytes is left out, unless texts are kept.
pub(crate) fn phase_of<A: Allocator + Copy>(
    notes: &mut Notes<A>,
    line: u64,
    text: &[u8],
) -> Result<Items<u8, A>, ImportFault> {
    let alloc = notes.allocator();
    if notes.keeps_texts() {
        return text_of(notes, line, text, 2, None);
    }
    let text = unpadded(notes, line, text)?;
    let plain = plain_of(alloc, text)?;
    let whole = cut_to(&plain.bytes, plain.bytes.len());
    if 2 < whole.len() {
        notes.tell_text(Key::PhaseLong, Place::Cfg(line), text)?;
        return Ok(Items::of(Vec::new(alloc)));
    }
    text_of(notes, line, text, 2, None)
}
