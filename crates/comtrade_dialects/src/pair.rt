//! Reads a pair as a file, with all repairs that it needs.

use crate::build::file_of;
use crate::dates::Order;
use crate::draft::ConfigDraft;
use crate::encoding::{narrow, without_mark};
use crate::fault::ImportFault;
use crate::head::draft_of;
use crate::key::Key;
use crate::note::{Notes, Place};
use crate::text::without_empty_end;
use comtrade_format::File;
use comtrade_letters::{Encoding, in_utf8};
use std::alloc::Allocator;

/// The samples that a file may have.
#[derive(Clone, Copy, Debug, PartialEq, Eq)]
pub enum Samples {
    /// Those that a file of 1999 holds: of 16 bits in BINARY data, of five digits in ASCII data.
    Written,
    /// Whole numbers of 32 bits, for a record that is shown and not written. It keeps its texts.
    Shown,
}

impl Default for Samples {
    fn default() -> Samples {
        Samples::Written
    }
}

/// Choices for a file that can be read in two ways.
#[derive(Clone, Copy, Debug, Default)]
pub struct Choices {
    /// The samples that the result may have.
    pub samples: Samples,
    /// The order of day and month in dates, which overrides that of the revision and the dates.
    pub dates: Option<Order>,
    /// The encoding of a configuration file that is neither UTF-16 nor marked as UTF-8.
    pub encoding: Option<Encoding>,
}

/// Where a byte 1A ends a configuration file: the first one at the start of a line, or without a
/// comma after it in its line. Another one is part of a text.
fn end_mark(text: &[u8]) -> Option<usize> {
    let mut found: Option<usize> = None;
    let mut is_start = true;
    for (i, b) in text.iter().enumerate() {
        match *b {
            0x1a if is_start => return Some(i),
            0x1a if found.is_none() => found = Some(i),
            b',' => found = None,
            b'\r' | b'\n' if found.is_some() => return found,
            _ => {}
        }
        is_start = *b == b'\r' || *b == b'\n';
    }
    found
}

/// The text before the byte 1A that ends a configuration file; None if there is none.
fn before_mark(text: &[u8]) -> Option<&[u8]> {
    let (front, _) = text.split_at_checked(end_mark(text)?)?;
    Some(front)
}

/// The text before the byte 1A that ends a configuration file, without empty lines at its end.
fn before_end<'a, A: Allocator + Copy>(
    notes: &mut Notes<A>,
    text: &'a [u8],
) -> Result<&'a [u8], ImportFault> {
    let place = Place::Whole("configuration file");
    let text = match before_mark(text) {
        Some(text) => {
            notes.tell(Key::Cfg1a, place, &[])?;
            text
        }
        None => text,
    };
    let (meant, left_out) = without_empty_end(text, b',');
    if left_out.contains(&b',') {
        notes.tell(Key::TrailingCommas, place, &[])?;
    }
    Ok(meant)
}

/// A text without the byte order mark of UTF-8, which is noted.
pub fn unmarked<'a, A: Allocator + Copy>(
    notes: &mut Notes<A>,
    name: &'static str,
    text: &'a [u8],
) -> Result<&'a [u8], ImportFault> {
    match without_mark(text) {
        Some(rest) => {
            notes.tell(Key::Bom, Place::Whole(name), &[])?;
            Ok(rest)
        }
        None => Ok(text),
    }
}

/// The text of a file in ASCII or UTF-8; `narrowed` is the converted text of a UTF-16 file.
fn text_in<'a, A: Allocator + Copy>(
    notes: &mut Notes<A>,
    name: &'static str,
    text: &'a [u8],
    narrowed: &'a Option<Vec<u8, A>>,
) -> Result<&'a [u8], ImportFault> {
    match narrowed {
        Some(text) => {
            notes.tell(Key::Utf16, Place::Whole(name), &[])?;
            Ok(text.as_slice())
        }
        None => unmarked(notes, name, text),
    }
}

/// The text of a configuration file in UTF-8, where it is in another encoding; None where it is not.
fn turned<A: Allocator + Copy>(
    alloc: A,
    cfg: &[u8],
    choices: Choices,
) -> Result<Option<Vec<u8, A>>, ImportFault> {
    match choices.encoding {
        Some(encoding) if without_mark(cfg).is_none() => Ok(Some(in_utf8(alloc, cfg, encoding)?)),
        _ => Ok(None),
    }
}

/// Reads a configuration file in UTF-8.
fn draft_in<A: Allocator + Copy>(
    alloc: A,
    notes: &mut Notes<A>,
    text: &[u8],
    choices: Choices,
) -> Result<ConfigDraft<A>, ImportFault> {
    let text = before_end(notes, text)?;
    draft_of(alloc, notes, text, choices.dates)
}

/// Reads a configuration file.
fn cfg_of<A: Allocator + Copy>(
    alloc: A,
    notes: &mut Notes<A>,
    cfg: &[u8],
    choices: Choices,
) -> Result<ConfigDraft<A>, ImportFault> {
    let narrowed = narrow(alloc, cfg)?;
    if narrowed.is_none()
        && let Some(text) = turned(alloc, cfg, choices)?
    {
        return draft_in(alloc, notes, &text, choices);
    }
    let text = text_in(notes, "configuration file", cfg, &narrowed)?;
    draft_in(alloc, notes, text, choices)
}

/// Reads a file whose data are declared as text.
fn file_of_text<A: Allocator + Copy>(
    alloc: A,
    notes: &mut Notes<A>,
    draft: ConfigDraft<A>,
    dat: &[u8],
    samples: Samples,
) -> Result<File<A>, ImportFault> {
    let narrowed = narrow(alloc, dat)?;
    let text = text_in(notes, "data file", dat, &narrowed)?;
    file_of(alloc, notes, draft, text, samples)
}

/// Reads a pair as a file, with all repairs that it needs, and notes each.
pub fn repaired<A: Allocator + Copy>(
    alloc: A,
    notes: &mut Notes<A>,
    cfg: &[u8],
    dat: &[u8],
    choices: Choices,
) -> Result<File<A>, ImportFault> {
    if choices.samples == Samples::Shown {
        notes.keep_texts();
    }
    let draft = cfg_of(alloc, notes, cfg, choices)?;
    let is_text = match draft.form {
        Some(form) => form.is_text(),
        None => true,
    };
    if is_text {
        file_of_text(alloc, notes, draft, dat, choices.samples)
    } else {
        file_of(alloc, notes, draft, dat, choices.samples)
    }
}
