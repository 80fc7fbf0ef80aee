//! What the notes of an import name, as their printed lines have it, and how its data lie.

use crate::covers::Said;
use crate::own_data::{Form, Layout};
use comtrade_dialects::{Key, Note, Samples};
use comtrade_format::{Head, Kind};
use comtrade_values::{Items, integer_of, trim};
use std::alloc::{AllocError, Allocator};

/// Whether there is a note with this key.
pub(crate) fn has<A: Allocator>(notes: &[Note<A>], key: Key) -> bool {
    notes.iter().any(|note| note.key() == key)
}

/// The channel or row that a piece of a note names, counted from 0.
fn place_in(piece: &[u8]) -> Option<usize> {
    let text = match trim(piece) {
        [b'c', b'h', b'a', b'n', b'n', b'e', b'l', b' ', rest @ ..] => rest,
        [b'r', b'o', b'w', b' ', rest @ ..] => rest,
        _ => return None,
    };
    let digits = text.split(|b| *b == b':').next()?;
    usize::try_from(integer_of(digits)?).ok()?.checked_sub(1)
}

/// What a note names. If it was cut short, it has fewer places than repairs.
fn said_of<A: Allocator + Copy>(alloc: A, note: &Note<A>) -> Result<Said<A>, AllocError> {
    let mut named = Vec::new(alloc);
    for piece in note.details().split(|b| *b == b';') {
        if let Some(number) = place_in(piece) {
            named.push(number)?;
        }
    }
    let is_cut = (named.len() as u64) < note.count();
    let past = if is_cut { named.last().copied() } else { None };
    Ok(Said {
        key: note.key(),
        named: Items::of(named),
        past,
    })
}

/// What each of the notes names.
pub(crate) fn all_said<A: Allocator + Copy>(
    alloc: A,
    notes: &[Note<A>],
) -> Result<Vec<Said<A>, A>, AllocError> {
    let mut list = Vec::with_capacity(alloc, notes.len())?;
    for note in notes {
        list.push(said_of(alloc, note)?)?;
    }
    Ok(list)
}

/// How the data lie from which this head and these notes were made.
pub(crate) fn layout_of<A: Allocator>(
    head: &Head<A>,
    notes: &[Note<A>],
    samples: Samples,
) -> Layout {
    let form = match head.kind {
        Kind::Ascii => Form::Text {
            has_nines: has(notes, Key::Revision2013),
        },
        Kind::Binary if has(notes, Key::KindFloat32) => Form::Float,
        Kind::Binary if has(notes, Key::KindBinary32) => Form::Long,
        Kind::Binary => Form::Short,
    };
    Layout {
        form,
        is_big: has(notes, Key::BigEndian),
        spare: if has(notes, Key::RowSize) { 2 } else { 0 },
        analog: head.analog.items().len(),
        status: head.status.items().len(),
        samples,
    }
}
