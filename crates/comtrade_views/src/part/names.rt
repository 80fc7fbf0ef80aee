//! Channels by name.

use crate::part::fault::PartFault;
use comtrade_format::{Head, Row};
use std::alloc::{AllocError, Allocator};

/// The channels that are asked for, by their indices from 0.
#[derive(Drop)]
pub(crate) struct Channels<A: Allocator> {
    pub(crate) analog: Vec<usize, A>,
    pub(crate) status: Vec<usize, A>,
}

/// Whether a text matches a pattern in which * stands for any characters. Case is ignored.
pub(crate) fn fits<'x>(name: &'x [u8], text: &'x [u8]) -> bool {
    let mut match_so_far = Some(Matched {
        name,
        text,
        star: None,
    });
    // (each star is tried at each byte at most)
    for _ in 0..=text.len() {
        for _ in 0..=name.len() {
            match match_so_far {
                Some(matched) if !matched.text.is_empty() => match_so_far = matched.next(),
                _ => break,
            }
        }
    }
    match match_so_far {
        Some(matched) => matched.text.is_empty() && matched.name.iter().all(|b| *b == b'*'),
        None => false,
    }
}

/// What is left of a pattern and of the text; and what was left of both after the last star, which
/// so far stands for nothing more.
#[derive(Clone, Copy)]
struct Matched<'a> {
    name: &'a [u8],
    text: &'a [u8],
    star: Option<(&'a [u8], &'a [u8])>,
}

impl<'a> Matched<'a> {
    /// One byte further; None where the text does not match.
    fn next(self) -> Option<Matched<'a>> {
        let (first, text) = self.text.split_first()?;
        match self.name.split_first() {
            Some((b'*', name)) => Some(Matched {
                name,
                text: self.text,
                star: Some((name, self.text)),
            }),
            Some((b, name)) if b.eq_ignore_ascii_case(first) => Some(Matched {
                name,
                text,
                star: self.star,
            }),
            _ => self.covered(),
        }
    }

    /// The last star stands for one byte more.
    fn covered(self) -> Option<Matched<'a>> {
        let (name, text) = self.star?;
        let (_, text) = text.split_first()?;
        Some(Matched {
            name,
            text,
            star: Some((name, text)),
        })
    }
}

/// The index, from 0, of the channel with a number, from 1.
fn place_of(text: &str) -> Option<usize> {
    text.parse::<usize>().ok()?.checked_sub(1)
}

/// The index of `D5`, a status channel by its number.
fn status_place(text: &str) -> Option<usize> {
    place_of(text.strip_prefix('D').or_else(|| text.strip_prefix('d'))?)
}

/// Marks the channel at an index, if there is one.
fn mark_place(marks: &mut [bool], place: Option<usize>) -> bool {
    let Some(place) = place else {
        return false;
    };
    match marks.get_mut(place) {
        Some(mark) => {
            *mark = true;
            true
        }
        None => false,
    }
}

/// Marks what one name selects: the channels with a matching id, else the channel with this number.
fn mark<A: Allocator>(
    head: &Head<A>,
    analog: &mut [bool],
    status: &mut [bool],
    name: &str,
) -> bool {
    let mut is_found = false;
    for (mark, channel) in analog.iter_mut().zip(head.analog.items()) {
        if fits(name.as_bytes(), channel.id.items()) {
            *mark = true;
            is_found = true;
        }
    }
    for (mark, channel) in status.iter_mut().zip(head.status.items()) {
        if fits(name.as_bytes(), channel.id.items()) {
            *mark = true;
            is_found = true;
        }
    }
    is_found || mark_place(analog, place_of(name)) || mark_place(status, status_place(name))
}

/// The indices that are marked.
fn places_of<A: Allocator>(alloc: A, marks: &[bool]) -> Result<Vec<usize, A>, AllocError> {
    let mut places = Vec::new(alloc);
    for (i, is_marked) in marks.iter().enumerate() {
        if *is_marked {
            places.push(i)?;
        }
    }
    Ok(places)
}

/// As many marks as there are channels.
fn marks<A: Allocator>(
    alloc: A,
    count: usize,
    is_marked: bool,
) -> Result<Vec<bool, A>, AllocError> {
    let mut marks = Vec::new(alloc);
    for _ in 0..count {
        marks.push(is_marked)?;
    }
    Ok(marks)
}

/// Removes the marks of status channels whose bit is the same in all rows.
fn unmark_still<A: Allocator>(marks: &mut [bool], rows: &[Row<A>]) {
    for (i, mark) in marks.iter_mut().enumerate() {
        let first = bit_in(rows.first(), i);
        if rows.iter().all(|row| bit_in(Some(row), i) == first) {
            *mark = false;
        }
    }
}

fn bit_in<A: Allocator>(row: Option<&Row<A>>, place: usize) -> Option<bool> {
    row?.bits.items().get(place).copied()
}

/// The channels that are asked for: all of them without names; with `is_changed` only the status
/// channels that change in these rows.
pub(crate) fn channels_of<'a, A: Allocator + Copy>(
    alloc: A,
    head: &Head<A>,
    rows: &[Row<A>],
    names: Option<&'a str>,
    is_changed: bool,
) -> Result<Channels<A>, PartFault<'a>> {
    let is_all = names.is_none();
    let mut analog = marks(alloc, head.analog.items().len(), is_all)?;
    let mut status = marks(alloc, head.status.items().len(), is_all)?;
    if let Some(names) = names {
        for name in names.split(',') {
            let name = name.trim();
            if !mark(head, &mut analog, &mut status, name) {
                return Err(PartFault::NoChannel(name));
            }
        }
    }
    if is_changed {
        unmark_still(&mut status, rows);
    }
    Ok(Channels {
        analog: places_of(alloc, &analog)?,
        status: places_of(alloc, &status)?,
    })
}
