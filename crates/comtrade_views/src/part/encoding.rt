//! The texts of a file in UTF-8, from the encoding that is named, and texts of no known encoding as
//! they are shown.

use comtrade_format::File;
use comtrade_letters::{Encoding, in_utf8, put_escaped};
use comtrade_values::Items;
use dfr_channels::{AnalogChannel, StatusChannel};
use std::alloc::{AllocError, Allocator};
use std::mem;

/// The byte-order mark of UTF-8, with which the first text of a file may begin.
const MARK: &[u8] = b"\xef\xbb\xbf";

/// How texts are changed.
#[derive(Clone, Copy, PartialEq, Eq)]
enum Change {
    /// From this encoding to UTF-8.
    From(Encoding),
    /// To what is shown of them.
    Shown,
}

/// Whether a file's first text begins with the byte-order mark.
fn is_marked<A: Allocator>(file: &File<A>) -> bool {
    file.head.station.items().starts_with(MARK)
}

/// A file's first text without the byte-order mark, if it has one.
fn unmarked<A: Allocator>(alloc: A, file: &File<A>) -> Result<Option<Vec<u8, A>>, AllocError> {
    match file.head.station.items().strip_prefix(MARK) {
        Some(station) => Ok(Some(Vec::from_slice(alloc, station)?)),
        None => Ok(None),
    }
}

/// A text without the NULs at its end.
fn without_padding(text: &[u8]) -> &[u8] {
    let mut rest = text;
    for _ in 0..text.len() {
        match rest {
            [front @ .., 0] => rest = front,
            _ => break,
        }
    }
    rest
}

/// What is shown of a text: itself without padding. If it is not UTF-8, each byte from 80
/// (hexadecimal) on becomes `\xNN`, so that no part of it is taken for UTF-8.
fn shown<A: Allocator>(alloc: A, text: &[u8]) -> Result<Vec<u8, A>, AllocError> {
    let text = without_padding(text);
    let mut made = Vec::new(alloc);
    if str::from_utf8(text).is_ok() {
        made.extend_from_slice(text)?;
        return Ok(made);
    }
    for b in text {
        if *b < 0x80 {
            made.push(*b)?;
        } else {
            put_escaped(&mut made, *b)?;
        }
    }
    Ok(made)
}

/// Changes a text.
fn turn<A: Allocator>(alloc: A, text: &mut Items<u8, A>, change: Change) -> Result<(), AllocError> {
    let made = match change {
        Change::From(encoding) => in_utf8(alloc, text.items(), encoding)?,
        Change::Shown => shown(alloc, text.items())?,
    };
    *text = Items::of(made);
    Ok(())
}

/// A channel with texts that can be changed.
trait Named<A: Allocator>: Drop {
    fn turn_texts(&mut self, alloc: A, change: Change) -> Result<(), AllocError>;
}

impl<A: Allocator + Copy> Named<A> for AnalogChannel<A> {
    fn turn_texts(&mut self, alloc: A, change: Change) -> Result<(), AllocError> {
        turn(alloc, &mut self.id, change)?;
        turn(alloc, &mut self.phase, change)?;
        turn(alloc, &mut self.component, change)?;
        turn(alloc, &mut self.unit, change)
    }
}

impl<A: Allocator + Copy> Named<A> for StatusChannel<A> {
    fn turn_texts(&mut self, alloc: A, change: Change) -> Result<(), AllocError> {
        turn(alloc, &mut self.id, change)?;
        turn(alloc, &mut self.phase, change)?;
        turn(alloc, &mut self.component, change)
    }
}

/// Changes the texts of channels.
fn turn_all<T: Named<A>, A: Allocator + Copy>(
    alloc: A,
    list: &mut Items<T, A>,
    change: Change,
) -> Result<(), AllocError> {
    let mut channels = mem::replace(list, Items::of(Vec::new(alloc))).into_vec();
    let mut turned = Ok(());
    for channel in channels.iter_mut() {
        if turned.is_ok() {
            turned = channel.turn_texts(alloc, change);
        }
    }
    *list = Items::of(channels);
    turned
}

/// Changes the texts of a file.
fn turn_file<A: Allocator + Copy>(
    alloc: A,
    file: &mut File<A>,
    change: Change,
) -> Result<(), AllocError> {
    turn(alloc, &mut file.head.station, change)?;
    turn(alloc, &mut file.head.device, change)?;
    turn_all(alloc, &mut file.head.analog, change)?;
    turn_all(alloc, &mut file.head.status, change)
}

/// Converts the texts of a file, which have this encoding, to UTF-8. Those of a file with the
/// byte-order mark of UTF-8 are in UTF-8.
pub fn spell_in_utf8<A: Allocator + Copy>(
    alloc: A,
    file: &mut File<A>,
    encoding: Encoding,
) -> Result<(), AllocError> {
    if encoding == Encoding::Utf8 || is_marked(file) {
        return Ok(());
    }
    turn_file(alloc, file, Change::From(encoding))
}

/// Converts the texts of a file to what is shown of them: without the byte-order mark of UTF-8 and
/// the NULs at their ends, and with each byte from 80 (hexadecimal) on as `\xNN` in a text that is
/// not UTF-8.
pub fn spell_for_views<A: Allocator + Copy>(
    alloc: A,
    file: &mut File<A>,
) -> Result<(), AllocError> {
    if let Some(station) = unmarked(alloc, file)? {
        file.head.station = Items::of(station);
    }
    turn_file(alloc, file, Change::Shown)
}
