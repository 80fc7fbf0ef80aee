//! BINARY pairs that need not be held in memory, and whether one is meant as it reads.

use crate::ending::has_ending;
use crate::find::Pairing;
use crate::pieces::{pieces_of, set_rows};
use crate::read_named;
use comtrade_dialects::{SoundRows, has_spare_bits, is_head_sound};
use comtrade_format::{Border, File, Head, Row, search_of};
use comtrade_io::ToolFault;
use comtrade_read::{ReadFault, read_cfg};
use comtrade_table::{BinaryTable, Layout, layout_of};
use comtrade_values::{Decimal, Items};
use std::alloc::Global;
use std::fs;
use std::rt::Files;

/// A BINARY pair whose rates give the times of its rows, and how its rows lie.
#[derive(Drop)]
pub(crate) struct Plain<'a> {
    /// The name of its data file, and the length of both files.
    pub(crate) dat: &'a str,
    pub(crate) bytes: u64,
    /// Its head, without rows, and the configuration file of which it was read.
    pub(crate) file: File,
    pub(crate) text: Vec<u8>,
    /// The rate of its first rows.
    pub(crate) samp: Decimal,
    pub(crate) layout: Layout,
}

/// The rate of the first rows, if the rates give the times of all rows.
fn first_rate(head: &Head) -> Option<Decimal> {
    let rates = head.rates.items();
    if head.nrates == 0 || !rates.iter().all(|rate| 0 < rate.samp.units()) {
        return None;
    }
    Some(rates.first()?.samp)
}

/// The length of a file with this name, if it is that of its rows.
fn length_of<R: Files>(rt: &R, name: &str, layout: Layout) -> Option<u64> {
    let data = fs::metadata(rt, name).ok()?;
    let length = data.len();
    if data.is_file() && length as u128 == layout.rows as u128 * layout.size as u128 {
        Some(length)
    } else {
        None
    }
}

/// Whether this is the name of a file that is neither standard input nor compressed.
fn is_plain_name(name: &str) -> bool {
    name != "-" && !has_ending(name.as_bytes(), b".gz")
}

/// A plain BINARY pair; None for every other one, and where it cannot be read.
pub(crate) fn plain_of<'a, R: Files + Input + AllocGlobal>(
    rt: &R,
    names: &'a Pairing,
) -> Option<Plain<'a>> {
    let dat = match &names.dat {
        Some(dat) => dat.as_str(),
        None => return None,
    };
    let cfg = names.cfg.as_str();
    if !is_plain_name(cfg) || !is_plain_name(dat) {
        return None;
    }
    let text = read_named(rt, cfg).ok()?;
    let head = read_cfg(rt.alloc(), &text).ok()?;
    let samp = first_rate(&head)?;
    let layout = layout_of(&head)?;
    let length = length_of(rt, dat, layout)?;
    let rows: Vec<Row> = Vec::new(rt.alloc());
    let file = File {
        head,
        rows: Items::of(rows),
    };
    Some(Plain {
        dat,
        bytes: length.checked_add(text.len() as u64)?,
        file,
        text,
        samp,
        layout,
    })
}

/// A second head of a plain pair, under which the rows of its pieces are read.
pub(crate) fn under_of(alloc: Global, plain: &Plain<'_>) -> Result<Head, ToolFault> {
    match read_cfg(alloc, &plain.text) {
        Ok(head) => Ok(head),
        Err(ReadFault::Memory) => Err(ToolFault::Memory),
        Err(_) => Err(ToolFault::Input),
    }
}

/// Which rate gives the interval across the borders of the rates, by the stamps of all rows. They
/// are read only where there are several rates.
pub(crate) fn border_in<R: Files + AllocGlobal>(
    rt: &R,
    plain: &Plain<'_>,
) -> Result<Border, ToolFault> {
    let head = &plain.file.head;
    if head.rates.items().len() < 2 {
        return Ok(Border::Old);
    }
    let mut search = search_of(head);
    let mut under = under_of(rt.alloc(), plain)?;
    let mut pieces = pieces_of(rt, plain.dat, plain.layout, (0, plain.layout.rows))?;
    for _ in 0..u64::MAX {
        let Some(piece) = pieces.next()? else {
            break;
        };
        set_rows(rt.alloc(), &mut under, plain.samp, piece.rows)?;
        let Ok(table) = BinaryTable::of(&under, piece.bytes) else {
            return Err(ToolFault::Input);
        };
        for i in 0..table.len() {
            let index = piece.first.checked_add(i as u64);
            search = search.after(index.ok_or(ToolFault::Input)?, table.stamp(i));
        }
    }
    Ok(search.border())
}

/// Takes the rows of a piece; false where a number is missing.
fn take_rows(sound: &mut SoundRows<Global>, table: &BinaryTable<'_>) -> bool {
    for i in 0..table.len() {
        let Some(number) = table.number(i) else {
            return false;
        };
        sound.take(number, table.stamp(i));
    }
    true
}

/// Takes the rows of a piece under a head of as many; false if one shows that a repair is needed.
fn take_piece(
    sound: &mut SoundRows<Global>,
    under: &Head,
    bytes: &[u8],
) -> Result<bool, ToolFault> {
    let analog = under.analog.items().len();
    let status = under.status.items().len();
    match BinaryTable::of(under, bytes) {
        Ok(table) => Ok(!has_spare_bits(bytes, analog, status) && take_rows(sound, &table)),
        Err(_) => Err(ToolFault::Input),
    }
}

/// Whether a pair is meant as it reads.
pub(crate) fn is_meant<R: Files + AllocGlobal>(
    rt: &R,
    plain: &Plain<'_>,
    border: Border,
) -> Result<bool, ToolFault> {
    let head = &plain.file.head;
    if !is_head_sound(head) {
        return Ok(false);
    }
    let mut sound = SoundRows::new(rt.alloc(), head, border)?;
    let mut under = under_of(rt.alloc(), plain)?;
    let mut pieces = pieces_of(rt, plain.dat, plain.layout, (0, plain.layout.rows))?;
    for _ in 0..u64::MAX {
        let Some(piece) = pieces.next()? else {
            break;
        };
        set_rows(rt.alloc(), &mut under, plain.samp, piece.rows)?;
        if !take_piece(&mut sound, &under, piece.bytes)? {
            return Ok(false);
        }
    }
    Ok(sound.are_sound())
}
