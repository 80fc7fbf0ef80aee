//! Decodes texts: UTF-16, and the byte order mark of UTF-8.

use std::alloc::{AllocError, Allocator};

/// The byte order of a UTF-16 text.
#[derive(Clone, Copy, PartialEq, Eq)]
enum Utf16Order {
    Little,
    Big,
}

/// Whether a text is UTF-16: it has the mark, or every second one of its first bytes is zero.
fn wide_of(text: &[u8]) -> Option<Utf16Order> {
    match text {
        [0xff, 0xfe, ..] => Some(Utf16Order::Little),
        [0xfe, 0xff, ..] => Some(Utf16Order::Big),
        [a, 0, b, 0, ..] if *a != 0 && *b != 0 => Some(Utf16Order::Little),
        [0, a, 0, b, ..] if *a != 0 && *b != 0 => Some(Utf16Order::Big),
        _ => None,
    }
}

pub(crate) fn is_wide(text: &[u8]) -> bool {
    wide_of(text).is_some()
}

fn unit_of(wide: Utf16Order, pair: &[u8]) -> u16 {
    match (wide, pair) {
        (Utf16Order::Little, [low, high]) => u16::from_le_bytes([*low, *high]),
        (Utf16Order::Big, [high, low]) => u16::from_le_bytes([*low, *high]),
        _ => 0x3f,
    }
}

/// Appends a character below 65,536 in UTF-8; half of a surrogate pair becomes a question mark.
fn put_unit<A: Allocator>(out: &mut Vec<u8, A>, unit: u32) -> Result<(), AllocError> {
    if unit < 0x80 {
        out.push((unit & 0x7f) as u8)?;
        return Ok(());
    }
    if unit < 0x800 {
        out.push(0xc0 | (unit >> 6 & 0x1f) as u8)?;
    } else if 0xd800 <= unit && unit <= 0xdfff {
        out.push(b'?')?;
        return Ok(());
    } else {
        out.push(0xe0 | (unit >> 12 & 0x0f) as u8)?;
        out.push(0x80 | (unit >> 6 & 0x3f) as u8)?;
    }
    out.push(0x80 | (unit & 0x3f) as u8)?;
    Ok(())
}

/// Appends the character of a surrogate pair in UTF-8.
fn put_pair<A: Allocator>(out: &mut Vec<u8, A>, high: u32, low: u32) -> Result<(), AllocError> {
    let top = (high & 0x3ff) + 0x40;
    out.push(0xf0 | (top >> 8 & 0x07) as u8)?;
    out.push(0x80 | (top >> 2 & 0x3f) as u8)?;
    out.push(0x80 | (top << 4 & 0x30) as u8 | (low >> 6 & 0x0f) as u8)?;
    out.push(0x80 | (low & 0x3f) as u8)?;
    Ok(())
}

/// A UTF-16 text as UTF-8, without its mark; None if it is not UTF-16.
pub fn narrow<A: Allocator>(alloc: A, text: &[u8]) -> Result<Option<Vec<u8, A>>, AllocError> {
    let Some(wide) = wide_of(text) else {
        return Ok(None);
    };
    let mut out = Vec::new(alloc);
    let mut high: Option<u32> = None;
    for pair in text.chunks(2) {
        let unit = u32::from(unit_of(wide, pair));
        match high {
            Some(first) if 0xdc00 <= unit && unit <= 0xdfff => {
                put_pair(&mut out, first, unit)?;
                high = None;
                continue;
            }
            Some(first) => put_unit(&mut out, first)?,
            None => {}
        }
        high = None;
        if 0xd800 <= unit && unit <= 0xdbff {
            high = Some(unit);
        } else if unit != 0xfeff {
            put_unit(&mut out, unit)?;
        }
    }
    if let Some(first) = high {
        put_unit(&mut out, first)?;
    }
    Ok(Some(out))
}

/// A text without the byte order mark of UTF-8; None if it has none.
pub(crate) fn without_mark(text: &[u8]) -> Option<&[u8]> {
    match text {
        [0xef, 0xbb, 0xbf, rest @ ..] => Some(rest),
        _ => None,
    }
}
