//! Pieces of text.

use std::alloc::{AllocError, Allocator};
use std::fmt::Write;

/// Whether each byte of a text is one of these.
pub(crate) fn has_only(text: &[u8], bytes: &[u8]) -> bool {
    for b in text {
        if !bytes.contains(b) {
            return false;
        }
    }
    true
}

/// A text without the lines at its end that contain only blanks, zeros and separators, and these
/// lines.
pub(crate) fn without_empty_end(text: &[u8], mark: u8) -> (&[u8], &[u8]) {
    let mut parts = (&text[..0], text);
    let mut is_empty = true;
    let mut before = b'\n';
    for (i, b) in text.iter().enumerate() {
        match *b {
            b'\r' | b'\n' => {
                if !is_empty || before == b'\r' && parts.0.len() == i {
                    parts = (&text[..i + 1], &text[i + 1..]);
                }
                is_empty = true;
            }
            b' ' | b'\t' | 0 => {}
            other => is_empty = is_empty && other == mark,
        }
        before = *b;
    }
    if is_empty {
        parts
    } else {
        (text, &text[text.len()..])
    }
}

/// A text without the NUL bytes at its end.
pub(crate) fn without_nuls(text: &[u8]) -> &[u8] {
    let mut inner = text;
    for _ in 0..text.len() {
        match inner {
            [rest @ .., 0] => inner = rest,
            _ => return inner,
        }
    }
    inner
}

/// The texts before the first of these bytes, and from it on.
pub(crate) fn before_any<'a>(text: &'a [u8], bytes: &[u8]) -> Option<(&'a [u8], &'a [u8])> {
    for (i, b) in text.iter().enumerate() {
        if bytes.contains(b) {
            return Some((&text[..i], &text[i..]));
        }
    }
    None
}

/// The texts before and after the first of these bytes.
pub(crate) fn around_any<'a>(text: &'a [u8], bytes: &[u8]) -> Option<(&'a [u8], &'a [u8])> {
    for (i, b) in text.iter().enumerate() {
        if bytes.contains(b) {
            return Some((&text[..i], &text[i + 1..]));
        }
    }
    None
}

/// The digits.
pub(crate) const DIGITS: &[u8] = b"0123456789";

/// The number of letters of a text that are quoted, or of bytes where it is not UTF-8.
const QUOTED: usize = 80;

/// Whether a letter is not seen, or changes how others are seen.
fn is_hidden(letter: u32) -> bool {
    matches!(
        letter,
        0..=0x1f
            | 0x7f..=0x9f
            | 0xad
            | 0x61c
            | 0x180e
            | 0x200b..=0x200f
            | 0x2028..=0x202e
            | 0x2060..=0x206f
            | 0xe000..=0xf8ff
            | 0xfeff
            | 0xfff0..=0xfffb
            | 0xfffe..=0xffff
            | 0xe0000..
    )
}

/// Appends bytes, those outside printable ASCII as `\xNN`.
fn push_bytes<A: Allocator>(out: &mut String<A>, bytes: &[u8]) -> Result<(), AllocError> {
    for b in bytes {
        if 32 <= *b && *b <= 126 {
            out.push(char::from(*b))?;
        } else {
            write!(out, "\\x{b:02x}")?;
        }
    }
    Ok(())
}

/// Appends a letter, its bytes as `\xNN` if it is hidden.
fn push_letter<A: Allocator>(out: &mut String<A>, letter: char) -> Result<(), AllocError> {
    if !is_hidden(u32::from(letter)) {
        return out.push(letter);
    }
    let mut room = [0u8; 4];
    let text = letter.encode_utf8(&mut room);
    push_bytes(out, text.as_bytes())
}

/// Appends so many letters of a text, or bytes where it is not UTF-8: letters that are seen, and all
/// else as `\xNN`, so that texts that differ are shown differently. Returns whether there are more.
fn push_first<A: Allocator>(
    out: &mut String<A>,
    text: &[u8],
    most: usize,
) -> Result<bool, AllocError> {
    match str::from_utf8(text) {
        Ok(letters) => {
            for letter in letters.chars().take(most) {
                push_letter(out, letter)?;
            }
            Ok(letters.chars().nth(most).is_some())
        }
        Err(_) => {
            push_bytes(out, &text[..text.len().min(most)])?;
            Ok(most < text.len())
        }
    }
}

/// Appends a text that need not be UTF-8, as people see it.
pub(crate) fn push_shown<A: Allocator>(out: &mut String<A>, text: &[u8]) -> Result<(), AllocError> {
    let _ = push_first(out, text, usize::MAX)?;
    Ok(())
}

/// Appends a text in quotation marks, as it stands; of a long one its front, and three dots.
pub(crate) fn push_quoted<A: Allocator>(
    out: &mut String<A>,
    text: &[u8],
) -> Result<(), AllocError> {
    out.push_str("\"")?;
    let is_long = push_first(out, text, QUOTED)?;
    out.push_str(if is_long { "\"..." } else { "\"" })
}
