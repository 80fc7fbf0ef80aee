//! Texts in an encoding as UTF-8.

ghost use Rattle.std.specs.Prelude.{◌≡◌, ◌<◌, ◌≤◌, All, IfOk};

use crate::encoding::Encoding;
use crate::letter::{Letter, letter_of};
use std::alloc::{AllocError, Allocator};

/// A hexadecimal digit.
fn hex_digit(n: u8) -> u8 {
    match b"0123456789abcdef".get(usize::from(n)) {
        Some(digit) => *digit,
        None => b'?',
    }
}

/// Appends a byte as `\xNN`.
pub fn put_escaped<A: Allocator>(out: &mut Vec<u8, A>, b: u8) -> Result<(), AllocError> {
    out.extend_from_slice(&[b'\\', b'x', hex_digit(b >> 4), hex_digit(b & 0xF)])
}

/// Appends a letter from 80 (hexadecimal) on in UTF-8.
fn put_letter<A: Allocator>(out: &mut Vec<u8, A>, letter: u16) -> Result<(), AllocError> {
    let last = 0x80 | (letter & 0x3F) as u8;
    let middle = (letter >> 6 & 0x3F) as u8;
    if letter < 0x800 {
        out.extend_from_slice(&[0xC0 | middle, last])
    } else {
        out.extend_from_slice(&[0xE0 | (letter >> 12) as u8, 0x80 | middle, last])
    }
}

/// Appends a letter in UTF-8 without the dots at its end.
fn put_cell<A: Allocator>(out: &mut Vec<u8, A>, cell: [u8; 3]) -> Result<(), AllocError> {
    for b in cell {
        if b != b'.' {
            out.push(b)?;
        }
    }
    Ok(())
}

/// The text in UTF-8 of a text in this encoding. A byte that begins no letter becomes `\xNN`. A text
/// in UTF-8 is itself.
pub fn in_utf8<A: Allocator>(
    alloc: A,
    text: &[u8],
    encoding: Encoding,
) -> Result<Vec<u8, A>, AllocError>
    ensures ascii { All (λ b. b < 128) text.now → IfOk result (λ made. made.items ≡ text.now) }
    ensures utf8 { encoding ≡ Encoding.Utf8 → IfOk result (λ made. made.items ≡ text.now) }
{
    if encoding == Encoding::Utf8 {
        return Vec::from_slice(alloc, text);
    }
    let mut made = Vec::new(alloc);
    let mut rest = text;
    while let [first, more @ ..] = rest {
        rest = more;
        if *first < 0x80 {
            made.push(*first)?;
            continue;
        }
        match letter_of(encoding, *first, more.first().copied()) {
            Letter::One(code) => put_letter(&mut made, code)?,
            Letter::Two(cell) => {
                put_cell(&mut made, cell)?;
                if let [_, after @ ..] = more {
                    rest = after;
                }
            }
            Letter::Unknown => put_escaped(&mut made, *first)?,
        }
    }
    Ok(made)
}
