//! Converts texts to what a file of 1999 can hold: short printable ASCII without commas.

use comtrade_values::{put, put_number, trim};
use std::alloc::{AllocError, Allocator};

/// The ASCII spelling of a character outside printable ASCII; a question mark if there is none.
fn spelling(code: u32) -> &'static str {
    match code {
        0xe4 => "ae",
        0xf6 => "oe",
        0xfc => "ue",
        0xc4 => "Ae",
        0xd6 => "Oe",
        0xdc => "Ue",
        0xdf => "ss",
        0xb0 | 0xba => "deg",
        0xb5 | 0x3bc => "u",
        0x3a9 | 0x2126 => "Ohm",
        0xb2 => "2",
        0xb3 => "3",
        0xb9 => "1",
        0xe5 | 0xe0..=0xe3 | 0x101 | 0x103 | 0x105 => "a",
        0xc5 | 0xc0..=0xc3 | 0x100 | 0x102 | 0x104 => "A",
        0xe6 => "ae",
        0xc6 => "Ae",
        0xf8 | 0xf2..=0xf5 | 0x14d | 0x151 => "o",
        0xd8 | 0xd2..=0xd5 | 0x14c | 0x150 => "O",
        0xe8..=0xeb | 0x113 | 0x117 | 0x119 | 0x11b => "e",
        0xc8..=0xcb | 0x112 | 0x116 | 0x118 | 0x11a => "E",
        0xec..=0xef | 0x12b | 0x12f => "i",
        0xcc..=0xcf | 0x12a | 0x12e | 0x130 => "I",
        _ => spelling_further(code),
    }
}

fn spelling_further(code: u32) -> &'static str {
    match code {
        0xf9..=0xfb | 0x16b | 0x16f | 0x171 | 0x173 => "u",
        0xd9..=0xdb | 0x16a | 0x16e | 0x170 | 0x172 => "U",
        0xf1 | 0x144 | 0x146 | 0x148 => "n",
        0xd1 | 0x143 | 0x145 | 0x147 => "N",
        0xe7 | 0x107 | 0x10d => "c",
        0xc7 | 0x106 | 0x10c => "C",
        0xfd | 0xff => "y",
        0xdd => "Y",
        0x142 => "l",
        0x141 => "L",
        0x15b | 0x15f | 0x161 => "s",
        0x15a | 0x15e | 0x160 => "S",
        0x17a | 0x17c | 0x17e => "z",
        0x179 | 0x17b | 0x17d => "Z",
        0x159 => "r",
        0x158 => "R",
        0x165 => "t",
        0x10f | 0xf0 => "d",
        0x11f => "g",
        0x394 => "Delta",
        0x3c6 | 0x3a6 => "phi",
        0xb7 | 0xd7 => "*",
        0xb1 => "+-",
        0xbd => "1/2",
        0xbc => "1/4",
        0xbe => "3/4",
        0x2013 | 0x2014 | 0x2212 => "-",
        0x2018 | 0x2019 | 0xb4 => "'",
        0x201c..=0x201e => "\"",
        0xa0 | 9 => " ",
        _ => "?",
    }
}

/// A text in ASCII.
#[derive(Drop)]
pub(crate) struct Plain<A: Allocator> {
    pub bytes: Vec<u8, A>,
    /// Characters outside printable ASCII were replaced.
    pub is_spelled: bool,
    /// A comma was replaced.
    pub had_comma: bool,
}

impl<A: Allocator> Plain<A> {
    fn put(&mut self, code: u32) -> Result<(), AllocError> {
        if code == 44 {
            self.had_comma = true;
            self.bytes.push(b';')?;
            return Ok(());
        }
        if 32 <= code && code <= 126 {
            self.bytes.push((code & 0x7f) as u8)?;
            return Ok(());
        }
        self.is_spelled = true;
        self.bytes.extend_from_slice(spelling(code).as_bytes())
    }
}

/// A text in ASCII, converted from UTF-8, or from Latin-1 if it is not UTF-8.
pub(crate) fn plain_of<A: Allocator>(alloc: A, text: &[u8]) -> Result<Plain<A>, AllocError> {
    let mut plain = Plain {
        bytes: Vec::new(alloc),
        is_spelled: false,
        had_comma: false,
    };
    match str::from_utf8(text) {
        Ok(text) => {
            for c in text.chars() {
                plain.put(u32::from(c))?;
            }
        }
        Err(_) => {
            for b in text {
                plain.put(u32::from(*b))?;
            }
        }
    }
    Ok(plain)
}

/// A text with a number appended, together at most this many bytes; None if the number alone is
/// longer.
pub(crate) fn numbered<A: Allocator + Copy>(
    alloc: A,
    text: &[u8],
    most: usize,
    number: u64,
) -> Result<Option<Vec<u8, A>>, AllocError> {
    let mut end = Vec::new(alloc);
    put(&mut end, "~")?;
    put_number(&mut end, number)?;
    let Some(room) = most.checked_sub(end.len()) else {
        return Ok(None);
    };
    let mut whole = Vec::from_slice(alloc, cut_to(text, room))?;
    whole.extend_from_slice(&end)?;
    Ok(Some(whole))
}

/// The first bytes of a text, without blanks at their end.
pub(crate) fn cut_to(text: &[u8], most: usize) -> &[u8] {
    trim(&text[..text.len().min(most)])
}
