//! The letter at the start of a text.

ghost use Rattle.std.specs.Prelude.{◌<◌, ◌≤◌, IfSome};

use crate::code_pages::{CP437, CP850, CP866, WINDOWS_1251, WINDOWS_1252};
use crate::encoding::Encoding;
use crate::gbk::gbk_letters;
use crate::shift_jis::shift_jis_letters;

/// What a byte from 80 (hexadecimal) on begins.
#[derive(Clone, Copy)]
pub(crate) enum Letter {
    /// A letter of this byte alone, by its code point.
    One(u16),
    /// A letter of this byte and the next one, in UTF-8 with dots at its end.
    Two([u8; 3]),
    /// No letter.
    Unknown,
}

/// Cells in a line of a table, and the bytes of a line.
const CELLS: usize = 32;

const LINE: usize = 3 * CELLS + 1;

/// The cell at this place of a table of letters with two bytes.
fn cell_at(table: &str, place: usize) -> Letter
    requires { place < 100000 }
{
    let from = place / CELLS * LINE + place % CELLS * 3;
    match table.as_bytes().get(from..from + 3) {
        Some([b'.', ..]) => Letter::Unknown,
        Some([a, b, c]) => Letter::Two([*a, *b, *c]),
        _ => Letter::Unknown,
    }
}

/// A letter of GBK.
fn in_gbk(first: u8, second: Option<u8>) -> Letter
    requires { 128 ≤ first }
{
    match second {
        _ if first == 0x80 => Letter::One(0x20AC),
        Some(second) if 0x40 <= second && second < 0xFF && first < 0xFF => {
            let line = usize::from(first - 0x81) * 0xBF;
            cell_at(gbk_letters(), line + usize::from(second - 0x40))
        }
        _ => Letter::Unknown,
    }
}

/// The place of a first byte of Shift JIS among all such bytes.
fn lead_of(first: u8) -> Option<usize>
    ensures { IfSome result (λ line. line < 60) }
{
    match first {
        0x81..=0x9F => Some(usize::from(first - 0x81)),
        0xE0..=0xFC => Some(usize::from(first - 0xC1)),
        _ => None,
    }
}

/// A letter of Shift JIS.
fn in_shift_jis(first: u8, second: Option<u8>) -> Letter {
    if 0xA1 <= first && first <= 0xDF {
        return Letter::One(0xFF61 + u16::from(first - 0xA1));
    }
    match (lead_of(first), second) {
        (Some(line), Some(second)) if 0x40 <= second && second < 0xFD => cell_at(
            shift_jis_letters(),
            line * 0xBD + usize::from(second - 0x40),
        ),
        _ => Letter::Unknown,
    }
}

/// The code point that a code page has for a byte from 80 (hexadecimal) on.
fn in_page(page: &[u16; 128], first: u8) -> Letter {
    match page[usize::from(first & 0x7F)] {
        0 => Letter::Unknown,
        code => Letter::One(code),
    }
}

/// What a byte from 80 (hexadecimal) on begins, by the byte after it.
pub(crate) fn letter_of(encoding: Encoding, first: u8, second: Option<u8>) -> Letter
    requires { 128 ≤ first }
{
    match encoding {
        Encoding::Utf8 | Encoding::Latin1 => Letter::One(u16::from(first)),
        Encoding::Windows1251 => in_page(&WINDOWS_1251, first),
        Encoding::Windows1252 => in_page(&WINDOWS_1252, first),
        Encoding::Cp437 => in_page(&CP437, first),
        Encoding::Cp850 => in_page(&CP850, first),
        Encoding::Cp866 => in_page(&CP866, first),
        Encoding::Gbk => in_gbk(first, second),
        Encoding::ShiftJis => in_shift_jis(first, second),
    }
}
