//! Text that is built piece by piece, and the elements of an SVG picture. A failed allocation is
//! remembered until the end.

ghost use Rattle.std.specs.Prelude.{◌<◌, pos, neg_ℤ};
ghost use Rattle.jiff_core.specs.Calendar.{IsBetween};

use crate::plan::Down;
use comtrade_io::{ToolFault, put_safe, seen_len, write_out};
use comtrade_values::{
    Decimal, Exact, put, put_civil, put_count, put_decimal, put_exact, put_number,
};
use std::alloc::{AllocError, Allocator};
use std::io::Write;

/// The hexadecimal digit of a number.
fn hex_digit(n: u8) -> u8
    requires { n < 16 }
{
    if n < 10 { b'0' + n } else { b'a' + (n - 10) }
}

/// The text so far, and whether an allocation failed on the way.
#[derive(Drop)]
pub(crate) struct Sheet<A: Allocator> {
    bytes: Vec<u8, A>,
    is_cut: bool,
}

impl<A: Allocator> Sheet<A> {
    pub(crate) fn new(alloc: A) -> Sheet<A> {
        Sheet {
            bytes: Vec::new(alloc),
            is_cut: false,
        }
    }

    fn keep(&mut self, outcome: Result<(), AllocError>) {
        if outcome.is_err() {
            self.is_cut = true;
        }
    }

    /// An empty sheet in the same memory.
    pub(crate) fn another(&self) -> Sheet<A>
    where
        A: Copy,
    {
        Sheet::new(*self.bytes.allocator())
    }

    /// Adds a text unchanged.
    pub(crate) fn text(&mut self, text: &str) {
        let outcome = put(&mut self.bytes, text);
        self.keep(outcome);
    }

    /// Adds texts unchanged, one after the other.
    pub(crate) fn texts(&mut self, texts: &[&str]) {
        for text in texts {
            self.text(text);
        }
    }

    pub(crate) fn number(&mut self, n: u64) {
        let outcome = put_number(&mut self.bytes, n);
        self.keep(outcome);
    }

    /// Adds a number and its noun, in the singular or the plural.
    pub(crate) fn count(&mut self, n: u64, one: &str, more: &str) {
        let outcome = put_count(&mut self.bytes, n, one, more);
        self.keep(outcome);
    }

    /// Adds a decimal of a file.
    pub(crate) fn decimal(&mut self, decimal: Decimal) {
        let outcome = put_decimal(&mut self.bytes, decimal);
        self.keep(outcome);
    }

    /// Adds units / 10^places, without trailing zeros after the point.
    pub(crate) fn scaled(&mut self, units: i128, places: i32) {
        let number = Exact { units, places };
        let outcome = put_exact(&mut self.bytes, number);
        self.keep(outcome);
    }

    pub(crate) fn signed(&mut self, n: i64) {
        self.scaled(i128::from(n), 0);
    }

    /// Adds an instant as `yyyy-mm-dd hh:mm:ss.ssssss`. Its year is from 1 to 9999.
    pub(crate) fn civil(&mut self, instant: i64)
        requires { IsBetween (neg_ℤ (pos 62135596800000000)) (pos 253402300799999999) instant }
    {
        let outcome = put_civil(&mut self.bytes, instant, b' ');
        self.keep(outcome);
    }

    /// Adds tenths of a pixel as pixels.
    pub(crate) fn tenths(&mut self, n: u32) {
        self.number(u64::from(n / 10));
        if n % 10 != 0 {
            self.text(".");
            self.number(u64::from(n % 10));
        }
    }

    /// Adds a text of a file as printable XML characters.
    pub(crate) fn name(&mut self, text: &[u8]) {
        let mut left = text;
        for _ in 0..=text.len() {
            let (front, rest) = match left.iter().position(|b| b"&<>\"".contains(b)) {
                Some(at) => left.split_at(at),
                None => (left, [].as_slice()),
            };
            let outcome = put_safe(&mut self.bytes, front);
            self.keep(outcome);
            let Some((sign, more)) = rest.split_first() else {
                return;
            };
            self.text(match *sign {
                b'&' => "&amp;",
                b'<' => "&lt;",
                b'>' => "&gt;",
                _ => "&quot;",
            });
            left = more;
        }
    }

    /// Adds bytes unchanged.
    fn raw(&mut self, bytes: &[u8]) {
        let outcome = self.bytes.extend_from_slice(bytes);
        self.keep(outcome);
    }

    fn json_byte(&mut self, b: u8) {
        match b {
            b'"' | b'\\' | b'<' | b'&' | 0..=31 | 127..=255 => {
                self.raw(&[
                    b'\\',
                    b'u',
                    b'0',
                    b'0',
                    hex_digit(b / 16),
                    hex_digit(b % 16),
                ]);
            }
            _ => self.raw(&[b]),
        }
    }

    /// Adds a text of a file as a JSON string that is safe in a page. A printable multi-byte
    /// character is kept; a byte that belongs to none becomes the character of Latin-1.
    pub(crate) fn json(&mut self, text: &[u8]) {
        self.text("\"");
        let mut left = text;
        for _ in 0..text.len() {
            let Some((first, others)) = left.split_first() else {
                break;
            };
            let count = seen_len(left);
            left = if count < 2 {
                self.json_byte(*first);
                others
            } else {
                // (a character that is seen is whole: the text has its bytes)
                let (front, rest) = left.split_at_checked(count).unwrap_or((left, &[]));
                self.raw(front);
                rest
            };
        }
        self.text("\"");
    }

    /// Opens a text element: `<text x=.. y=..`, then these attributes, up to the text.
    pub(crate) fn begin_text(&mut self, x: u32, y: Down, rest: &str) {
        self.text("<text x=\"");
        self.tenths(x);
        self.text("\" y=\"");
        self.tenths(y.tenths);
        self.texts(&["\"", rest, ">"]);
    }

    pub(crate) fn end_text(&mut self) {
        self.text("</text>\n");
    }

    /// Adds a text at a position.
    pub(crate) fn label(&mut self, x: u32, y: Down, rest: &str, text: &str) {
        self.begin_text(x, y, rest);
        self.text(text);
        self.end_text();
    }

    /// Adds a point of a path, after its letter.
    pub(crate) fn point(&mut self, letter: &str, x: u32, y: u32) {
        self.text(letter);
        self.tenths(x);
        self.text(" ");
        self.tenths(y);
    }

    /// Adds a step of a path along one axis, after its letter.
    pub(crate) fn along(&mut self, letter: &str, n: u32) {
        self.text(letter);
        self.tenths(n);
    }

    /// Adds a rectangle from its corner, with its width and height in tenths of a pixel, up to its
    /// other attributes.
    pub(crate) fn begin_box(&mut self, (x, y): (u32, u32), (width, height): (u32, u32)) {
        self.text("<rect");
        for (name, n) in [("x", x), ("y", y), ("width", width), ("height", height)] {
            self.texts(&[" ", name, "=\""]);
            self.tenths(n);
            self.text("\"");
        }
    }

    /// Adds what another sheet has.
    pub(crate) fn append(&mut self, other: &Sheet<A>) {
        let outcome = self.bytes.extend_from_slice(&other.bytes);
        self.keep(outcome);
        self.is_cut = self.is_cut || other.is_cut;
    }

    pub(crate) fn len(&self) -> usize {
        self.bytes.len()
    }

    /// Writes the text, unless an allocation failed on the way.
    pub(crate) fn write<W: Write>(&self, w: &mut W) -> Result<(), ToolFault> {
        if self.is_cut {
            return Err(ToolFault::Memory);
        }
        write_out(w, &self.bytes)
    }
}
