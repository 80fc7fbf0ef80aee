//! Iterates over the lines of a text.

use comtrade_values::trim;
use memchr::memchr;

/// A line that isn't blank, without its end.
#[derive(Clone, Copy)]
pub(crate) struct TextLine<'a> {
    pub text: &'a [u8],
    /// The number of the line, counted from 1.
    pub number: u64,
    /// Blank lines precede it.
    pub after_blank: bool,
    /// It ends in CR CR LF.
    pub is_doubled: bool,
    /// It has a line end.
    pub is_ended: bool,
}

/// The rest of a text.
#[derive(Clone, Copy)]
pub(crate) struct TextCursor<'a> {
    left: Option<&'a [u8]>,
    line: u64,
    end: u8,
}

/// The texts before and after the first of these bytes.
pub(crate) fn around(text: &[u8], byte: u8) -> Option<(&[u8], &[u8])> {
    let at = memchr(byte, text)?;
    Some((&text[..at], &text[at + 1..]))
}

/// The line without the carriage returns at its end, and how many there were.
fn without_returns(line: &[u8]) -> (&[u8], u8) {
    match line {
        [front @ .., b'\r', b'\r'] => (front, 2),
        [front @ .., b'\r'] => (front, 1),
        _ => (line, 0),
    }
}

impl<'a> TextCursor<'a> {
    /// The lines of a text. If it has no line feed, carriage returns end its lines.
    pub(crate) fn new(text: &'a [u8]) -> TextCursor<'a> {
        let ends_alone = memchr(b'\n', text).is_none() && memchr(b'\r', text).is_some();
        TextCursor {
            left: Some(text),
            line: 0,
            end: if ends_alone { b'\r' } else { b'\n' },
        }
    }

    /// Whether lines end in CR only.
    pub(crate) fn ends_in_returns(&self) -> bool {
        self.end == b'\r'
    }

    /// The next line, blank or not.
    fn step(&mut self) -> Option<TextLine<'a>> {
        let text = self.left?;
        self.line = self.next_number();
        let (line, left) = match around(text, self.end) {
            Some((line, left)) => (line, Some(left)),
            None => (text, None),
        };
        self.left = left;
        let (line, returns) = without_returns(line);
        Some(TextLine {
            text: line,
            number: self.line,
            after_blank: false,
            is_doubled: returns == 2,
            is_ended: left.is_some(),
        })
    }

    /// The next line that isn't blank.
    pub(crate) fn next_line(&mut self) -> Option<TextLine<'a>> {
        let mut after_blank = false;
        for _ in 0..u64::MAX {
            let mut line = self.step()?;
            if !trim(line.text).is_empty() {
                line.after_blank = after_blank;
                return Some(line);
            }
            after_blank = true;
        }
        None
    }

    /// Skips blank lines.
    pub(crate) fn skip_blanks(&mut self) {
        for _ in 0..u64::MAX {
            let mut ahead = *self;
            match ahead.step() {
                Some(line) if trim(line.text).is_empty() => *self = ahead,
                _ => break,
            }
        }
    }

    /// The number of the line after the last one read.
    pub(crate) fn next_number(&self) -> u64 {
        self.line.saturating_add(1) // (memory holds fewer than 2^64 lines)
    }
}

/// The first line of a text. It ends at a line feed, or at a carriage return that is not part of
/// such an end.
pub(crate) fn first_line(text: &[u8]) -> Option<&[u8]> {
    let Some((line, rest)) = around(text, b'\r') else {
        let (line, _) = around(text, b'\n')?;
        return Some(line);
    };
    match around(text, b'\n') {
        Some((by_feed, _)) if by_feed.len() < line.len() => Some(by_feed),
        Some((by_feed, _)) if rest.starts_with(b"\n") || rest.starts_with(b"\r\n") => Some(by_feed),
        _ => Some(line),
    }
}

/// The rest of a text after its first line and one byte that ends it.
pub(crate) fn behind<'a>(text: &'a [u8], line: &[u8]) -> Option<&'a [u8]> {
    let (_, rest) = text.split_at_checked(line.len())?;
    let (_, rest) = rest.split_first()?;
    Some(rest)
}
