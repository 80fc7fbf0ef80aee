//! The fields of a line.

use crate::cursor::around;
use crate::text::has_only;
use comtrade_values::trim;

/// The rest of a line.
#[derive(Clone, Copy)]
pub(crate) struct Fields<'a> {
    left: Option<&'a [u8]>,
    mark: u8,
}

/// A field in quotation marks at the start of a text, and the rest after it; None if there is none.
fn quoted(text: &[u8], mark: u8) -> Option<(&[u8], Option<&[u8]>)> {
    let [b'"', rest @ ..] = trim_front(text) else {
        return None;
    };
    let (inside, left) = around(rest, b'"')?;
    let left = trim_front(left);
    if left.is_empty() {
        return Some((inside, None));
    }
    match left {
        [first, others @ ..] if *first == mark => Some((inside, Some(others))),
        _ => None,
    }
}

fn trim_front(text: &[u8]) -> &[u8] {
    let mut inner = text;
    for _ in 0..text.len() {
        match inner {
            [b' ' | b'\t', rest @ ..] => inner = rest,
            _ => return inner,
        }
    }
    inner
}

impl<'a> Fields<'a> {
    pub(crate) fn of(line: &'a [u8], mark: u8) -> Fields<'a> {
        Fields {
            left: Some(line),
            mark,
        }
    }

    /// The next field, without surrounding blanks.
    pub(crate) fn next_field(&mut self) -> Option<&'a [u8]> {
        let text = self.left?;
        if let Some((inside, left)) = quoted(text, self.mark) {
            self.left = left;
            return Some(trim(inside));
        }
        match around(text, self.mark) {
            Some((field, left)) => {
                self.left = Some(left);
                Some(trim(field))
            }
            None => {
                self.left = None;
                Some(trim(text))
            }
        }
    }

    /// Whether all remaining fields are empty.
    pub(crate) fn is_empty_from_here(&self) -> bool {
        match self.left {
            Some(text) => has_only(text, &[self.mark, b' ', b'\t']),
            None => true,
        }
    }

    /// Whether a field is left.
    pub(crate) fn has_more(&self) -> bool {
        self.left.is_some()
    }
}

/// All fields of a line.
#[derive(Clone, Copy)]
pub(crate) struct LineFields<'a> {
    line: &'a [u8],
    mark: u8,
    /// The number of fields, including empty ones at the end.
    pub all: usize,
    /// The number of fields up to the last one that is not empty.
    pub full: usize,
    /// The field that forms one text with the next, if there is one.
    joint: Option<usize>,
}

/// The most fields that are counted.
const MOST: usize = 64;

impl<'a> LineFields<'a> {
    pub(crate) fn of(line: &'a [u8], mark: u8) -> LineFields<'a> {
        let mut fields = Fields::of(line, mark);
        let mut all = 0usize;
        let mut full = 0usize;
        for count in 1..=MOST {
            let Some(field) = fields.next_field() else {
                break;
            };
            all = count;
            if !field.is_empty() {
                full = all;
            }
        }
        if fields.has_more() {
            all = MOST;
            if !fields.is_empty_from_here() {
                full = MOST;
            }
        }
        LineFields {
            line,
            mark,
            all,
            full,
            joint: None,
        }
    }

    /// The same fields, but this one and the next form one text with a separator in it. None if no
    /// field has a text.
    pub(crate) fn joined(&self, joint: usize) -> Option<LineFields<'a>> {
        Some(LineFields {
            line: self.line,
            mark: self.mark,
            all: self.all.checked_sub(1)?,
            full: self.full.checked_sub(1)?,
            joint: Some(joint),
        })
    }

    /// The rest of the line after this many fields.
    fn after_fields(&self, count: usize) -> Fields<'a> {
        let mut fields = Fields::of(self.line, self.mark);
        for _ in 0..count.min(MOST) {
            if fields.next_field().is_none() {
                break;
            }
        }
        fields
    }

    /// The rest of the line after the field at this index.
    fn after(&self, index: usize) -> Fields<'a> {
        let mut fields = self.after_fields(index);
        let _ = fields.next_field();
        fields
    }

    /// Whether a blank follows the separator after this field, as in a sentence.
    pub(crate) fn has_blank_after(&self, index: usize) -> bool {
        matches!(self.after(index).left, Some([b' ', ..]))
    }

    /// The field at this index from 0; empty if there is none.
    pub(crate) fn at(&self, index: usize) -> &'a [u8] {
        self.found_at(index).unwrap_or(&[]) // (a line may leave out its last fields)
    }

    /// The field at this index from 0, if there is one.
    fn found_at(&self, index: usize) -> Option<&'a [u8]> {
        match self.joint {
            Some(joint) if joint == index => self.pair_at(index),
            Some(joint) if joint < index => self.after(index).next_field(),
            _ => self.after_fields(index).next_field(),
        }
    }

    /// The text of this field and the next, with the separator between them.
    fn pair_at(&self, index: usize) -> Option<&'a [u8]> {
        let from = self.after_fields(index).left?;
        let mut behind = self.after(index);
        let _ = behind.next_field();
        match behind.left {
            Some(left) => {
                let length = from.len().checked_sub(left.len())?.checked_sub(1)?;
                Some(trim(from.get(..length)?))
            }
            None => Some(trim(from)),
        }
    }
}

/// Which of two joints is meant: the only possible one, else the only one with a blank after
/// its separator.
pub(crate) fn joint_of(
    parts: &LineFields<'_>,
    first: (usize, bool),
    second: (usize, bool),
) -> Option<usize> {
    match (first.1, second.1) {
        (true, false) => Some(first.0),
        (false, true) => Some(second.0),
        (false, false) => None,
        (true, true) => match (
            parts.has_blank_after(first.0),
            parts.has_blank_after(second.0),
        ) {
            (true, false) => Some(first.0),
            (false, true) => Some(second.0),
            _ => None,
        },
    }
}
