//! In which channels 99,999 marks a missing value.

use crate::cursor::TextCursor;
use crate::draft::Revision;
use crate::field::Fields;
use crate::numeral::spelled_of;
use crate::row::{RowCounts, RowsPlan};
use memchr::memchr;
use std::alloc::{AllocError, Allocator};

/// Whether a text may contain a number with a point or an exponent.
fn may_have_points(text: &[u8], mark: u8) -> bool {
    memchr(b'.', text).is_some()
        || memchr(b'E', text).is_some()
        || memchr(b'e', text).is_some()
        || mark == b';' && memchr(b',', text).is_some()
}

/// Whether a text has five nines in a row.
fn has_nines(text: &[u8]) -> bool {
    let mut count = 0u8;
    for b in text {
        if *b != b'9' {
            count = 0;
        } else if count < 4 {
            count += 1;
        } else {
            return true;
        }
    }
    false
}

/// Whether a text is a number with a point or an exponent.
fn is_pointed(text: &[u8], mark: u8) -> bool {
    match spelled_of(text, mark == b';') {
        Some(spelled) => spelled.is_pointed,
        None => false,
    }
}

/// Unsets the channels that have a sample with a point or an exponent.
fn unset_pointed(marks: &mut [bool], text: &[u8], mark: u8) {
    let mut cursor = TextCursor::new(text);
    for _ in 0..u64::MAX {
        let Some(line) = cursor.next_line() else {
            return;
        };
        let mut fields = Fields::of(line.text, mark);
        let _ = fields.next_field();
        let _ = fields.next_field();
        for is_mark in marks.iter_mut() {
            let Some(field) = fields.next_field() else {
                break;
            };
            *is_mark = *is_mark && !is_pointed(field, mark);
        }
    }
}

/// Whether 99,999 marks a missing value in each channel: in whole numbers of 1991 and 1999 it does,
/// in decimals and in files of 2013 it is a sample.
pub(crate) fn marks_of<A: Allocator>(
    alloc: A,
    plan: RowsPlan<'_>,
    counts: RowCounts,
    revision: Revision,
) -> Result<Vec<bool, A>, AllocError> {
    let mut marks = Vec::new(alloc);
    for _ in 0..counts.k {
        marks.push(revision != Revision::Of2013)?;
    }
    match plan {
        RowsPlan::Text(text, mark) if may_have_points(text, mark) && has_nines(text) => {
            unset_pointed(&mut marks, text, mark);
        }
        _ => {}
    }
    Ok(marks)
}
