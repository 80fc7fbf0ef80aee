//! The line with the channel counts.

use crate::fault::{ImportFault, Why};
use crate::key::Key;
use crate::lines::{FieldRow, LineReader, at, next_row};
use crate::note::Place;
use comtrade_values::{integer_of, trim};
use std::alloc::Allocator;

/// A count and its letter, and whether it contains a blank or begins with the letter.
fn count_of(text: &[u8]) -> Option<(u64, u8, bool)> {
    let (number, letter, is_odd) = match text {
        [front @ .., last] if last.is_ascii_alphabetic() => (front, *last, false),
        [first, rest @ ..] if first.is_ascii_alphabetic() => (rest, *first, true),
        _ => (text, b'T', false),
    };
    let digits = trim(number);
    let n = integer_of(digits)?;
    let n = u64::try_from(n).ok()?;
    Some((
        n,
        letter.to_ascii_uppercase(),
        is_odd || digits.len() != number.len(),
    ))
}

/// The counts in the line.
#[derive(Clone, Copy)]
struct DeclaredCounts {
    total: Option<u64>,
    analog: Option<u64>,
    status: Option<u64>,
    is_odd: bool,
}

fn counted(row: FieldRow<'_>) -> Option<DeclaredCounts> {
    let mut counts = DeclaredCounts {
        total: None,
        analog: None,
        status: None,
        is_odd: row.parts.full != 3,
    };
    for i in 0..row.parts.full.min(4) {
        let (n, letter, is_odd) = count_of(row.parts.at(i))?;
        counts.is_odd = counts.is_odd || is_odd;
        match letter {
            b'T' if i == 1 && counts.analog.is_none() => {
                counts.analog = Some(n);
                counts.is_odd = true;
            }
            b'T' if i == 2 && counts.status.is_none() => {
                counts.status = Some(n);
                counts.is_odd = true;
            }
            b'T' if counts.total.is_none() => {
                counts.total = Some(n);
                counts.is_odd = counts.is_odd || i != 0;
            }
            b'A' if counts.analog.is_none() => {
                counts.analog = Some(n);
                counts.is_odd = counts.is_odd || i != 1;
            }
            b'D' if counts.status.is_none() => {
                counts.status = Some(n);
                counts.is_odd = counts.is_odd || i != 2;
            }
            _ => return None,
        }
    }
    if 3 < row.parts.full {
        None
    } else {
        Some(counts)
    }
}

/// The numbers of analogue and of status channels.
pub(crate) fn counts_of<A: Allocator + Copy>(
    reader: &mut LineReader<'_, '_, A>,
    bytes: u64,
) -> Result<(u64, u64), ImportFault> {
    let row = next_row(&mut reader.cursor, reader.mark, reader.notes, 3)?;
    let line = row.number;
    let Some(counts) = counted(row) else {
        return Err(at(line, Why::Counts));
    };
    if counts.analog.is_none() && counts.status.is_none() {
        return Err(at(line, Why::Counts));
    }
    // (a count that is left out means no such channel)
    let (analog, status) = (counts.analog.unwrap_or(0), counts.status.unwrap_or(0));
    let Some(sum) = analog.checked_add(status) else {
        return Err(at(line, Why::ManyChannels));
    };
    if sum == 0 {
        return Err(at(line, Why::NoChannel));
    }
    if bytes < sum || 999_999 < sum {
        return Err(at(line, Why::ManyChannels));
    }
    if counts.is_odd {
        reader
            .notes
            .tell_text(Key::CountsForm, Place::Cfg(line), row.text)?;
    }
    if counts.total.is_some() && counts.total != Some(sum) {
        reader
            .notes
            .tell_text(Key::CountsTotal, Place::Cfg(line), row.text)?;
    }
    Ok((analog, status))
}
