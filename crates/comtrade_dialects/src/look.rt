//! What bytes prove about the form of their rows.

use crate::kinds::Form;
use crate::packed_row::number_of;
use crate::row::Packed;

/// What data prove about a form.
#[derive(Clone, Copy)]
pub(crate) struct FormEvidence<'a> {
    pub packed: Packed<'a>,
    /// The data are whole rows.
    pub is_whole: bool,
    /// A byte 1A follows the whole rows.
    pub has_mark: bool,
    /// The row numbers increase by one.
    pub runs: bool,
}

/// Whether the row numbers increase by one; a single row must be numbered 0 or 1.
fn runs(packed: Packed<'_>) -> bool {
    let Some(first) = number_of(packed.bytes, packed.is_big) else {
        return false;
    };
    let mut wanted = first;
    for row in packed.bytes.chunks_exact(packed.size) {
        if number_of(row, packed.is_big) != Some(wanted) {
            return false;
        }
        wanted = wanted.wrapping_add(1); // (numbers of 32 bits start again at 0)
    }
    packed.size < packed.bytes.len() || first < 2
}

/// What data prove about a form whose rows have this size, at least 8 bytes for a number and a
/// stamp.
pub(crate) fn look_at(dat: &[u8], form: Form, size: usize, is_big: bool) -> FormEvidence<'_> {
    let size = size.max(8);
    let (whole, rest) = dat.split_at(dat.len() - dat.len() % size);
    let has_mark = rest == b"\x1a".as_slice();
    let packed = Packed {
        bytes: whole,
        form,
        is_big,
        size,
    };
    FormEvidence {
        packed,
        is_whole: !whole.is_empty() && (rest.is_empty() || has_mark),
        has_mark,
        runs: runs(packed),
    }
}

impl FormEvidence<'_> {
    pub(crate) fn is_proved(&self) -> bool {
        self.is_whole && self.runs
    }
}

/// The greatest gap between row numbers that is taken for lost rows, unless the file declares more
/// rows.
const GAP: u64 = 65_536;

/// Whether the row numbers follow a pattern: each is the same as the previous one or above it by no
/// more than a plausible gap, or numbering restarts at 0 or 1. All the same is a pattern only if
/// that is 0 or 1. `rows` is the declared number of rows, if there is one.
pub(crate) fn follow(packed: Packed<'_>, rows: Option<u64>) -> bool {
    let gap = rows.map_or(GAP, |rows| GAP.max(rows));
    let mut before: Option<u32> = None;
    let mut rises = false;
    for row in packed.bytes.chunks_exact(packed.size) {
        let Some(number) = number_of(row, packed.is_big) else {
            return false;
        };
        if let Some(before) = before {
            let follows = before <= number && u64::from(number - before) <= gap;
            if 1 < number && !follows {
                return false;
            }
            rises = rises || before < number;
        }
        before = Some(number);
    }
    match before {
        Some(number) => rises || number < 2,
        None => false,
    }
}
