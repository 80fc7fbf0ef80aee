//! The range of samples in the line of an analogue channel.

use crate::analog::AnalogShape;
use crate::draft::Range;
use crate::fault::{ImportFault, Why};
use crate::key::Key;
use crate::lines::{at, tell_empty};
use crate::note::{Notes, Place};
use crate::numeral::spelled_of;
use comtrade_values::integer_of;
use std::alloc::Allocator;

/// A bound of the samples: a whole number that 1999 can hold.
fn bound_of(text: &[u8]) -> Option<i32> {
    let n = integer_of(text)?;
    if -99_999 <= n && n <= 99_999 {
        i32::try_from(n).ok()
    } else {
        None
    }
}

/// A bound of samples of 32 bits.
fn long_bound(text: &[u8]) -> Option<i32> {
    i32::try_from(integer_of(text)?).ok()
}

/// A range of whole numbers of 32 bits.
fn long_range(low: &[u8], high: &[u8]) -> Option<(i32, i32)> {
    let (low, high) = (long_bound(low)?, long_bound(high)?);
    if low <= high { Some((low, high)) } else { None }
}

/// A bound in another form, as a whole number if 1999 can hold it.
fn loose_bound(mark: u8, line: u64, text: &[u8]) -> Result<Option<i32>, ImportFault> {
    let Some(spelled) = spelled_of(text, mark == b';') else {
        return Err(at(line, Why::Number));
    };
    match spelled.num.whole() {
        Some(n) if -99_999 <= n && n <= 99_999 => Ok(i32::try_from(n).ok()),
        _ => Ok(None),
    }
}

/// The min and the max, and how the line declares them.
pub(crate) fn range_of<A: Allocator + Copy>(
    notes: &mut Notes<A>,
    mark: u8,
    shape: AnalogShape<'_>,
) -> Result<(i32, i32, Range), ImportFault> {
    let (low, high) = (shape.parts.at(8), shape.parts.at(9));
    if low.is_empty() || high.is_empty() {
        tell_empty(notes, shape.line, "min or max: from the data")?;
        return Ok((-32_767, 32_767, Range::Empty));
    }
    if let (Some(low), Some(high)) = (bound_of(low), bound_of(high)) {
        if high < low {
            notes.tell(Key::RangeSwapped, Place::Cfg(shape.line), &[])?;
            return Ok((high, low, Range::Said));
        }
        let is_unsigned = 0 <= low && 32_767 < high;
        return Ok((
            low,
            high,
            if is_unsigned {
                Range::Unsigned
            } else {
                Range::Said
            },
        ));
    }
    if let Some((low, high)) = long_range(low, high) {
        return Ok((-32_767, 32_767, Range::Long(low, high)));
    }
    let low = loose_bound(mark, shape.line, low)?;
    let high = loose_bound(mark, shape.line, high)?;
    match (low, high) {
        (Some(low), Some(high)) => Ok((low.min(high), low.max(high), Range::Other)),
        _ => Ok((-32_767, 32_767, Range::Other)),
    }
}
