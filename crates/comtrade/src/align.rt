//! How two records are laid beside each other.

use crate::part::Taken;
use comtrade_io::{Compared, ToolFault};
use comtrade_plot::By;
use comtrade_values::{put, put_number, put_padded};
use comtrade_views::{first_fault_of, match_channels, nanos_in};
use std::alloc::{AllocError, Allocator};

/// How two records are aligned.
#[derive(Clone, Copy, PartialEq, Eq)]
pub(crate) enum Way {
    Instant,
    Trigger,
    Fault,
}

/// How two records are aligned, and how many nanoseconds the second one is moved then.
#[derive(Clone, Copy)]
pub(crate) struct Alignment {
    way: Way,
    pub(crate) moved: i64,
}

/// The way that a text names.
fn way_of(text: &str) -> Option<Way> {
    match text {
        "instant" => Some(Way::Instant),
        "trigger" => Some(Way::Trigger),
        "fault" => Some(Way::Fault),
        _ => None,
    }
}

const NO_WAY: &str = "error: --by expects instant, trigger or fault\n";

const NO_SHIFT: &str = "error: --shift expects milliseconds, such as 3.7 or -20\n";

const NO_PAIR: &str = "; expected a channel of A and one of B, both of one unit and each \
named once, such as UA=VA\n";

const NO_FAULT: &str = "comtrade: --by fault needs a fault in each of these records\n";

const TOO_FAR: &str = "comtrade: the faults are over 292 years from the triggers\n";

/// How the records are to be aligned, or the usage error.
pub(crate) fn alignment_of(asked: Compared<'_>) -> Result<Alignment, &'static str> {
    let way = match asked.by {
        Some(text) => way_of(text),
        None => Some(Way::Instant),
    };
    let moved = match asked.shift {
        Some(text) => nanos_in(text),
        None => Some(0),
    };
    match (way, moved) {
        (Some(way), Some(moved)) => Ok(Alignment { way, moved }),
        (None, _) => Err(NO_WAY),
        (_, None) => Err(NO_SHIFT),
    }
}

/// A time of so many nanoseconds in milliseconds with three places, and whether that is ahead.
fn put_offset<A: Allocator>(said: &mut Vec<u8, A>, nanos: i128) -> Result<(), AllocError> {
    let micros = (nanos.unsigned_abs() + 500) / 1000;
    put(
        said,
        "comtrade: by the first fault of each, the clock of B is ",
    )?;
    put_number(said, micros / 1000)?;
    put(said, ".")?;
    put_padded(said, (micros % 1000) as u64, 3)?;
    put(
        said,
        if nanos < 0 {
            " ms behind that of A\n"
        } else {
            " ms ahead of that of A\n"
        },
    )
}

/// The two records aligned by their first faults, and the offset of their clocks in `said`; None where
/// one has no fault, which is put to `said`.
fn by_faults<A: Allocator + Copy>(
    lists: A,
    one: &Taken<A>,
    other: &Taken<A>,
    said: &mut Vec<u8, A>,
) -> Result<Option<By>, ToolFault> {
    let since = first_fault_of(lists, &one.file)?;
    let beside = first_fault_of(lists, &other.file)?;
    let (Some(since), Some(beside)) = (since, beside) else {
        put(said, NO_FAULT)?;
        return Ok(None);
    };
    let Some(shift) = since.checked_sub(beside) else {
        put(said, TOO_FAR)?;
        return Ok(None);
    };
    let triggers = i128::from(other.file.head.trigger) - i128::from(one.file.head.trigger);
    let Some(offset) = (triggers * 1000).checked_sub(i128::from(shift)) else {
        put(said, TOO_FAR)?;
        return Ok(None);
    };
    put_offset(said, offset)?;
    Ok(Some(By::Fault(shift)))
}

/// How two records are aligned; None where they cannot be, with the error in `said`.
pub(crate) fn by_of<A: Allocator + Copy>(
    lists: A,
    asked: Alignment,
    one: &Taken<A>,
    other: &Taken<A>,
    said: &mut Vec<u8, A>,
) -> Result<Option<By>, ToolFault> {
    match asked.way {
        Way::Instant => Ok(Some(By::Instant)),
        Way::Trigger => Ok(Some(By::Trigger)),
        Way::Fault => by_faults(lists, one, other, said),
    }
}

/// Gives the channels of the second record the names of those of the first that belong to them;
/// `said` tells which. False where the pairs that are asked for name no channels.
pub(crate) fn match_names<A: Allocator + Copy>(
    lists: A,
    one: &Taken<A>,
    other: &mut Taken<A>,
    pairs: Option<&str>,
    said: &mut Vec<u8, A>,
) -> Result<bool, ToolFault> {
    let mut told = Vec::new(lists);
    let is_matched = match_channels(lists, &one.file, &mut other.file, pairs, &mut told)?;
    put(
        said,
        if is_matched {
            ""
        } else {
            "comtrade: --map has "
        },
    )?;
    said.extend_from_slice(&told)?;
    put(said, if is_matched { "" } else { NO_PAIR })?;
    Ok(is_matched)
}
