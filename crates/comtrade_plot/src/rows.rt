//! The contents of rows: readings, bits, which rows are lost, and their positions in the picture.

use crate::plan::{Cycle, Frame, later_change};
use comtrade_format::{File, Row};
use comtrade_io::ToolFault;
use dfr_channels::Reading;
use std::alloc::Allocator;

/// The reading of a channel, counted from 0; missing where the row has no such channel.
pub(crate) fn reading_at<A: Allocator>(row: &Row<A>, channel: usize) -> Reading {
    let readings = row.values.items();
    readings.get(channel).copied().unwrap_or(Reading::Missing)
}

/// The bit of a status channel, counted from 0; 0 where the row has no such channel.
pub(crate) fn bit_at<A: Allocator>(row: &Row<A>, channel: usize) -> bool {
    row.bits.items().get(channel).copied().unwrap_or(false)
}

/// Whether a scan was lost: the row has no reading, though there are channels.
fn is_lost<A: Allocator>(row: &Row<A>) -> bool {
    let readings = row.values.items();
    for reading in readings {
        if let Reading::Value(_) = *reading {
            return false;
        }
    }
    !readings.is_empty()
}

/// When each row was taken; None for lost rows.
pub(crate) fn kept_times<A: Allocator + Copy>(
    alloc: A,
    file: &File<A>,
    times: &[Option<i64>],
) -> Result<Vec<Option<i64>, A>, ToolFault> {
    let mut kept = Vec::with_capacity(alloc, times.len())?;
    for (row, time) in file.rows.items().iter().zip(times.iter()) {
        kept.push(if is_lost(row) { None } else { *time })?;
    }
    Ok(kept)
}

/// The position of each row in a frame; None where it is not drawn.
pub(crate) fn places_of<A: Allocator + Copy>(
    alloc: A,
    frame: Frame,
    kept: &[Option<i64>],
) -> Result<Vec<Option<u32>, A>, ToolFault> {
    let mut places = Vec::with_capacity(alloc, kept.len())?;
    for time in kept {
        let place = match *time {
            Some(time) if frame.has(time) => Some(frame.across(time)),
            _ => None,
        };
        places.push(place)?;
    }
    Ok(places)
}

/// The first and the last time of rows.
pub(crate) fn whole_frame(times: &[Option<i64>]) -> Option<Frame> {
    let mut bounds: Option<Frame> = None;
    for time in times {
        if let Some(time) = *time {
            bounds = Some(match bounds {
                None => Frame {
                    from: time,
                    to: time,
                },
                Some(frame) => Frame {
                    from: frame.from.min(time),
                    to: frame.to.max(time),
                },
            });
        }
    }
    bounds
}

/// The numbers of rows from 1 on, for files that do not say when their rows were taken; None for
/// one that is no signed number of 64 bits.
pub(crate) fn numbers_of<A: Allocator + Copy>(
    alloc: A,
    count: usize,
) -> Result<Vec<Option<i64>, A>, ToolFault> {
    let mut numbers = Vec::with_capacity(alloc, count)?;
    for number in 1..=count {
        numbers.push(i64::try_from(number).ok())?;
    }
    Ok(numbers)
}

/// When the last status channel changed, of the changes that belong to the fault.
pub(crate) fn last_change<A: Allocator>(file: &File<A>, kept: &[Option<i64>], cycle: Cycle) -> i64 {
    let mut last = 0;
    let mut before: Option<&Row<A>> = None;
    for (row, time) in file.rows.items().iter().zip(kept.iter()) {
        if let Some(time) = *time {
            if let Some(before) = before {
                if before.bits.items() != row.bits.items() {
                    last = later_change(last, time, cycle);
                }
            }
            before = Some(row);
        }
    }
    last
}
