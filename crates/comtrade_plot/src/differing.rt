//! How much matching channels of two records differ.

use crate::compare::By;
use crate::layout::Chart;
use crate::plan::{Differences, Moment, between};
use crate::rows::reading_at;
use dfr_channels::Reading;
use std::alloc::Allocator;

/// How two records are aligned, and what is drawn: a part of the time that both cover, all of that,
/// or all of both records.
#[derive(Clone, Copy)]
pub(crate) struct Laid {
    pub(crate) by: By,
    /// How many nanoseconds the second record was moved.
    pub(crate) moved: i64,
    pub(crate) is_part: bool,
    pub(crate) is_whole: bool,
}

/// Two records in one frame: when the rows of the first were taken; the other's moments; for each
/// row of the first, the index of the last moment that is not after it; the greatest distance of
/// two moments between which values are interpolated; and how the records are aligned.
#[derive(Drop)]
pub(crate) struct Beside<'a, A: Allocator> {
    pub(crate) one: &'a Chart<'a, A>,
    pub(crate) other: &'a Chart<'a, A>,
    pub(crate) times: &'a [Option<i64>],
    pub(crate) moments: &'a [Moment],
    pub(crate) places: &'a [Option<usize>],
    pub(crate) most: u64,
    pub(crate) laid: Laid,
}

/// The value of a channel in a row, if it has one.
fn value_in<A: Allocator>(chart: &Chart<'_, A>, row: usize, channel: usize) -> Option<f64> {
    let file = chart.file;
    let row = file.rows.items().get(row)?;
    let scale = chart.scales.get(channel)?;
    match reading_at(row, channel) {
        Reading::Value(sample) => Some(scale.value(sample)),
        Reading::Missing => None,
    }
}

/// The other record's value at a time that is not before the moment at this index: that of its row,
/// or interpolated to the next one.
fn value_beside<A: Allocator>(
    beside: &Beside<'_, A>,
    channel: usize,
    place: usize,
    time: i64,
) -> Option<f64> {
    let moment = beside.moments.get(place)?;
    let value = value_in(beside.other, moment.row, channel)?;
    if moment.time == time {
        return Some(value);
    }
    let next = beside.moments.get(place + 1)?;
    let distance = next.time.abs_diff(moment.time);
    if beside.most < distance {
        return None;
    }
    let later = value_in(beside.other, next.row, channel)?;
    let part = time.abs_diff(moment.time);
    Some(between(value, later, part, distance))
}

/// When a row of the first record was taken, and the index of the other's moment beside it.
fn place_at<A: Allocator>(beside: &Beside<'_, A>, row: usize) -> Option<(i64, usize)> {
    let time = (*beside.times.get(row)?)?;
    let place = (*beside.places.get(row)?)?;
    Some((time, place))
}

/// The differences between a channel of one record and its partner in the other, over the rows that
/// are drawn.
pub(crate) fn differences_of<A: Allocator>(
    beside: &Beside<'_, A>,
    channel: usize,
    partner: usize,
) -> Differences {
    let mut differences = Differences::none();
    for row in 0..beside.times.len() {
        let Some((time, place)) = place_at(beside, row) else {
            continue;
        };
        if beside.one.frame.has(time) {
            let value = value_in(beside.one, row, channel);
            let theirs = value_beside(beside, partner, place, time);
            if let (Some(value), Some(theirs)) = (value, theirs) {
                differences = differences.with(time, value - theirs);
            }
        }
    }
    differences
}

/// Whether the other record has a row at the instant of each drawn row, as far as that record goes.
pub(crate) fn is_exact<A: Allocator>(beside: &Beside<'_, A>) -> bool {
    for (time, place) in beside.times.iter().zip(beside.places.iter()) {
        if let (Some(time), Some(place)) = (*time, *place) {
            if let Some(moment) = beside.moments.get(place) {
                let is_last = beside.moments.get(place + 1).is_none();
                if beside.one.frame.has(time) && !is_last && moment.time != time {
                    return false;
                }
            }
        }
    }
    true
}
