//! Parts of a fault as values.

use crate::faults::known::Source;
use crate::faults::members::{ChangeMembers, PeakMembers};
use crate::json::text_of;
use crate::number::ordinal;
use crate::times::time_at;
use comtrade_analysis::Sequence;
use comtrade_fault::Sizes;
use comtrade_format::{File, scale_of};
use comtrade_values::Memory;
use dfr_channels::Reading;
use std::alloc::{AllocError, Allocator, Global};
use std::num::{nearest_i64_to_f64, nearest_u64_to_f64};

/// Nanoseconds in milliseconds, to the nearest microsecond.
pub(crate) fn millis_of(nanos: i64) -> f64 {
    let micros = nanos.div_euclid(1000) + (500 <= nanos.rem_euclid(1000)) as i64;
    nearest_i64_to_f64(micros) / 1000.0
}

/// When a row was taken, in milliseconds since the trigger.
pub(crate) fn millis_at(times: &[Option<i64>], row: usize) -> Option<f64> {
    Some(millis_of(time_at(times, row)?))
}

/// How long a row was taken after another, in milliseconds.
pub(crate) fn millis_between(times: &[Option<i64>], from: usize, to: usize) -> Option<f64> {
    let nanos = time_at(times, to)?.checked_sub(time_at(times, from)?)?;
    Some(millis_of(nanos))
}

/// A part of a whole in percent, to the nearest tenth; None of 0, or where both are huge.
fn percent_of(part: u128, whole: u128) -> Option<f64> {
    let tenths = part
        .checked_mul(1000)?
        .checked_add(whole / 2)?
        .checked_div(whole)?;
    Some(nearest_u64_to_f64(u64::try_from(tenths).ok()?) / 10.0)
}

/// How much the currents change.
pub(crate) fn change_members(sizes: Sizes) -> ChangeMembers {
    let change = sizes.change;
    let most = change.a.max(change.b).max(change.c);
    ChangeMembers {
        a: percent_of(change.a, most),
        b: percent_of(change.b, most),
        c: percent_of(change.c, most),
        sum: percent_of(change.earth, most),
    }
}

/// How much the voltages change, in percent of the greatest before.
pub(crate) fn voltage_change(voltages: Option<Sizes>) -> Option<f64> {
    let sizes = voltages?;
    let change = sizes.change;
    let before = sizes.before;
    percent_of(
        change.a.max(change.b).max(change.c),
        before.a.max(before.b).max(before.c),
    )
}

/// The value of greatest size of a channel, and its row.
#[derive(Clone, Copy)]
struct Peak {
    channel: usize,
    row: usize,
    value: f64,
}

/// The greater one of a peak and the values of a channel in these rows.
fn greatest<A: Allocator + Copy>(
    alloc: A,
    file: &File<A>,
    channel: usize,
    from: usize,
    to: usize,
    before: Option<Peak>,
) -> Result<Option<Peak>, Memory> {
    let Some(parts) = file.head.analog.items().get(channel) else {
        return Ok(before);
    };
    let scale = scale_of(alloc, parts)?;
    let mut peak = before;
    for row in from..to {
        let Some(cells) = file.rows.items().get(row) else {
            return Ok(peak);
        };
        if let Some(Reading::Value(sample)) = cells.values.items().get(channel) {
            let value = scale.value(*sample);
            if peak.is_none_or(|peak| peak.value.abs() < value.abs()) {
                peak = Some(Peak {
                    channel,
                    row,
                    value,
                });
            }
        }
    }
    Ok(peak)
}

/// The greatest sample of three currents in these rows.
pub(crate) fn peak_members<A: Allocator + Copy>(
    source: &Source<'_, A>,
    currents: Sequence,
    from: usize,
    to: usize,
) -> Result<Option<PeakMembers>, Memory> {
    let (alloc, file) = (source.alloc, source.file);
    let mut peak = None;
    for channel in [currents.a, currents.b, currents.c] {
        peak = greatest(source.lists, file, channel, from, to, peak)?;
    }
    let Some(peak) = peak else {
        return Ok(None);
    };
    let Some(channel) = file.head.analog.items().get(peak.channel) else {
        return Ok(None);
    };
    Ok(Some(PeakMembers {
        n: ordinal(peak.channel),
        id: text_of(alloc, channel.id.items())?,
        unit: text_of(alloc, channel.unit.items())?,
        value: peak.value,
        ms: millis_at(source.times, peak.row),
    }))
}

/// The ids of three channels.
pub(crate) fn ids_of<A: Allocator>(
    alloc: Global,
    file: &File<A>,
    sequence: Option<Sequence>,
) -> Result<Vec<String>, AllocError> {
    let mut ids = Vec::new(alloc);
    let Some(sequence) = sequence else {
        return Ok(ids);
    };
    for place in [sequence.a, sequence.b, sequence.c] {
        if let Some(channel) = file.head.analog.items().get(place) {
            ids.push(text_of(alloc, channel.id.items())?)?;
        }
    }
    Ok(ids)
}
