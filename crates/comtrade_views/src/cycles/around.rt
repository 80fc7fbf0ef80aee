//! The rms values of channels before and after a fault inception.

ghost use Rattle.std.specs.Prelude.{◌≡◌, ◌<◌, IfSome};
ghost use Rattle.comtrade_views.specs.Stretches.{AreCycles};

use crate::cycles::course::courses_of;
use crate::cycles::fault::MeasureFault;
use crate::cycles::fit::measures_of;
use crate::cycles::window::{Window, spans_of};
use comtrade_analysis::{window_before, window_from};
use comtrade_format::File;
use std::alloc::Allocator;

/// The rms values of a channel before and after a fault inception, where they are known.
#[derive(Clone, Copy, Debug)]
pub struct Around {
    pub before: Option<f64>,
    pub after: Option<f64>,
}

/// How many cycles after an inception are tried, until each channel has one with all its readings.
const TRIED: u64 = 5;

/// The least rows of a cycle in which an inception is looked for.
const LEAST: u128 = 8;

/// The cycle that ends before a row.
pub(crate) fn cycle_to(spans: &[Window], end: usize) -> Option<Window>
    ensures one { IfSome result (λ window. window.cycles ≡ 1) }
    ensures rows { IfSome result (λ window. AreCycles window.cycle 1 window.from window.to) }
    ensures last { IfSome result (λ window. window.to ≡ end) }
{
    for span in spans {
        if span.from < end && end <= span.to {
            let window = window_before(span.cycle, 1, end)?;
            if window.first < span.from {
                return None;
            }
            return Some(Window {
                from: window.first,
                to: end,
                cycles: 1,
                cycle: span.cycle,
            });
        }
    }
    None
}

/// The cycle before the last one before a row, which the last one was compared to. None where its
/// rate has no such cycle: then a fault that is found in the row may have begun in the last one.
pub(crate) fn cycle_ahead(spans: &[Window], row: usize) -> Option<Window>
    ensures one { IfSome result (λ window. window.cycles ≡ 1) }
    ensures rows { IfSome result (λ window. AreCycles window.cycle 1 window.from window.to) }
    ensures apart { IfSome result (λ window. window.to < row) }
{
    let last = cycle_to(spans, row)?;
    if last.from < row {
        cycle_to(spans, last.from)
    } else {
        None
    }
}

/// The cycle that begins some cycles after a row.
fn cycle_from(spans: &[Window], row: usize, cycles: u64) -> Option<Window>
    ensures one { IfSome result (λ window. window.cycles ≡ 1) }
    ensures rows { IfSome result (λ window. AreCycles window.cycle 1 window.from window.to) }
{
    for span in spans {
        if span.from <= row && row < span.to {
            let skipped = window_from(span.cycle, cycles, row, usize::MAX)?;
            let window = window_from(span.cycle, 1, row + skipped.rows, usize::MAX)?;
            return cycle_to(spans, window.first + window.rows);
        }
    }
    None
}

/// Where rms values are taken: around this row, which is an inception of a fault, or the trigger.
#[derive(Clone, Copy)]
struct Border {
    row: usize,
    is_inception: bool,
}

/// The index of the first row in which a current departs from its waveform, if one does.
fn inception_in<A: Allocator + Copy>(
    alloc: A,
    file: &File<A>,
) -> Result<Option<usize>, MeasureFault> {
    let spans = match spans_of(alloc, file, LEAST) {
        Ok(spans) => spans,
        Err(MeasureFault::Memory(error)) => return Err(MeasureFault::Memory(error)),
        Err(_) => return Ok(None),
    };
    let mut row: Option<usize> = None;
    for current in courses_of(alloc, file, &spans)?.iter() {
        if let Some(course) = current.courses.first() {
            row = Some(match row {
                Some(row) => row.min(course.row),
                None => course.row,
            });
        }
    }
    Ok(row)
}

/// The index of the first row that was not taken before the trigger.
fn trigger_in(times: &[Option<i64>]) -> Option<usize> {
    times
        .iter()
        .position(|time| matches!(*time, Some(time) if 0 <= time))
}

/// The first inception of a current; else the trigger, by the times of rows since it.
fn border_in<A: Allocator + Copy>(
    alloc: A,
    file: &File<A>,
    times: &[Option<i64>],
) -> Result<Option<Border>, MeasureFault> {
    let inception = inception_in(alloc, file)?;
    let is_inception = inception.is_some();
    let Some(row) = (if is_inception {
        inception
    } else {
        trigger_in(times)
    }) else {
        return Ok(None);
    };
    Ok(Some(Border { row, is_inception }))
}

/// Takes the rms values of a cycle as those before or after, of the channels that have none yet.
fn fill<A: Allocator + Copy>(
    alloc: A,
    file: &File<A>,
    window: Option<Window>,
    is_before: bool,
    list: &mut [Around],
) -> Result<(), MeasureFault> {
    let Some(window) = window else {
        return Ok(());
    };
    let measures = match measures_of(alloc, file, window) {
        Ok(measures) => measures,
        Err(MeasureFault::Slow) => return Ok(()),
        Err(fault) => return Err(fault),
    };
    for (around, measured) in list.iter_mut().zip(measures.iter()) {
        if let Some(measured) = measured {
            if is_before && around.before.is_none() {
                around.before = Some(measured.rms);
            }
            if !is_before && around.after.is_none() {
                around.after = Some(measured.rms);
            }
        }
    }
    Ok(())
}

/// The rms values of a file's channels before a row: of the cycle that ends one cycle before it, or
/// just before it where a reading is missing. Before a trigger also where there is no other cycle;
/// before an inception none is known then, since the fault may have begun in the last cycle.
fn rms_before<A: Allocator + Copy>(
    alloc: A,
    file: &File<A>,
    spans: &[Window],
    border: Border,
    list: &mut [Around],
) -> Result<(), MeasureFault> {
    let ahead = cycle_ahead(spans, border.row);
    fill(alloc, file, ahead, true, list)?;
    if ahead.is_some() || !border.is_inception {
        fill(alloc, file, cycle_to(spans, border.row), true, list)?;
    }
    Ok(())
}

/// The rms values of a file's channels around a row; after it those of the first cycle from it on
/// with all readings.
fn rms_at<A: Allocator + Copy>(
    alloc: A,
    file: &File<A>,
    spans: &[Window],
    border: Border,
    list: &mut [Around],
) -> Result<(), MeasureFault> {
    rms_before(alloc, file, spans, border, list)?;
    for cycles in 0..TRIED {
        if list.iter().any(|around| around.after.is_none()) {
            let window = cycle_from(spans, border.row, cycles);
            fill(alloc, file, window, false, list)?;
        }
    }
    Ok(())
}

/// The rms values of a file's channels before and after the first fault inception of a current;
/// else before and after the trigger, by the times of rows since it. None is known where no rate
/// gives cycles.
pub fn rms_around<A: Allocator + Copy>(
    alloc: A,
    file: &File<A>,
    times: &[Option<i64>],
) -> Result<Vec<Around, A>, MeasureFault> {
    let mut list = Vec::new(alloc);
    let spans = match spans_of(alloc, file, 3) {
        Ok(spans) => spans,
        Err(MeasureFault::Memory(error)) => return Err(MeasureFault::Memory(error)),
        Err(_) => return Ok(list),
    };
    let border = border_in(alloc, file, times)?;
    for _ in file.head.analog.items() {
        list.push(Around {
            before: None,
            after: None,
        })?;
    }
    if let Some(border) = border {
        rms_at(alloc, file, &spans, border, &mut list)?;
    }
    Ok(list)
}
