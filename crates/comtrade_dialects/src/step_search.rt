//! Finds the step between the samples of a channel that a power of ten does not make fit.

use crate::fault::{ImportFault, Why};
use crate::fit::{SampleFit, fit_of};
use crate::kinds::Form;
use crate::num::num_of_float;
use crate::packed_row::Bytes;
use crate::row::{Cells, RowsLeft};
use crate::span::SampleSpan;
use crate::survey::{Ground, next_cells, next_floats};
use std::alloc::Allocator;

/// The floats of a row, which narrow the steps that are sought.
fn narrow_by_floats(spans: &mut [SampleSpan], floats: Bytes<'_>) -> Option<()> {
    let mut left = floats;
    for span in spans.iter_mut() {
        if let Some(num) = num_of_float(left.next_long()?) {
            span.narrow_step(num);
        }
    }
    Some(())
}

/// Narrows the steps that are sought by the next row.
fn narrow_by_row<'a, A: Allocator + Copy>(
    ground: Ground<'a>,
    spans: &mut [SampleSpan],
    rows: &mut RowsLeft<'a>,
    cells: &mut Cells<A>,
    number: u64,
) -> Result<(), ImportFault> {
    if let Some(packed) = ground.floats() {
        if let Some(floats) = next_floats(ground, packed, rows, cells)?
            && let Some(()) = narrow_by_floats(spans, floats)
        {
            return Ok(());
        }
        return Err(ImportFault::Dat(number, Why::Length));
    }
    let _ = next_cells(ground, rows, cells)?;
    for (span, value) in spans.iter_mut().zip(cells.values.iter()) {
        if let Some(num) = *value {
            span.narrow_step(num);
        }
    }
    Ok(())
}

/// Seeks the steps of the channels that would be rounded. Returns whether there are any.
fn seek_all(ground: Ground<'_>, spans: &mut [SampleSpan]) -> bool {
    let mut has_any = false;
    for span in spans.iter_mut() {
        if let Some(SampleFit::Steps(_)) = fit_of(span, ground.bounds, false) {
            span.seek_step();
            has_any = has_any || span.is_sought();
        }
    }
    has_any
}

/// Whether a step is sought.
fn any_sought(spans: &[SampleSpan]) -> bool {
    for span in spans {
        if span.is_sought() {
            return true;
        }
    }
    false
}

/// Finds the steps of the channels of 32 bits that would be rounded, in so many rows: of floats all
/// steps, of whole numbers those of a power of two, as of 16 bits that stand higher. It ends at the
/// first row after which no channel has one.
pub(crate) fn find_steps<A: Allocator + Copy>(
    alloc: A,
    ground: Ground<'_>,
    spans: &mut [SampleSpan],
    rows: u64,
) -> Result<(), ImportFault> {
    let form = ground.plan.form();
    if !matches!(form, Form::Float32 | Form::Binary32) || !seek_all(ground, spans) {
        return Ok(());
    }
    let mut left = RowsLeft::of(ground.plan);
    let mut cells = Cells::new(alloc);
    for number in 1..=rows {
        if !any_sought(spans) {
            break;
        }
        narrow_by_row(ground, spans, &mut left, &mut cells, number)?;
    }
    if form == Form::Binary32 {
        for span in spans.iter_mut() {
            span.keep_power();
        }
    }
    Ok(())
}
