//! What was measured before a fault and in it.

use crate::cycles::{
    MeasureFault, Measured, Window, cycle_ahead, cycle_to, measures_of, reference_in, spans_of,
};
use comtrade_format::File;
use comtrade_values::Memory;
use std::alloc::Allocator;

/// The fewest rows of a cycle that is measured.
const LEAST: u128 = 8;

/// What was measured of all channels over a cycle; nothing where there is no such cycle.
pub(crate) fn measured_over<A: Allocator + Copy>(
    alloc: A,
    file: &File<A>,
    window: Option<Window>,
) -> Result<Vec<Option<Measured<A>>, A>, Memory> {
    let Some(window) = window else {
        return Ok(Vec::new(alloc));
    };
    match measures_of(alloc, file, window) {
        Ok(measures) => Ok(measures),
        Err(MeasureFault::Memory(_)) => Err(Memory),
        Err(_) => Ok(Vec::new(alloc)),
    }
}

/// The cycle that ends before a row, if it begins at another one or later.
fn cycle_within(spans: &[Window], from: usize, to: usize) -> Option<Window> {
    let window = cycle_to(spans, to)?;
    if window.from < from {
        return None;
    }
    Some(window)
}

/// The cycles around a fault, as far as they are there: the one before it, the last one of it, and
/// the one half a cycle earlier.
#[derive(Clone, Copy)]
pub(crate) struct Cycles {
    pub(crate) before: Option<Window>,
    pub(crate) last: Option<Window>,
    pub(crate) earlier: Option<Window>,
}

/// The cycle half a cycle earlier, if it begins at this row or later.
fn earlier_than(spans: &[Window], inception: usize, last: Window) -> Option<Window> {
    let row = last.to.checked_sub(last.rows().rows / 2)?;
    cycle_within(spans, inception, row)
}

/// The cycles around a fault that begins at a row, and of which the first phase ends at another.
fn cycles_around(spans: &[Window], inception: usize, end: usize) -> Cycles {
    let last = cycle_within(spans, inception, end);
    Cycles {
        before: cycle_ahead(spans, inception),
        last,
        earlier: last.and_then(|last| earlier_than(spans, inception, last)),
    }
}

/// What was measured before a fault and in it, over which rows, and the channel from which angles are
/// counted.
#[derive(Drop)]
pub(crate) struct Both<A: Allocator> {
    pub(crate) before: Vec<Option<Measured<A>>, A>,
    pub(crate) fault: Vec<Option<Measured<A>>, A>,
    pub(crate) cycles: Cycles,
    pub(crate) reference: Option<usize>,
}

/// What was measured around a fault that begins at a row, and of which the first phase ends at
/// another.
pub(crate) fn both_of<A: Allocator + Copy>(
    lists: A,
    file: &File<A>,
    inception: usize,
    end: usize,
) -> Result<Both<A>, Memory> {
    let spans = match spans_of(lists, file, LEAST) {
        Ok(spans) => spans,
        Err(MeasureFault::Memory(_)) => return Err(Memory),
        Err(_) => Vec::new(lists),
    };
    let cycles = cycles_around(&spans, inception, end);
    let before = measured_over(lists, file, cycles.before)?;
    let fault = measured_over(lists, file, cycles.last)?;
    let reference = match reference_in(&file.head, &before, None) {
        Ok(reference) => reference,
        Err(_) => None,
    };
    Ok(Both {
        before,
        fault,
        cycles,
        reference,
    })
}
