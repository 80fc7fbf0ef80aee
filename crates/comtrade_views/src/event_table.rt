//! Events of records, as a table.

use crate::events::Event;
use crate::html::put_html_table;
use crate::instant::{put_instant, put_millis};
use crate::number::put_ordinal;
use crate::table::{end_cell, end_row, put_table, table_of};
use comtrade_io::{ToolFault, put_safe};
use std::alloc::{AllocError, Allocator};

/// The columns of the table of one record.
const ONE: &str = "instant\x1Fms since trigger\x1Fsince before\x1Fwhat\x1F\n";

/// The columns of the table of several records.
const MANY: &str = "instant\x1Fms since trigger\x1Fsince before\x1Frecord\x1Fwhat\x1F\n";

/// An instant in microseconds, from nanoseconds, to the nearest.
pub(crate) fn micros_at(nanos: i128) -> i128 {
    nanos.div_euclid(1000) + (500 <= nanos.rem_euclid(1000)) as i128
}

/// How long an instant is after the one before it, if both are known.
pub(crate) fn since_before(before: Option<i128>, at: Option<i128>) -> Option<i128> {
    match (before, at) {
        (Some(before), Some(at)) => at.checked_sub(before),
        _ => None,
    }
}

/// A line of the table: the instant, how long it is after the trigger and after the event before
/// it, the record if there are several, and what happened.
fn put_event<A: Allocator>(
    table: &mut Vec<u8, A>,
    event: &Event<A>,
    before: Option<i128>,
    names: &[String],
) -> Result<(), AllocError> {
    match (event.at, event.row) {
        (Some(nanos), _) => put_instant(table, micros_at(nanos))?,
        (None, Some(row)) => put_ordinal(table, "row ", row)?,
        (None, None) => {}
    }
    end_cell(table)?;
    for nanos in [event.since, since_before(before, event.at)] {
        if let Some(nanos) = nanos {
            put_millis(table, nanos)?;
        }
        end_cell(table)?;
    }
    if 1 < names.len() {
        if let Some(name) = names.get(event.record) {
            put_safe(table, name.as_bytes())?;
        }
        end_cell(table)?;
    }
    table.extend_from_slice(&event.text)?;
    end_cell(table)?;
    end_row(table)
}

/// The table of the events of the records with these names, below a line of column names.
fn event_table<A: Allocator + Copy>(
    alloc: A,
    events: &[Event<A>],
    names: &[String],
) -> Result<Vec<u8, A>, AllocError> {
    let mut table = table_of(alloc, if names.len() <= 1 { ONE } else { MANY })?;
    let mut before = None;
    for event in events {
        put_event(&mut table, event, before, names)?;
        before = event.at.or(before);
    }
    Ok(table)
}

/// The table of events of the records with these names.
pub fn put_events<A: Allocator + Copy>(
    alloc: A,
    out: &mut Vec<u8, A>,
    events: &[Event<A>],
    names: &[String],
) -> Result<(), ToolFault> {
    put_table(out, &event_table(alloc, events, names)?)?;
    Ok(())
}

/// The same in HTML.
pub fn put_events_html<A: Allocator + Copy>(
    alloc: A,
    out: &mut Vec<u8, A>,
    events: &[Event<A>],
    names: &[String],
) -> Result<(), ToolFault> {
    put_html_table(out, &event_table(alloc, events, names)?)?;
    Ok(())
}
