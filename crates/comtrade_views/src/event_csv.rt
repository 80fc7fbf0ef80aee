//! Events of records as comma-separated values.

use crate::column_names::{end_cell, outcome_of, put_name_of};
use crate::event_table::{micros_at, since_before};
use crate::events::{Event, EventKind};
use crate::instant::{put_instant, put_millis};
use comtrade_io::ToolFault;
use comtrade_values::put;
use csv::{Terminator, Writer, WriterBuilder};
use std::alloc::Global;

/// The names of the columns.
const NAMES: [&str; 6] = [
    "instant",
    "ms since trigger",
    "ms since before",
    "record",
    "type",
    "what",
];

fn name_of(kind: EventKind) -> &'static str {
    match kind {
        EventKind::Trigger => "trigger",
        EventKind::Change => "change",
        EventKind::Gap => "gap",
    }
}

/// The cells of an event; what is not known is an empty cell.
fn put_cells(
    table: &mut Writer<&mut Vec<u8>>,
    cell: &mut Vec<u8>,
    event: &Event,
    before: Option<i128>,
    names: &[String],
) -> Result<(), ToolFault> {
    if let Some(nanos) = event.at {
        put_instant(cell, micros_at(nanos))?;
    }
    end_cell(table, cell)?;
    for nanos in [event.since, since_before(before, event.at)] {
        if let Some(nanos) = nanos {
            put_millis(cell, nanos)?;
        }
        end_cell(table, cell)?;
    }
    if let Some(name) = names.get(event.record) {
        put_name_of(cell, name.as_bytes())?;
    }
    end_cell(table, cell)?;
    put(cell, name_of(event.kind))?;
    end_cell(table, cell)?;
    cell.extend_from_slice(&event.text)?;
    end_cell(table, cell)?;
    outcome_of(table.end_record())
}

/// The events of the records with these names as comma-separated values, below a line of names.
pub fn put_events_csv(
    alloc: Global,
    out: &mut Vec<u8>,
    events: &[Event],
    names: &[String],
) -> Result<(), ToolFault> {
    let mut cell = Vec::new(alloc);
    let mut table = WriterBuilder::new()
        .terminator(Terminator::CRLF)
        .from_writer(out);
    for name in NAMES {
        put(&mut cell, name)?;
        end_cell(&mut table, &mut cell)?;
    }
    outcome_of(table.end_record())?;
    let mut before = None;
    for event in events {
        put_cells(&mut table, &mut cell, event, before, names)?;
        before = event.at.or(before);
    }
    outcome_of(table.flush())
}
