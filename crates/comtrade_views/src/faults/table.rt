//! The faults of records, one line each.

use crate::faults::members::{
    ContactMembers, FaultMembers, PeakMembers, RecloseMembers, RecordFaults,
};
use crate::faults::place_text::put_place_cell;
use crate::float::put_float;
use crate::instant::put_millis;
use crate::table::{end_cell, end_row, put_cell, table_of};
use comtrade_values::put;
use std::alloc::{AllocError, Global};
use std::num::saturating_f64_to_i64;

/// The columns of the table. A time without another word is since the inception.
const NAMES: &str = "\
inception\x1Ffault\x1Fms since trigger\x1Flasts ms\x1Ftrip ms\x1Fbreaker ms\x1Freclose\x1F\
greatest current\x1Fstation\x1Fdevice\x1Frecord\x1Fremarks\x1F\n";

/// The same where a line is given.
const NAMES_ON_LINE: &str = "\
inception\x1Ffault\x1Fplace km\x1Fms since trigger\x1Flasts ms\x1Ftrip ms\x1Fbreaker ms\x1F\
reclose\x1Fgreatest current\x1Fstation\x1Fdevice\x1Frecord\x1Fremarks\x1F\n";

/// The columns of the table of records without a fault.
const NONE: &str = "trigger\x1Fstation\x1Fdevice\x1Frecord\x1Fno fault, because\x1F\n";

/// Milliseconds with three places; `-` where there are none.
pub(crate) fn put_ms(out: &mut Vec<u8>, ms: Option<f64>) -> Result<(), AllocError> {
    let Some(ms) = ms else {
        return put(out, "-");
    };
    let half = if ms < 0.0 { -0.5 } else { 0.5 };
    // (the rows of a record span less than 292 years)
    let micros = saturating_f64_to_i64(ms * 1000.0 + half);
    put_millis(out, micros as i128 * 1000)
}

/// A cell with milliseconds.
fn put_ms_cell(table: &mut Vec<u8>, ms: Option<f64>) -> Result<(), AllocError> {
    put_ms(table, ms)?;
    end_cell(table)
}

/// How a reclosing went, in a word.
pub(crate) fn reclose_word(reclose: &Option<RecloseMembers>) -> &'static str {
    match reclose {
        None => "-",
        Some(reclose) => match reclose.holds {
            Some(true) => "held",
            Some(false) => "failed",
            None => "open",
        },
    }
}

/// `IB -5635.3 A`
pub(crate) fn put_peak(out: &mut Vec<u8>, peak: &Option<PeakMembers>) -> Result<(), AllocError> {
    let Some(peak) = peak else {
        return put(out, "-");
    };
    put(out, peak.id.as_str())?;
    put(out, " ")?;
    put_float(out, peak.value, 0.0)?;
    put(out, " ")?;
    put(out, peak.unit.as_str())
}

/// How long after the inception a contact told something.
fn after_of(contact: &Option<ContactMembers>) -> Option<f64> {
    contact.as_ref()?.after_ms
}

/// The cells that name a record.
fn put_names(table: &mut Vec<u8>, record: &RecordFaults) -> Result<(), AllocError> {
    put_cell(table, record.station.as_str())?;
    put_cell(table, record.device.as_str())?;
    put_cell(table, record.record.as_str())
}

/// The doubts and what is missing, one after the other.
fn put_remarks(table: &mut Vec<u8>, fault: &FaultMembers) -> Result<(), AllocError> {
    let mut between = "doubtful: ";
    for doubt in fault.doubts.iter() {
        put(table, between)?;
        put(table, doubt.as_str())?;
        between = "; ";
    }
    between = if fault.doubts.is_empty() { "" } else { "; " };
    if fault.cleared_row.is_none() {
        put(table, between)?;
        put(table, "no clearing is found in the currents")?;
        between = "; ";
    }
    if let Some(reason) = fault.no_place.as_ref() {
        put(table, between)?;
        put(table, "no place: ")?;
        put(table, reason.as_str())?;
    }
    end_cell(table)
}

/// A line of the table, with the place where a line is given.
fn put_fault(
    table: &mut Vec<u8>,
    record: &RecordFaults,
    fault: &FaultMembers,
    is_on_line: bool,
) -> Result<(), AllocError> {
    match &fault.instant {
        Some(instant) => put_cell(table, instant.as_str())?,
        None => put_cell(table, "-")?,
    }
    put(table, fault.fault.as_str())?;
    put_cell(table, if fault.doubts.is_empty() { "" } else { "?" })?;
    if is_on_line {
        put_place_cell(table, fault.place.as_ref())?;
        end_cell(table)?;
    }
    put_ms_cell(table, fault.inception_ms)?;
    put_ms_cell(table, fault.lasts_ms)?;
    put_ms_cell(table, after_of(&fault.trip))?;
    put_ms_cell(table, fault.breaker_ms)?;
    put_cell(table, reclose_word(&fault.reclose))?;
    put_peak(table, &fault.peak)?;
    end_cell(table)?;
    put_names(table, record)?;
    put_remarks(table, fault)?;
    end_row(table)
}

/// Whether faults are located, or why they are not is told: a line is given then.
fn are_on_line(records: &[RecordFaults]) -> bool {
    for record in records {
        for fault in record.faults.iter() {
            if fault.place.is_some() || fault.no_place.is_some() {
                return true;
            }
        }
    }
    false
}

/// The table of faults, below a line of column names.
pub(crate) fn fault_table(alloc: Global, records: &[RecordFaults]) -> Result<Vec<u8>, AllocError> {
    let is_on_line = are_on_line(records);
    let names = if is_on_line { NAMES_ON_LINE } else { NAMES };
    let mut table = table_of(alloc, names)?;
    for record in records {
        for fault in record.faults.iter() {
            put_fault(&mut table, record, fault, is_on_line)?;
        }
    }
    Ok(table)
}

/// The line of a record without a fault: why it has none.
fn put_none(table: &mut Vec<u8>, record: &RecordFaults) -> Result<(), AllocError> {
    put_cell(table, record.trigger.as_str())?;
    put_names(table, record)?;
    match &record.none {
        Some(reason) => put_cell(table, reason.as_str())?,
        None => end_cell(table)?,
    }
    end_row(table)
}

/// The table of the records without a fault.
pub(crate) fn none_table(alloc: Global, records: &[RecordFaults]) -> Result<Vec<u8>, AllocError> {
    let mut table = table_of(alloc, NONE)?;
    for record in records {
        if record.faults.is_empty() {
            put_none(&mut table, record)?;
        }
    }
    Ok(table)
}
