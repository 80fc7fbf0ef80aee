//! The faults of a record as values.

use crate::faults::contacts::told_in;
use crate::faults::fault::fault_members;
use crate::faults::known::{Known, Source};
use crate::faults::members::{FaultMembers, OtherMembers, RecordFaults};
use crate::faults::none::reason_of;
use crate::faults::parts::millis_at;
use crate::faults::words::{cause_words, has_doubt};
use crate::instant::put_instant;
use crate::json::text_of;
use crate::number::ordinal;
use crate::times::{time_at, times_since_trigger};
use comtrade_distance::LineData;
use comtrade_fault::{Found, Kind, disturbances_of};
use comtrade_format::File;
use comtrade_io::ToolFault;
use comtrade_values::Memory;
use std::alloc::{AllocError, Allocator, Global};

/// The row of the record in which a disturbance begins.
fn inception_of(found: &Found) -> Option<usize> {
    found.first.checked_add(found.disturbance.inception)
}

/// The row in which the next fault of the same currents begins.
fn next_after(all: &[Found], found: &Found, inception: usize) -> Option<usize> {
    for other in all {
        let is_fault = matches!(other.disturbance.kind, Kind::Fault(_));
        if is_fault && other.place == found.place {
            match inception_of(other) {
                Some(row) if inception < row => return Some(row),
                _ => {}
            }
        }
    }
    None
}

/// The faults among what was found, which is in the order of time.
fn faults_in<A: Allocator + Copy>(
    source: &Source<'_, A>,
    all: &[Found],
) -> Result<Vec<FaultMembers>, Memory> {
    let mut faults = Vec::new(source.alloc);
    for found in all {
        if let (Kind::Fault(fault), Some(inception)) = (
            found.disturbance.kind,
            inception_of(found),
        ) {
            let known = Known {
                found: *found,
                fault,
                inception,
                next: next_after(all, found, inception),
            };
            faults.push(fault_members(source, &known)?)?;
        }
    }
    Ok(faults)
}

/// What was found that is no fault.
fn others_in<A: Allocator + Copy>(
    source: &Source<'_, A>,
    all: &[Found],
) -> Result<Vec<OtherMembers>, AllocError> {
    let mut others = Vec::new(source.alloc);
    for found in all {
        if let (Kind::Other(cause), Some(row)) = (found.disturbance.kind, inception_of(found)) {
            let has_voltages = found.disturbance.evidence.voltages.is_some();
            let what = cause_words(cause, has_voltages);
            others.push(OtherMembers {
                what: String::from_str(source.alloc, what)?,
                doubtful: has_doubt(found.disturbance.doubts),
                ms: millis_at(source.times, row),
                row: ordinal(row),
            })?;
        }
    }
    Ok(others)
}

/// The trigger as text.
fn trigger_of<A: Allocator>(alloc: Global, file: &File<A>) -> Result<String, AllocError> {
    let mut text = Vec::new(alloc);
    put_instant(&mut text, file.head.trigger as i128)?;
    text_of(alloc, &text)
}

/// The row in which the first of the faults begins, of whichever currents; None where none is found.
fn first_row(all: &[Found]) -> Option<usize> {
    let mut first = None;
    for found in all {
        if let (Kind::Fault(_), Some(row)) = (found.disturbance.kind, inception_of(found)) {
            first = Some(match first {
                Some(least) => row.min(least),
                None => row,
            });
        }
    }
    first
}

/// When the first fault of a record begins, in nanoseconds since its trigger; None where none is
/// found, or the row has no time.
pub fn first_fault_of<A: Allocator + Copy>(
    lists: A,
    file: &File<A>,
) -> Result<Option<i64>, ToolFault> {
    let times = times_since_trigger(lists, file)?;
    let all = disturbances_of(lists, file)?;
    Ok(match first_row(&all) {
        Some(row) => time_at(&times, row),
        None => None,
    })
}

/// The faults of a record of this name, and where they are on a line, if one is given.
pub fn faults_of<A: Allocator + Copy>(
    alloc: Global,
    lists: A,
    file: &File<A>,
    name: &[u8],
    line: Option<&LineData>,
) -> Result<RecordFaults, ToolFault> {
    let times = times_since_trigger(lists, file)?;
    let told = told_in(lists, file)?;
    let source = Source {
        alloc,
        lists,
        file,
        times: &times,
        told: &told,
        line,
    };
    let mut all = disturbances_of(lists, file)?;
    all.sort_by_key(|found| inception_of(found))?;
    let faults = faults_in(&source, &all)?;
    let others = others_in(&source, &all)?;
    let none = if faults.is_empty() {
        Some(reason_of(&source, &others)?)
    } else {
        None
    };
    Ok(RecordFaults {
        record: text_of(alloc, name)?,
        station: text_of(alloc, file.head.station.items())?,
        device: text_of(alloc, file.head.device.items())?,
        trigger: trigger_of(alloc, file)?,
        faults,
        others,
        none,
    })
}
