//! A fault as a block of lines.

use crate::faults::members::{
    ContactMembers, FaultMembers, PhasorMembers, RecloseMembers, RecordFaults,
};
use crate::faults::place_text::put_place;
use crate::faults::table::{put_ms, put_peak};
use crate::float::{put_float, put_places};
use crate::number::put_ordinal;
use crate::table::{end_cell, end_row, put_cell, put_table, table_of};
use comtrade_values::{put, put_number};
use std::alloc::{AllocError, Global};

/// Milliseconds, and their unit.
fn put_millis_of(out: &mut Vec<u8>, ms: Option<f64>) -> Result<(), AllocError> {
    put_ms(out, ms)?;
    put(out, " ms")
}

/// The record and the number of the fault in it.
fn put_head(out: &mut Vec<u8>, record: &RecordFaults, index: usize) -> Result<(), AllocError> {
    put(out, record.record.as_str())?;
    put(out, ": ")?;
    put(out, record.station.as_str())?;
    put(out, ", ")?;
    put(out, record.device.as_str())?;
    put_ordinal(out, ", fault ", index)?;
    put(out, " of ")?;
    put_number(out, record.faults.len() as u64)?;
    put(out, "\n")
}

/// The type, and what is doubtful about it.
fn put_type(out: &mut Vec<u8>, fault: &FaultMembers) -> Result<(), AllocError> {
    put(out, "fault      ")?;
    put(out, fault.fault.as_str())?;
    put(out, ", ")?;
    put(out, fault.phases.as_str())?;
    put(
        out,
        if fault.doubts.is_empty() {
            "\n"
        } else {
            "; doubtful\n"
        },
    )?;
    for doubt in fault.doubts.iter() {
        put(out, "doubt      ")?;
        put(out, doubt.as_str())?;
        put(out, "\n")?;
    }
    Ok(())
}

/// A percentage, or `-`.
fn put_percent(out: &mut Vec<u8>, percent: Option<f64>) -> Result<(), AllocError> {
    match percent {
        Some(percent) => {
            put_places(out, percent, 1)?;
            put(out, " %")
        }
        None => put(out, "-"),
    }
}

/// Names joined by commas.
fn put_ids(out: &mut Vec<u8>, ids: &[String]) -> Result<(), AllocError> {
    let mut between = "";
    for id in ids {
        put(out, between)?;
        put(out, id.as_str())?;
        between = ", ";
    }
    Ok(())
}

/// How much a current changes.
fn put_change(
    out: &mut Vec<u8>,
    id: Option<&String>,
    percent: Option<f64>,
) -> Result<(), AllocError> {
    if let Some(id) = id {
        put(out, id.as_str())?;
    }
    put(out, " ")?;
    put_percent(out, percent)?;
    put(out, ", ")
}

/// What the type rests on: how much each current and the voltages change.
fn put_evidence(out: &mut Vec<u8>, fault: &FaultMembers) -> Result<(), AllocError> {
    put(out, "rests on   change of current, of the greatest: ")?;
    let (change, ids) = (&fault.change, &fault.currents);
    put_change(out, ids.get(0), change.a)?;
    put_change(out, ids.get(1), change.b)?;
    put_change(out, ids.get(2), change.c)?;
    put(out, "sum ")?;
    put_percent(out, change.sum)?;
    put(out, "\n")?;
    if fault.voltage_change.is_some() {
        put(out, "           change of voltage, the greatest of ")?;
        put_ids(out, &fault.voltages)?;
        put(out, ": ")?;
        put_percent(out, fault.voltage_change)?;
        put(out, " of that before\n")?;
    }
    Ok(())
}

/// The inception: instant, time since the trigger, and row.
fn put_inception(out: &mut Vec<u8>, fault: &FaultMembers) -> Result<(), AllocError> {
    put(out, "inception  ")?;
    if let Some(instant) = &fault.instant {
        put(out, instant.as_str())?;
        put(out, ", ")?;
    }
    put_millis_of(out, fault.inception_ms)?;
    put(out, " since the trigger, row ")?;
    put_number(out, fault.inception_row)?;
    put(out, "\n")
}

/// Whether a type is one of a single phase.
fn is_single(fault: &FaultMembers) -> bool {
    matches!(fault.fault.as_str(), "AG" | "BG" | "CG")
}

/// When the phases that take part end, where these are several.
fn put_ends(out: &mut Vec<u8>, fault: &FaultMembers) -> Result<(), AllocError> {
    if is_single(fault) {
        return put(out, "\n");
    }
    let ends = &fault.ends;
    let mut between = " (";
    for (letter, end) in [("A", ends.a), ("B", ends.b), ("C", ends.c)] {
        if fault.fault.as_str().contains(letter) {
            put(out, between)?;
            put(out, letter)?;
            put(out, " ")?;
            put_ms(out, end)?;
            between = ", ";
        }
    }
    put(out, ")\n")
}

/// The clearing, and how long the fault lasts.
fn put_clearing(out: &mut Vec<u8>, fault: &FaultMembers) -> Result<(), AllocError> {
    put(out, "cleared    ")?;
    if fault.cleared_row.is_none() {
        return put(out, "not found in the currents\n");
    }
    put_millis_of(out, fault.cleared_ms)?;
    put(out, " since the trigger")?;
    put_ends(out, fault)?;
    put(out, "lasts      ")?;
    put_millis_of(out, fault.lasts_ms)?;
    put(out, "\n")
}

/// A contact: what it told, how long after the inception, and its name.
fn put_contact(out: &mut Vec<u8>, title: &str, contact: &ContactMembers) -> Result<(), AllocError> {
    put(out, title)?;
    put_millis_of(out, contact.after_ms)?;
    put(out, " after the inception, D")?;
    put_number(out, contact.n)?;
    put(out, " ")?;
    put(out, contact.id.as_str())?;
    put(out, "\n")
}

/// A contact, or that none told anything.
fn put_sign(
    out: &mut Vec<u8>,
    title: &str,
    contact: &Option<ContactMembers>,
) -> Result<(), AllocError> {
    match contact {
        Some(contact) => put_contact(out, title, contact),
        None => {
            put(out, title)?;
            put(out, "no status channel tells it\n")
        }
    }
}

/// How the breaker opened: the time from the trip command to the end of the current.
fn put_breaker(out: &mut Vec<u8>, fault: &FaultMembers) -> Result<(), AllocError> {
    if fault.breaker_ms.is_none() {
        return Ok(());
    }
    put(out, "breaker    ")?;
    put_millis_of(out, fault.breaker_ms)?;
    put(out, " from the trip to the end of the current\n")
}

/// How a reclosing went.
fn put_reclose(out: &mut Vec<u8>, reclose: &Option<RecloseMembers>) -> Result<(), AllocError> {
    let Some(reclose) = reclose else {
        return Ok(());
    };
    put_contact(out, "reclosed   ", &reclose.contact)?;
    put(
        out,
        match reclose.holds {
            Some(true) => "           no fault in the five cycles after it: it held\n",
            Some(false) => "           onto a fault: it failed\n",
            None => "           the record ends within five cycles: whether it held is open\n",
        },
    )
}

/// A magnitude and an angle.
fn put_phasor(
    table: &mut Vec<u8>,
    magnitude: Option<f64>,
    angle: Option<f64>,
) -> Result<(), AllocError> {
    match magnitude {
        Some(magnitude) => put_float(table, magnitude, 0.0)?,
        None => put(table, "-")?,
    }
    end_cell(table)?;
    match angle {
        Some(angle) => put_places(table, angle, 1)?,
        None => put(table, "-")?,
    }
    end_cell(table)
}

/// The table of phasors.
fn phasor_table(alloc: Global, phasors: &[PhasorMembers]) -> Result<Vec<u8>, AllocError> {
    let mut table = table_of(
        alloc,
        "phasors\x1Funit\x1Fbefore\x1Fangle\x1Fin the fault\x1Fangle\x1F\n",
    )?;
    for phasor in phasors {
        put_cell(&mut table, phasor.id.as_str())?;
        put_cell(&mut table, phasor.unit.as_str())?;
        put_phasor(&mut table, phasor.before, phasor.before_angle)?;
        put_phasor(&mut table, phasor.fault, phasor.fault_angle)?;
        end_row(&mut table)?;
    }
    Ok(table)
}

/// A fault of a record, by its index.
pub(crate) fn put_block(
    alloc: Global,
    out: &mut Vec<u8>,
    record: &RecordFaults,
    fault: &FaultMembers,
    index: usize,
) -> Result<(), AllocError> {
    put_head(out, record, index)?;
    put_type(out, fault)?;
    put_evidence(out, fault)?;
    put_inception(out, fault)?;
    put_clearing(out, fault)?;
    put_sign(out, "start      ", &fault.start)?;
    put_sign(out, "trip       ", &fault.trip)?;
    put_breaker(out, fault)?;
    put_sign(out, "opened     ", &fault.breaker)?;
    put_reclose(out, &fault.reclose)?;
    put_place(out, fault)?;
    put(out, "greatest   ")?;
    put_peak(out, &fault.peak)?;
    put(out, "\n")?;
    if let Some(reference) = &fault.reference {
        put(out, "angles     in degrees from ")?;
        put(out, reference.as_str())?;
        put(out, "\n")?;
    }
    put_table(out, &phasor_table(alloc, &fault.phasors)?)
}
