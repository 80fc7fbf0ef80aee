//! The tables of what is measured over whole cycles: channels, harmonics.

use crate::cycles::{Measured, Phasor, Three, measured_at};
use crate::float::{put_float, put_places};
use crate::number::put_ordinal;
use crate::show::put_row_time;
use crate::shown::{Shown, put_channel};
use crate::table::{end_cell, end_row, table_of};
use comtrade_format::File;
use comtrade_values::put;
use std::alloc::{AllocError, Allocator};

/// What was measured of a record's channels, the channels of three phases, the reference phasor of
/// angles, and how it is shown.
#[derive(Drop)]
pub(crate) struct Found<'a, A: Allocator> {
    pub(crate) file: &'a File<A>,
    pub(crate) measures: &'a [Option<Measured<A>>],
    pub(crate) threes: &'a [Three],
    pub(crate) reference: Option<Phasor>,
    pub(crate) shown: Shown<'a>,
}

/// The cells of five numbers that were not measured, and why, up to the end of the row.
pub(crate) const MISSING: &str = "-\x1F-\x1F-\x1F-\x1F-\x1Freadings are missing\x1F\n";

pub(crate) fn put_float_cell<A: Allocator>(
    table: &mut Vec<u8, A>,
    x: f64,
    beside: f64,
) -> Result<(), AllocError> {
    put_float(table, x, beside)?;
    end_cell(table)
}

/// The cell of an angle in degrees, above -180 and at most 180, if there is one.
pub(crate) fn put_angle_cell<A: Allocator>(
    table: &mut Vec<u8, A>,
    phasor: Phasor,
    reference: Option<Phasor>,
) -> Result<(), AllocError> {
    if let Some(reference) = reference {
        let degrees = phasor.degrees_from(reference);
        put_places(table, if degrees < -179.9995 { 180.0 } else { degrees }, 3)?;
    } else {
        put(table, "-")?;
    }
    end_cell(table)
}

/// What was measured of a channel, up to the end of its row.
fn put_measured<A: Allocator>(
    table: &mut Vec<u8, A>,
    measured: &Measured<A>,
    reference: Option<Phasor>,
    shown: Shown<'_>,
) -> Result<(), AllocError> {
    let beside = measured.peak.abs();
    let reference = if measured.has_angle() {
        reference
    } else {
        None
    };
    put_float_cell(table, measured.rms, beside)?;
    put_float_cell(table, measured.phasor.magnitude(), beside)?;
    put_angle_cell(table, measured.phasor, reference)?;
    put_float_cell(table, measured.dc, beside)?;
    put_float_cell(table, measured.peak, beside)?;
    put_row_time(table, shown.clock(), measured.peak_row)?;
    end_cell(table)?;
    end_row(table)
}

/// The table of channels.
pub(crate) fn channel_table<A: Allocator>(
    alloc: A,
    found: &Found<'_, A>,
) -> Result<Vec<u8, A>, AllocError> {
    let file = found.file;
    let mut table = table_of(
        alloc,
        "n\x1Fid\x1Fphase\x1Funit\x1Frms\x1Fmagnitude\x1Fangle\x1Fdc\x1Fpeak\x1Fat ms\x1F\n",
    )?;
    for (place, channel) in file.head.analog.items().iter().enumerate() {
        put_channel(&mut table, place, channel)?;
        match measured_at(found.measures, place) {
            Some(measured) => put_measured(&mut table, measured, found.reference, found.shown)?,
            None => put(&mut table, MISSING)?,
        }
    }
    Ok(table)
}

/// The orders of at least a thousandth of the magnitude, in percent of it.
fn put_orders<A: Allocator>(
    table: &mut Vec<u8, A>,
    measured: &Measured<A>,
) -> Result<(), AllocError> {
    let magnitude = measured.phasor.magnitude();
    let mut before = "";
    for (i, size) in measured.orders.iter().enumerate() {
        if 0 < i && magnitude * 0.001 <= *size {
            put_ordinal(table, before, i)?;
            put(table, ": ")?;
            put_places(table, *size / magnitude * 100.0, 1)?;
            before = ", ";
        }
    }
    if before.is_empty() {
        return put(table, "none");
    }
    Ok(())
}

/// The table of harmonics, of the channels that have an angle.
pub(crate) fn order_table<A: Allocator>(
    alloc: A,
    found: &Found<'_, A>,
) -> Result<Vec<u8, A>, AllocError> {
    let file = found.file;
    let mut table = table_of(alloc, "n\x1Fid\x1Fphase\x1Funit\x1Forders\x1F\n")?;
    for (place, channel) in file.head.analog.items().iter().enumerate() {
        match measured_at(found.measures, place) {
            Some(measured) if measured.has_angle() => {
                put_channel(&mut table, place, channel)?;
                put_orders(&mut table, measured)?;
                end_cell(&mut table)?;
                end_row(&mut table)?;
            }
            _ => {}
        }
    }
    Ok(table)
}
