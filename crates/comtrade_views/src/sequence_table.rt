//! The table of sequence components.

use crate::cycles::{Components, Phasor, Three, components_of};
use crate::measure_tables::{Found, MISSING, put_angle_cell, put_float_cell};
use crate::table::{end_cell, end_row, table_of};
use comtrade_io::put_safe;
use comtrade_values::put;
use dfr_channels::AnalogChannel;
use std::alloc::{AllocError, Allocator};

/// The magnitudes and angles of three channels' sequence components, up to the end of the row.
fn put_sequence<A: Allocator>(
    table: &mut Vec<u8, A>,
    sequence: Components,
    reference: Option<Phasor>,
) -> Result<(), AllocError> {
    let beside = sequence.greatest();
    for phasor in [sequence.positive, sequence.negative, sequence.zero] {
        let has_angle = beside * 1e-9 < phasor.magnitude();
        let reference = if has_angle { reference } else { None };
        put_float_cell(table, phasor.magnitude(), beside)?;
        put_angle_cell(table, phasor, reference)?;
    }
    end_row(table)
}

/// The ids of three channels, and their unit; empty cells without a channel.
fn put_three<A: Allocator>(
    table: &mut Vec<u8, A>,
    channels: &[AnalogChannel<A>],
    three: Three,
) -> Result<(), AllocError> {
    for place in [three.a, three.b, three.c] {
        if let Some(channel) = channels.get(place) {
            put_safe(table, channel.id.items())?;
        }
        end_cell(table)?;
    }
    if let Some(channel) = channels.get(three.a) {
        put_safe(table, channel.unit.items())?;
    }
    end_cell(table)
}

/// The table of sequence components.
pub(crate) fn sequence_table<A: Allocator>(
    alloc: A,
    found: &Found<'_, A>,
) -> Result<Vec<u8, A>, AllocError> {
    let mut table = table_of(
        alloc,
        "A\x1FB\x1FC\x1Funit\x1Fpositive\x1Fangle\x1Fnegative\x1Fangle\x1Fzero\x1Fangle\x1F\n",
    )?;
    let file = found.file;
    let channels = file.head.analog.items();
    for three in found.threes {
        put_three(&mut table, channels, *three)?;
        match components_of(found.measures, *three) {
            Some(sequence) => put_sequence(&mut table, sequence, found.reference)?,
            None => put(&mut table, MISSING)?,
        }
    }
    Ok(table)
}
