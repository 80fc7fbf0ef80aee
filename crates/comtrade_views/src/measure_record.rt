//! The fault inceptions of each current of a record, as text or JSON.

use crate::cycles::{Course, Followed, MeasureFault, Window, courses_of, spans_of};
use crate::float::put_places;
use crate::json::{put_json, text_of};
use crate::measure_tables::put_float_cell;
use crate::number::ordinal;
use crate::show::put_row_time;
use crate::shown::{Shown, put_channel, put_cycle_of};
use crate::table::{end_cell, end_row, put_table, table_of};
use comtrade_format::{File, nearest_f64};
use comtrade_values::{put, put_number, put_with};
use dfr_channels::AnalogChannel;
use serde::Serialize;
use std::alloc::{AllocError, Allocator, Global};

/// The cell of the current before an inception.
fn put_before<A: Allocator>(table: &mut Vec<u8, A>, course: Course) -> Result<(), AllocError> {
    match course.before {
        Some(before) => put_float_cell(table, before, course.greatest),
        None => put(table, "-\x1F"),
    }
}

/// For how many milliseconds a current is above twice that before, where that is known.
fn above_of(course: Course, frequency: f64) -> Option<f64> {
    match course.before {
        Some(_) => Some(course.above / frequency * 1000.0),
        None => None,
    }
}

/// The cell of that time.
fn put_above<A: Allocator>(table: &mut Vec<u8, A>, above: Option<f64>) -> Result<(), AllocError> {
    match above {
        Some(ms) => put_places(table, ms, 3)?,
        None => put(table, "- (no cycle before it to compare)")?,
    }
    end_cell(table)
}

/// The cells of a fault inception: when and where it is, and the current before and after it.
fn put_course<A: Allocator>(
    table: &mut Vec<u8, A>,
    course: Course,
    frequency: f64,
    shown: Shown<'_>,
) -> Result<(), AllocError> {
    put_row_time(table, shown.clock(), course.row)?;
    end_cell(table)?;
    put_number(table, shown.number(course.row))?;
    end_cell(table)?;
    put_before(table, course)?;
    put_float_cell(table, course.greatest, 0.0)?;
    put_above(table, above_of(course, frequency))?;
    end_row(table)
}

/// The cells of a current without an inception, up to the end of the row.
fn put_no_course<A: Allocator>(
    table: &mut Vec<u8, A>,
    current: &Followed<A>,
) -> Result<(), AllocError> {
    put(table, "-\x1F-\x1F-\x1F-\x1F")?;
    if !current.is_known {
        return put(table, "readings are missing\x1F\n");
    }
    put(table, "no inception found")?;
    if current.missing != 0 {
        put_with(table, "; missing readings: ", current.missing)?;
    }
    put(table, "\x1F\n")
}

/// The table of these currents, below a line of column names.
fn course_table<A: Allocator>(
    alloc: A,
    file: &File<A>,
    followed: &[Followed<A>],
    frequency: f64,
    shown: Shown<'_>,
) -> Result<Vec<u8, A>, AllocError> {
    let mut table = table_of(
        alloc,
        "n\x1Fid\x1Fphase\x1Funit\x1Fleft at ms\x1Frow\x1Frms before\x1Fgreatest rms\x1Fms above twice that before\x1F\n",
    )?;
    for current in followed {
        let Some(channel) = file.head.analog.items().get(current.place) else {
            break;
        };
        for course in current.courses.iter() {
            put_channel(&mut table, current.place, channel)?;
            put_course(&mut table, *course, frequency, shown)?;
        }
        if current.courses.is_empty() {
            put_channel(&mut table, current.place, channel)?;
            put_no_course(&mut table, current)?;
        }
    }
    Ok(table)
}

/// A fault inception of a current; nothing where none was found.
#[derive(Drop, Serialize)]
struct CurrentMembers {
    n: u128,
    id: String,
    phase: String,
    unit: String,
    left_ms: Option<f64>,
    left_row: Option<u128>,
    rms_before: Option<f64>,
    rms_greatest: Option<f64>,
    above_ms: Option<f64>,
}

/// The fault inceptions of a record.
#[derive(Drop, Serialize)]
struct Members {
    currents: Vec<CurrentMembers>,
}

/// A current, with a fault inception if there is one.
fn current_members<A: Allocator>(
    alloc: Global,
    place: usize,
    channel: &AnalogChannel<A>,
    course: Option<Course>,
    frequency: f64,
    shown: Shown<'_>,
) -> Result<CurrentMembers, AllocError> {
    Ok(CurrentMembers {
        n: ordinal(place),
        id: text_of(alloc, channel.id.items())?,
        phase: text_of(alloc, channel.phase.items())?,
        unit: text_of(alloc, channel.unit.items())?,
        left_ms: course.and_then(|course| shown.millis_at(course.row)),
        left_row: course.map(|course| shown.number(course.row)),
        rms_before: course.and_then(|course| course.before),
        rms_greatest: course.map(|course| course.greatest),
        above_ms: course.and_then(|course| above_of(course, frequency)),
    })
}

/// The fault inceptions of these currents, in one list.
fn members_of<A: Allocator>(
    alloc: Global,
    file: &File<A>,
    followed: &[Followed<A>],
    frequency: f64,
    shown: Shown<'_>,
) -> Result<Members, AllocError> {
    let mut currents = Vec::new(alloc);
    for current in followed {
        let place = current.place;
        let Some(channel) = file.head.analog.items().get(place) else {
            break;
        };
        for course in current.courses.iter() {
            let course = Some(*course);
            currents.push(current_members(alloc, place, channel, course, frequency, shown)?)?;
        }
        if current.courses.is_empty() {
            currents.push(current_members(alloc, place, channel, None, frequency, shown)?)?;
        }
    }
    Ok(Members { currents })
}

/// What the table of currents shows, and the rows per cycle of each rate.
fn put_caption<A: Allocator>(out: &mut Vec<u8, A>, spans: &[Window]) -> Result<(), AllocError> {
    put(
        out,
        "fault inception: where each current departs from its earlier waveform; ",
    )?;
    let mut is_first = true;
    for span in spans {
        put(out, if is_first { "" } else { ", " })?;
        put_cycle_of(out, *span)?;
        is_first = false;
    }
    put(
        out,
        " rows a cycle\nms above: while the rms of the last cycle is above, so up to one cycle longer than the current is\n",
    )
}

/// Where each current of a record departs from its earlier waveform, as text or as a JSON object.
pub(crate) fn put_record<A: Allocator + Copy>(
    alloc: Global,
    lists: A,
    out: &mut Vec<u8>,
    file: &File<A>,
    shown: Shown<'_>,
) -> Result<(), MeasureFault> {
    let spans = spans_of(lists, file, 8)?;
    let frequency = nearest_f64(lists, file.head.line_freq)?;
    let followed = courses_of(lists, file, &spans)?;
    if shown.json {
        put_json(
            alloc,
            out,
            &members_of(alloc, file, &followed, frequency, shown)?,
        )?;
    } else if followed.is_empty() {
        let none = "no current channels: no channel has the unit A, with or without a prefix\n";
        put(out, none)?;
    } else {
        put_caption(out, &spans)?;
        put_table(
            out,
            &course_table(lists, file, &followed, frequency, shown)?,
        )?;
    }
    Ok(())
}
