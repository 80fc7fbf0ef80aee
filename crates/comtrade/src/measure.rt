//! `comtrade measure`: what is measured in a record, or in a part of it.

use crate::part::Taken;
use crate::view::Room;
use crate::wanted::Wanted;
use comtrade_format::File;
use comtrade_io::{Cursor, Part, ToolFault, write_out};
use comtrade_values::{Decimal, put};
use comtrade_views::{
    Choice, LineFrequency, MeasureFault, Measuring, Shown, measure_text, put_outside,
    times_since_trigger,
};
use std::alloc::Allocator;
use std::io::Write;

const TWICE: &str = "comtrade: --at cannot be combined with --from or --to\n";

const NO_FREQUENCY: &str =
    "comtrade: --frequency expects measured, or a number of Hz above 0, such as 49.8\n";

const NO_MOMENT: &str = "comtrade: --frequency measured needs --at, or --from or --to\n";

/// What is measured of a part: its last whole cycle with `--at`, its whole cycles in a window, else
/// the fault inceptions of currents.
fn measuring_of<'a>(part: Part<'a>, cursor: Cursor<'a>) -> Measuring<'a> {
    let choice = Choice {
        reference: cursor.reference,
        phases: cursor.phases,
    };
    if cursor.at.is_some() {
        return Measuring::LastCycle(choice);
    }
    if part.from.is_some() || part.to.is_some() {
        Measuring::WholeCycles(choice)
    } else {
        Measuring::Course
    }
}

/// The part that is measured; with `--at` it ends at that moment. None if a window is given as
/// well, with the error in `said`.
pub(crate) fn measured_part<'a, A: Allocator>(
    wanted: Wanted<'a>,
    said: &mut Vec<u8, A>,
) -> Result<Option<Part<'a>>, ToolFault> {
    let part = wanted.part;
    let Some(at) = wanted.cursor.at else {
        return Ok(Some(part));
    };
    if part.from.is_some() || part.to.is_some() {
        put(said, TWICE)?;
        return Ok(None);
    }
    Ok(Some(Part {
        to: Some(at),
        ..part
    }))
}

/// Whether the moment is outside the record or in its first cycle, with the error in `said`.
pub(crate) fn is_outside<A: Allocator + Copy>(
    alloc: A,
    file: &File<A>,
    cursor: Cursor<'_>,
    said: &mut Vec<u8, A>,
) -> Result<bool, ToolFault> {
    let Some(at) = cursor.at else {
        return Ok(false);
    };
    let times = times_since_trigger(alloc, file)?;
    Ok(put_outside(said, file, &times, at)?)
}

/// The line frequency that a text asks for; None if it is none.
fn frequency_in(text: Option<&str>) -> Option<LineFrequency> {
    let Some(text) = text else {
        return Some(LineFrequency::OfFile);
    };
    if text == "measured" {
        return Some(LineFrequency::Measured);
    }
    let hertz = Decimal::read(text.as_bytes())?;
    if hertz.units() <= 0 {
        return None;
    }
    Some(LineFrequency::Given(hertz))
}

/// The line frequency that is asked for; None if it cannot be taken, with the error in `said`.
pub(crate) fn frequency_for<A: Allocator>(
    wanted: Wanted<'_>,
    said: &mut Vec<u8, A>,
) -> Result<Option<LineFrequency>, ToolFault> {
    let frequency = frequency_in(wanted.cursor.frequency);
    if frequency.is_none() {
        put(said, NO_FREQUENCY)?;
        return Ok(None);
    }
    let is_course = measuring_of(wanted.part, wanted.cursor) == Measuring::Course;
    if is_course && frequency == Some(LineFrequency::Measured) {
        put(said, NO_MOMENT)?;
        return Ok(None);
    }
    Ok(frequency)
}

/// Prints what is measured in a record, or in the part that is asked for; false if that is refused,
/// with the error in `said`.
pub(crate) fn measure_over<A: Allocator + Copy, W: Write>(
    room: Room<A>,
    wanted: Wanted<'_>,
    taken: &mut Taken<A>,
    w: &mut W,
    said: &mut Vec<u8, A>,
) -> Result<bool, ToolFault> {
    let Some(frequency) = frequency_for(wanted, said)? else {
        return Ok(false);
    };
    let shown = Shown {
        times: &taken.times,
        first: taken.before,
        json: wanted.json,
    };
    match measure_text(
        room.texts,
        room.lists,
        &mut taken.file,
        measuring_of(wanted.part, wanted.cursor),
        frequency,
        shown,
    ) {
        Ok(text) => {
            write_out(w, &text)?;
            Ok(true)
        }
        Err(MeasureFault::Memory(_)) => Err(ToolFault::Memory),
        Err(fault) => {
            let text = format!(in room.texts; "comtrade: {fault}\n")?;
            put(said, text.as_str())?;
            Ok(false)
        }
    }
}
