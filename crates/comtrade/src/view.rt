//! What is printed of a pair of files.

use crate::around::rms_of;
use crate::content::{Loaded, Reading, file_spelled};
use crate::load::Inputs;
use crate::measure::{frequency_for, is_outside, measure_over, measured_part};
use crate::part::{Taken, taken_of};
use crate::wanted::{Product, Wanted};
use comtrade_diagnostics::{Pair, check_over};
use comtrade_format::File;
use comtrade_io::{Part, Picture, ToolFault, write_out};
use comtrade_plot::{PlotOptions, Rms, Timed, page_over, plot_over};
use comtrade_values::{lines_of, put, without_blank_end};
use comtrade_views::{Spelling, csv_over, put_json, show_json, show_over, text_of};
use serde::Serialize;
use std::alloc::{AllocError, Allocator, Global};
use std::io::Write;

const NO_SPELLING: &str = "\
comtrade: --separator expects tab or one character that is not a letter, digit, minus or \
quotation mark; --decimal expects . or , and not the separator\n";

pub(crate) const NO_SIZE: &str =
    "comtrade: --width and --height expect a whole number of pixels from 1 to 100000\n";

/// Where texts are allocated, and where the lists of a file are, which are released in one step.
#[derive(Clone, Copy)]
pub(crate) struct Room<A: Allocator> {
    pub(crate) texts: Global,
    pub(crate) lists: A,
}

/// How values are spelled, and how a picture is drawn.
#[derive(Clone, Copy)]
struct Look {
    spelling: Spelling,
    options: PlotOptions,
    json: bool,
}

/// What is asked of a record, and how it is shown.
#[derive(Clone, Copy)]
pub(crate) struct Request<'a, A: Allocator> {
    room: Room<A>,
    wanted: Wanted<'a>,
    look: Look,
}

/// A number of pixels; None if the text is not one.
fn pixels_of(text: &str) -> Option<u32> {
    match text.parse::<u32>() {
        Ok(pixels) if 1 <= pixels && pixels <= 100_000 => Some(pixels),
        _ => None,
    }
}

/// The size that an option gives, None within if there is none; None if it is not valid.
fn size_of(text: Option<&str>) -> Option<Option<u32>> {
    match text {
        Some(text) => Some(Some(pixels_of(text)?)),
        None => Some(None),
    }
}

/// How a picture is drawn; None if a size is not valid.
pub(crate) fn options_of(picture: Picture<'_>) -> Option<PlotOptions> {
    Some(PlotOptions {
        is_whole: picture.whole,
        shows_all: picture.all,
        is_for_print: picture.print,
        width: size_of(picture.width)?,
        height: size_of(picture.height)?,
    })
}

/// Prints what is asked of a file whose rows have these times, in nanoseconds since the trigger.
fn put_view<A: Allocator + Copy, W: Write>(
    asked: &Request<'_, A>,
    file: &File<A>,
    times: &[Option<i64>],
    w: &mut W,
) -> Result<(), ToolFault> {
    let (lists, look) = (asked.room.lists, asked.look);
    match asked.wanted.product {
        Product::Csv => csv_over(lists, file, times, look.spelling, w),
        Product::Plot => {
            let list = rms_of(lists, file, times)?;
            let rms = list.as_slice();
            plot_over(lists, Timed { file, times, rms }, look.options, w)
        }
        Product::Page => {
            let rms: &[Rms] = &[];
            page_over(lists, Timed { file, times, rms }, w)
        }
        _ if look.json => write_out(w, &show_json(asked.room.texts, lists, file, times)?),
        _ => show_over(lists, file, times, w),
    }
}

/// Prints the verdict on a pair, as text or as JSON.
pub(crate) fn check<A: Allocator + Copy, W: Write>(
    room: Room<A>,
    json: bool,
    pair: Pair<'_>,
    w: &mut W,
) -> Result<bool, ToolFault> {
    if !json {
        return check_over(room.lists, pair, w);
    }
    let mut text = Vec::new(room.lists);
    let is_sound = check_over(room.lists, pair, &mut text)?;
    let out = verdict_json(room.texts, is_sound, &text)?;
    match write_out(w, &out) {
        Ok(()) | Err(ToolFault::Closed) => Ok(is_sound),
        Err(fault) => Err(fault),
    }
}

/// A verdict, and the lines of its text.
#[derive(Drop, Serialize)]
struct Verdict {
    sound: bool,
    lines: Vec<String>,
}

/// A verdict as a JSON object.
pub(crate) fn verdict_json(
    alloc: Global,
    is_sound: bool,
    text: &[u8],
) -> Result<Vec<u8>, AllocError> {
    let mut verdict = Verdict {
        sound: is_sound,
        lines: Vec::new(alloc),
    };
    let lines = lines_of(alloc, text)?;
    for line in without_blank_end(&lines) {
        verdict.lines.push(text_of(alloc, line)?)?;
    }
    let mut out = Vec::new(alloc);
    put_json(alloc, &mut out, &verdict)?;
    Ok(out)
}

/// How values are spelled and pictures drawn; None if a separator or size is not valid, with the
/// error in `said`.
fn look_of<A: Allocator>(
    wanted: Wanted<'_>,
    said: &mut Vec<u8, A>,
) -> Result<Option<Look>, ToolFault> {
    let Some(spelling) = Spelling::of(wanted.form.separator, wanted.form.decimal) else {
        put(said, NO_SPELLING)?;
        return Ok(None);
    };
    let Some(options) = options_of(wanted.picture) else {
        put(said, NO_SIZE)?;
        return Ok(None);
    };
    Ok(Some(Look {
        spelling,
        options,
        json: wanted.json,
    }))
}

/// Whether this can be asked of a record, whatever is in it, with the error in `said`.
pub(crate) fn is_askable<A: Allocator>(
    wanted: Wanted<'_>,
    said: &mut Vec<u8, A>,
) -> Result<bool, ToolFault> {
    if look_of(wanted, said)?.is_none() {
        return Ok(false);
    }
    if wanted.product != Product::Measure {
        return Ok(true);
    }
    if measured_part(wanted, said)?.is_none() {
        return Ok(false);
    }
    Ok(frequency_for(wanted, said)?.is_some())
}

/// The part that is asked for; None if it cannot be measured, with the error in `said`.
fn part_in<'a, A: Allocator>(
    asked: &Request<'a, A>,
    said: &mut Vec<u8, A>,
) -> Result<Option<Part<'a>>, ToolFault> {
    if asked.wanted.product == Product::Measure {
        measured_part(asked.wanted, said)
    } else {
        Ok(Some(asked.wanted.part))
    }
}

/// Prints what is asked of a part; false if it cannot be measured, with the error in `said`.
fn view_taken<A: Allocator + Copy, W: Write>(
    asked: &Request<'_, A>,
    taken: &mut Taken<A>,
    w: &mut W,
    said: &mut Vec<u8, A>,
) -> Result<bool, ToolFault> {
    if asked.wanted.product == Product::Measure {
        return measure_over(asked.room, asked.wanted, taken, w, said);
    }
    put_view(asked, &taken.file, &taken.times, w)?;
    Ok(true)
}

/// Prints what is asked of a part; false if it is refused, with the error in `said`.
fn view_part<A: Allocator + Copy, W: Write>(
    asked: &Request<'_, A>,
    file: File<A>,
    part: Part<'_>,
    w: &mut W,
    said: &mut Vec<u8, A>,
) -> Result<bool, ToolFault> {
    match taken_of(asked.room.lists, file, part, said)? {
        Some(mut taken) => view_taken(asked, &mut taken, w, said),
        None => Ok(false),
    }
}

/// Whether a measurement is asked for at a moment that the record does not have, with the error in
/// `said`.
fn is_off<A: Allocator + Copy>(
    asked: &Request<'_, A>,
    file: &File<A>,
    said: &mut Vec<u8, A>,
) -> Result<bool, ToolFault> {
    if asked.wanted.product != Product::Measure {
        return Ok(false);
    }
    is_outside(asked.room.lists, file, asked.wanted.cursor, said)
}

/// Prints what is asked of the part that is asked for; false if it is refused, with the error in
/// `said`.
pub(crate) fn view_file<A: Allocator + Copy, W: Write>(
    asked: &Request<'_, A>,
    file: File<A>,
    w: &mut W,
    said: &mut Vec<u8, A>,
) -> Result<bool, ToolFault> {
    if is_off(asked, &file, said)? {
        return Ok(false);
    }
    match part_in(asked, said)? {
        Some(part) => view_part(asked, file, part, w, said),
        None => Ok(false),
    }
}

/// What is asked of a record, and what was read; None if a separator, size or encoding is not valid or
/// the record has an error, which is put to `said`. `said` also gets the repairs of a record, and
/// what is doubtful about one that is shown and reads exactly.
pub(crate) fn shown_file<'a, A: Allocator + Copy>(
    room: Room<A>,
    wanted: Wanted<'a>,
    inputs: &Inputs,
    said: &mut Vec<u8, A>,
) -> Result<Option<(Request<'a, A>, Loaded<A>)>, ToolFault> {
    let Some(look) = look_of(wanted, said)? else {
        return Ok(None);
    };
    let reading = Reading::to_show(wanted.part, wanted.product == Product::Show);
    let Some(loaded) = file_spelled(room.lists, inputs, reading, said)? else {
        return Ok(None);
    };
    let asked = Request { room, wanted, look };
    Ok(Some((asked, loaded)))
}
