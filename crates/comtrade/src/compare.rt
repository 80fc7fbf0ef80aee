//! `comtrade compare`: two records in one picture.

use crate::align::{Alignment, alignment_of, by_of, match_names};
use crate::around::rms_of;
use crate::content::{Reading, file_spelled};
use crate::load::{Inputs, read_record};
use crate::opened::say_repairs;
use crate::output::named_file;
use crate::part::{Taken, taken_of};
use crate::view::{NO_SIZE, options_of};
use crate::write::write_new;
use crate::zones::to_zone_of;
use crate::{complain, note_size, say};
use bumpalo::Bump;
use comtrade_diagnostics::Zone;
use comtrade_format::File;
use comtrade_io::{Compared, Names, Part, ToolFault};
use comtrade_plot::{CompareOptions, PlotOptions, Timed, compare_over};
use comtrade_values::put;
use std::alloc::Allocator;
use std::io;
use std::io::Write;
use std::rt::Files;

/// What is asked of the second record: the rows and channels of the first decide.
fn part_beside<'a>(part: Part<'a>) -> Part<'a> {
    Part {
        from: None,
        to: None,
        channels: None,
        changed: false,
        ..part
    }
}

/// The file of a record, with the instants of the first record's time code; the bytes of its files
/// are released. None if it cannot be read, which is printed.
fn file_in<R: Eprint + AllocGlobal, A: Allocator + Copy>(
    rt: &R,
    lists: A,
    zone: &mut Option<Zone>,
    name: &str,
    part: Part<'_>,
    inputs: Inputs,
) -> Result<Option<File<A>>, ToolFault> {
    let mut said = Vec::new(lists);
    match file_spelled(lists, &inputs, Reading::to_show(part, false), &mut said)? {
        Some(mut loaded) => {
            to_zone_of(zone, &mut loaded, &mut said)?;
            say_repairs(rt, name, &said)?;
            Ok(Some(loaded.file))
        }
        None => {
            say(rt, &said);
            Ok(None)
        }
    }
}

/// The record with this name; None if it cannot be read or has no such part, which is printed.
fn record_of<R: Files + Input + Eprint + AllocGlobal + Clone + Drop, A: Allocator + Copy>(
    rt: &R,
    lists: A,
    is_watched: bool,
    zone: &mut Option<Zone>,
    name: &str,
    part: Part<'_>,
) -> Result<Option<Taken<A>>, ToolFault> {
    let names = Names {
        file: name,
        dat: None,
    };
    let Some(inputs) = read_record(rt, names, part.strict) else {
        return Ok(None);
    };
    note_size(rt, is_watched, &inputs);
    let Some(file) = file_in(rt, lists, zone, name, part, inputs)? else {
        return Ok(None);
    };
    let mut said = Vec::new(lists);
    let taken = taken_of(lists, file, part, &mut said)?;
    say(rt, &said);
    Ok(taken)
}

/// Prints the picture of two records; false if they cannot be compared, with the reason in `said`.
fn put_compared<A: Allocator + Copy, W: Write>(
    alloc: A,
    one: &Taken<A>,
    other: &Taken<A>,
    options: CompareOptions,
    w: &mut W,
    said: &mut Vec<u8, A>,
) -> Result<bool, ToolFault> {
    let rms = rms_of(alloc, &one.file, &one.times)?;
    let other_rms = rms_of(alloc, &other.file, &other.times)?;
    let first = Timed {
        file: &one.file,
        times: &one.times,
        rms: &rms,
    };
    let second = Timed {
        file: &other.file,
        times: &other.times,
        rms: &other_rms,
    };
    match compare_over(alloc, first, second, options, w)? {
        None => Ok(true),
        Some(refusal) => {
            put(said, "comtrade: ")?;
            put(said, refusal.text())?;
            put(said, "\n")?;
            Ok(false)
        }
    }
}

/// Draws two records; false if that is refused, which is printed.
fn draw<R: Eprint, A: Allocator + Copy, W: Write>(
    rt: &R,
    lists: A,
    one: &Taken<A>,
    other: &Taken<A>,
    options: CompareOptions,
    w: &mut W,
) -> Result<bool, ToolFault> {
    let mut said = Vec::new(lists);
    let is_drawn = put_compared(lists, one, other, options, w, &mut said)?;
    say(rt, &said);
    Ok(is_drawn)
}

/// Draws two records on standard output, or in the file that is named; false if that is refused or
/// fails, which is printed.
fn draw_out<R: Files + Print + Eprint + AllocGlobal, A: Allocator + Copy>(
    rt: &R,
    lists: A,
    output: Option<&str>,
    one: &Taken<A>,
    other: &Taken<A>,
    options: CompareOptions,
) -> Result<bool, ToolFault> {
    let Some(name) = named_file(output) else {
        return draw(rt, lists, one, other, options, &mut io::writer(rt));
    };
    let mut out = Vec::new(rt.alloc());
    let is_drawn = draw(rt, lists, one, other, options, &mut out)?;
    Ok(is_drawn && write_new(rt, name, &out))
}

/// How both are asked to be drawn.
#[derive(Clone, Copy)]
struct Look {
    alignment: Alignment,
    picture: PlotOptions,
}

/// How two records are drawn, the second one with the names of the first; None if that is refused,
/// with the error in `said`, which also tells what was matched.
fn options_for<A: Allocator + Copy>(
    lists: A,
    asked: Compared<'_>,
    look: Look,
    one: &Taken<A>,
    other: &mut Taken<A>,
    said: &mut Vec<u8, A>,
) -> Result<Option<CompareOptions>, ToolFault> {
    if !match_names(lists, one, other, asked.pairs, said)? {
        return Ok(None);
    }
    let Some(by) = by_of(lists, look.alignment, one, other, said)? else {
        return Ok(None);
    };
    Ok(Some(CompareOptions {
        by,
        moved: look.alignment.moved,
        picture: look.picture,
        is_chosen: asked.part.channels.is_some(),
    }))
}

/// Reads the second record and draws both; false if that is refused, which is printed.
fn draw_beside<R: Files + Input + Print + Eprint + AllocGlobal + Clone + Drop, A: Allocator + Copy>(
    rt: &R,
    lists: A,
    is_watched: bool,
    zone: &mut Option<Zone>,
    asked: Compared<'_>,
    one: &Taken<A>,
    look: Look,
) -> Result<bool, ToolFault> {
    let part = part_beside(asked.part);
    let Some(mut other) = record_of(rt, lists, is_watched, zone, asked.other, part)? else {
        return Ok(false);
    };
    let mut said = Vec::new(lists);
    let options = options_for(lists, asked, look, one, &mut other, &mut said)?;
    say(rt, &said);
    match options {
        Some(options) => draw_out(rt, lists, asked.output, one, &other, options),
        None => Ok(false),
    }
}

/// Reads two records and draws them; false if that is refused, which is printed.
fn draw_both<R: Files + Input + Print + Eprint + AllocGlobal + Clone + Drop, A: Allocator + Copy>(
    rt: &R,
    lists: A,
    is_watched: bool,
    asked: Compared<'_>,
    look: Look,
) -> Result<bool, ToolFault> {
    let mut zone = None;
    match record_of(rt, lists, is_watched, &mut zone, asked.one, asked.part)? {
        Some(one) => draw_beside(rt, lists, is_watched, &mut zone, asked, &one, look),
        None => Ok(false),
    }
}

/// Draws two records. The memory of their lists is released in one step.
fn compare<R: Files + Input + Print + Eprint + AllocGlobal + Clone + Drop>(
    rt: &R,
    is_watched: bool,
    asked: Compared<'_>,
    look: Look,
) -> Result<bool, ToolFault> {
    let lists = Bump::new(rt.alloc());
    draw_both(rt, &lists, is_watched, asked, look)
}

/// Reads two records and prints the picture of both.
pub(crate) fn run_compare<R: Files + Input + Print + Eprint + AllocGlobal + Clone + Drop>(
    rt: &R,
    is_watched: bool,
    asked: Compared<'_>,
) -> u8 {
    let alignment = match alignment_of(asked) {
        Ok(alignment) => alignment,
        Err(usage) => {
            say(rt, usage.as_bytes());
            return 2;
        }
    };
    let Some(picture) = options_of(asked.picture) else {
        say(rt, NO_SIZE.as_bytes());
        return 1;
    };
    match compare(rt, is_watched, asked, Look { alignment, picture }) {
        Ok(true) => 0,
        Ok(false) => 1,
        Err(fault) => complain(rt, "standard output", fault),
    }
}
