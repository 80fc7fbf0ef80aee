//! `comtrade detect`: when the detectors of a station's set-up fire on a record.

use crate::content::{Reading, file_spelled};
use crate::detect_json::members_of;
use crate::load::{Inputs, read_record};
use crate::output::put_out;
use crate::part::{Taken, taken_of};
use crate::{complain, note_size, read_named, say};
use bumpalo::Bump;
use comtrade_format::{File, Head};
use comtrade_io::{ToolFault, Viewed, put_safe};
use comtrade_values::{
    Memory, copies_of, has_date, put, put_civil, put_number, put_with, whole_of,
};
use comtrade_views::put_json;
use dfr_channels::Setup;
use dfr_setup::{DetectorRefusal, Plan, Planned, detectors_over};
use std::alloc::{AllocError, Allocator, Global};
use std::rt::Files;

/// A row by its place in the list and by its number, from 1.
#[derive(Clone, Copy)]
pub(crate) struct Place {
    pub(crate) row: usize,
    pub(crate) number: u64,
}

/// A detector's bit becomes 1 at a row, from 0, and stays 1 for so many.
#[derive(Clone, Copy)]
pub(crate) struct Firing {
    pub(crate) detector: usize,
    pub(crate) first: Place,
    pub(crate) rows: usize,
}

/// The bit of a detector was 1 from a row to the one before `end`.
fn fired(detector: usize, first: Place, end: usize) -> Firing {
    Firing {
        detector,
        first,
        rows: end.abs_diff(first.row),
    }
}

/// What detectors did on the rows so far.
#[derive(Drop)]
struct Watched<A: Allocator> {
    firings: Vec<Firing, A>,
    /// For each detector whose bit is 1: since which row.
    since: Vec<Option<Place>, A>,
}

impl<A: Allocator> Watched<A> {
    /// Of so many detectors, on no row.
    fn new(alloc: A, detectors: usize) -> Result<Watched<A>, AllocError>
    where
        A: Copy,
    {
        let mut since = Vec::new(alloc);
        for _ in 0..detectors {
            since.push(None)?;
        }
        Ok(Watched {
            firings: Vec::new(alloc),
            since,
        })
    }

    /// Takes in the bits of a row.
    fn take_in(&mut self, place: Place, bits: &[bool]) -> Result<(), AllocError> {
        for (detector, since) in self.since.iter_mut().enumerate() {
            let bit = bits.get(detector).copied() == Some(true);
            match *since {
                None if bit => *since = Some(place),
                Some(first) if !bit => {
                    *since = None;
                    self.firings.push(fired(detector, first, place.row))?;
                }
                _ => {}
            }
        }
        Ok(())
    }

    /// Ends the firings that last to the end of so many rows.
    fn end(&mut self, rows: usize) -> Result<(), AllocError> {
        for (detector, since) in self.since.iter_mut().enumerate() {
            if let Some(first) = *since {
                *since = None;
                self.firings.push(fired(detector, first, rows))?;
            }
        }
        Ok(())
    }
}

/// The rate of a record that has one, in whole scans a second.
fn rate_of<A: Allocator>(head: &Head<A>) -> Option<u32> {
    match head.rates.items() {
        [rate] => u32::try_from(whole_of(rate.samp)?).ok(),
        _ => None,
    }
}

/// The record's channels as a station's, at this rate.
fn setup_of<A: Allocator + Copy>(alloc: A, head: &Head<A>, rate: u32) -> Result<Setup<A>, Memory> {
    Ok(Setup {
        station: head.station.try_clone()?,
        device: head.device.try_clone()?,
        analog: copies_of(alloc, head.analog.items())?,
        status: copies_of(alloc, head.status.items())?,
        line_freq: head.line_freq,
        rate,
        start: head.first,
    })
}

/// When the detectors fire on the rows.
fn watched_over<A: Allocator + Copy>(
    alloc: A,
    planned: &mut Planned<A>,
    file: &File<A>,
) -> Result<Vec<Firing, A>, AllocError> {
    let mut watched = Watched::new(alloc, planned.plans.len())?;
    let mut bits = Vec::new(alloc);
    for (row, scan) in file.rows.items().iter().enumerate() {
        bits.clear();
        if planned
            .detectors
            .step(scan.values.items(), &mut bits)
            .is_err()
        {
            return Err(AllocError);
        }
        let number = row as u64 + 1;
        watched.take_in(Place { row, number }, &bits)?;
    }
    watched.end(file.rows.items().len())?;
    Ok(watched.firings)
}

/// Puts the instant of a row, or `-` where it isn't known or has no date.
pub(crate) fn put_row_instant<A: Allocator>(
    out: &mut Vec<u8>,
    taken: &Taken<A>,
    row: usize,
    between: u8,
) -> Result<(), AllocError> {
    if let Some(Some(nanos)) = taken.times.get(row)
        && let Some(micros) = taken.file.head.trigger.checked_add(nanos.div_euclid(1000))
        && has_date(micros)
    {
        put_civil(out, micros, between)
    } else {
        put(out, "-")
    }
}

/// Puts the lines of a detector.
fn put_lines<A: Allocator>(
    out: &mut Vec<u8>,
    taken: &Taken<A>,
    name: &[u8],
    firings: &[Firing],
    detector: usize,
) -> Result<(), AllocError> {
    let mut is_any = false;
    for firing in firings {
        if firing.detector != detector {
            continue;
        }
        is_any = true;
        put_safe(out, name)?;
        put(out, " ")?;
        put_row_instant(out, taken, firing.first.row, b' ')?;
        put_with(out, " row ", firing.first.number)?;
        put_with(out, " scan ", firing.first.row as u64)?;
        put_with(out, " for ", firing.rows as u64)?;
        put(out, "\n")?;
    }
    if !is_any {
        put_safe(out, name)?;
        put(out, " never\n")?;
    }
    Ok(())
}

/// Puts what all detectors did.
fn put_all<A: Allocator>(
    alloc: Global,
    out: &mut Vec<u8>,
    taken: &Taken<A>,
    plans: &[Plan<A>],
    firings: &[Firing],
    json: bool,
) -> Result<(), AllocError> {
    if json {
        return put_json(alloc, out, &members_of(alloc, taken, plans, firings)?);
    }
    for (place, plan) in plans.iter().enumerate() {
        put_lines(out, taken, plan.name.items(), firings, place)?;
    }
    Ok(())
}

/// Puts why a line is refused.
fn put_refused(
    alloc: Global,
    said: &mut Vec<u8>,
    lines: &str,
    line: u64,
    refusal: DetectorRefusal,
) -> Result<(), ToolFault> {
    let DetectorRefusal::Fault(fault) = refusal else {
        return Err(ToolFault::Memory);
    };
    let text = format!(in alloc; "{fault}")?;
    put(said, "comtrade: ")?;
    put_safe(said, lines.as_bytes())?;
    put(said, ": line ")?;
    put_number(said, line)?;
    put(said, ": ")?;
    put(said, text.as_str())?;
    put(said, "\n")?;
    Ok(())
}

/// Puts what the detectors of the text did on a record to `out`; false if that is refused, with the
/// reason in `said`.
fn detect_over<A: Allocator + Copy>(
    alloc: Global,
    lists: A,
    json: bool,
    (lines, text): (&str, &[u8]),
    taken: &Taken<A>,
    (out, said): (&mut Vec<u8>, &mut Vec<u8>),
) -> Result<bool, ToolFault> {
    let Some(rate) = rate_of(&taken.file.head) else {
        put(
            said,
            "comtrade: detectors need a record with one rate, a whole number\n",
        )?;
        return Ok(false);
    };
    let setup = setup_of(lists, &taken.file.head, rate)?;
    match detectors_over(lists, &setup, text) {
        Ok(mut planned) => {
            let firings = watched_over(lists, &mut planned, &taken.file)?;
            put_all(alloc, out, taken, &planned.plans, &firings, json)?;
            Ok(true)
        }
        Err((line, refusal)) => {
            put_refused(alloc, said, lines, line, refusal)?;
            Ok(false)
        }
    }
}

/// The record, with the times of its rows; None if it can't be read, which is printed.
fn record_of<R: Eprint + AllocGlobal, A: Allocator + Copy>(
    rt: &R,
    lists: A,
    viewed: Viewed<'_>,
    inputs: &Inputs,
) -> Result<Option<Taken<A>>, ToolFault> {
    let mut said = Vec::new(lists);
    let loaded = file_spelled(
        lists,
        inputs,
        Reading::to_show(viewed.part, false),
        &mut said,
    )?;
    say(rt, &said);
    match loaded {
        Some(loaded) => taken_of(lists, loaded.file, viewed.part, &mut said),
        None => Ok(None),
    }
}

/// Runs the detectors over the record; false if that is refused, which is printed.
fn detect<R: Files + Print + Eprint + AllocGlobal>(
    rt: &R,
    viewed: Viewed<'_>,
    detectors: (&str, &[u8]),
    inputs: &Inputs,
) -> Result<bool, ToolFault> {
    let lists = Bump::new(rt.alloc());
    let Some(taken) = record_of(rt, &lists, viewed, inputs)? else {
        return Ok(false);
    };
    let (mut out, mut said) = (Vec::new(rt.alloc()), Vec::new(rt.alloc()));
    let places = (&mut out, &mut said);
    let is_done = detect_over(rt.alloc(), &lists, viewed.json, detectors, &taken, places)?;
    say(rt, &said);
    Ok(is_done && put_out(rt, viewed.output, &out) == 0)
}

/// Runs the detectors of a file over a record, and prints when each fires.
pub(crate) fn run_detect<R: Files + Input + Print + Eprint + AllocGlobal + Clone + Drop>(
    rt: &R,
    is_watched: bool,
    viewed: Viewed<'_>,
) -> u8 {
    let Some(lines) = viewed.lines else {
        say(
            rt,
            b"comtrade: no file with the lines of detectors is named\n",
        );
        return 2;
    };
    let text = match read_named(rt, lines) {
        Ok(text) => text,
        Err(fault) => return complain(rt, lines, fault),
    };
    let Some(inputs) = read_record(rt, viewed.names, viewed.part.strict) else {
        return 1;
    };
    note_size(rt, is_watched, &inputs);
    match detect(rt, viewed, (lines, &text), &inputs) {
        Ok(true) => 0,
        Ok(false) => 1,
        Err(fault) => complain(rt, "standard output", fault),
    }
}
