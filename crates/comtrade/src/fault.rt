//! The faults of many records.

use crate::content::{NO_ENCODING, Reading, encoding_of, file_spelled};
use crate::folder::{Pairs, pairs_of};
use crate::line::line_named;
use crate::load::Inputs;
use crate::opened::{Opened, odd_line, open_record, say_repairs, without_program};
use crate::output::{Findings, has_records, put_findings};
use crate::zones::to_zone_of;
use crate::{complain, say};
use bumpalo::Bump;
use comtrade_diagnostics::Zone;
use comtrade_distance::LineData;
use comtrade_io::{Diagnosed, ToolFault};
use comtrade_views::{Faults, faults_of, put_fault_blocks, put_fault_lines, put_faults_json};
use std::alloc::Global;
use std::rt::Files;

/// How records are read, and the line on which their faults are located, if one is given.
#[derive(Clone, Copy)]
struct Taken<'a> {
    encoding: Option<&'a str>,
    line: Option<&'a LineData>,
}

/// Adds a record whose files were read; false if it has an error. Its lists are released in one step.
fn add_inputs<R: AllocGlobal + Eprint>(
    rt: &R,
    taken: Taken<'_>,
    zone: &mut Option<Zone>,
    faults: &mut Faults,
    inputs: &Inputs,
    name: &str,
) -> Result<bool, ToolFault> {
    let lists = Bump::new(rt.alloc());
    let mut said = Vec::new(&lists);
    match file_spelled(
        &lists,
        inputs,
        Reading::to_list(taken.encoding, false),
        &mut said,
    )? {
        Some(mut loaded) => {
            to_zone_of(zone, &mut loaded, &mut said)?;
            say_repairs(rt, name, &said)?;
            let alloc = rt.alloc();
            let name = name.as_bytes();
            faults.add(faults_of(alloc, &lists, &loaded.file, name, taken.line)?)?;
            Ok(true)
        }
        None => {
            say(rt, &said);
            faults.add_unread(rt.alloc(), name.as_bytes(), &said)?;
            Ok(false)
        }
    }
}

/// Adds the records, one after the other. Whether the files of one could be read.
fn add_pairs<R: Files + Input + Eprint + AllocGlobal + Clone + Drop>(
    rt: &R,
    taken: Taken<'_>,
    faults: &mut Faults,
    pairs: &[String],
) -> Result<bool, ToolFault> {
    let mut zone = None;
    let mut has_read = false;
    for pair in pairs {
        let name = pair.as_str();
        match open_record(rt, name, false)? {
            Opened::Inputs(inputs) => {
                if add_inputs(rt, taken, &mut zone, faults, &inputs, name)? {
                    has_read = true;
                }
            }
            Opened::Unread(said) => {
                say(rt, &said);
                faults.add_unread(rt.alloc(), name.as_bytes(), without_program(&said))?;
            }
        }
    }
    Ok(has_read)
}

/// Adds the names that are not UTF-8.
fn add_odd<R: Eprint + AllocGlobal>(
    rt: &R,
    faults: &mut Faults,
    names: &[Vec<u8>],
) -> Result<(), ToolFault> {
    for name in names {
        let line = odd_line(rt.alloc(), name)?;
        say(rt, &line);
        faults.add_unread(rt.alloc(), name, &line)?;
    }
    Ok(())
}

/// The faults of records as text: lines, blocks or JSON.
fn text_of(alloc: Global, asked: &Diagnosed<'_>, faults: &Faults) -> Result<Vec<u8>, ToolFault> {
    let mut out = Vec::new(alloc);
    if asked.json {
        put_faults_json(alloc, &mut out, faults)?;
    } else if asked.long {
        put_fault_blocks(alloc, &mut out, faults)?;
    } else {
        put_fault_lines(alloc, &mut out, faults)?;
    }
    Ok(out)
}

/// The faults of these records.
fn diagnosed<R: Files + Input + Eprint + AllocGlobal + Clone + Drop>(
    rt: &R,
    asked: &Diagnosed<'_>,
    line: Option<&LineData>,
    pairs: &Pairs,
) -> Result<Findings, ToolFault> {
    let mut faults = Faults::new(rt.alloc());
    add_odd(rt, &mut faults, &pairs.odd)?;
    let encoding = asked.encoding;
    let taken = Taken { encoding, line };
    let has_read = add_pairs(rt, taken, &mut faults, &pairs.names)?;
    faults.sort()?;
    Ok(Findings {
        text: text_of(rt.alloc(), asked, &faults)?,
        is_sound: faults.is_sound() && has_records(pairs),
        has_read,
    })
}

/// The line that is named, if one is; `Err` if its file tells none, and why is printed.
fn line_asked<R: Files + Input + Eprint + AllocGlobal>(
    rt: &R,
    asked: &Diagnosed<'_>,
) -> Result<Option<LineData>, ()> {
    match asked.line {
        Some(name) => match line_named(rt, name) {
            Some(line) => Ok(Some(line)),
            None => Err(()),
        },
        None => Ok(None),
    }
}

/// Prints the faults of the named records. The status is 1 if one cannot be read.
pub(crate) fn run_fault<R: Files + Input + Print + Eprint + AllocGlobal + Clone + Drop>(
    rt: &R,
    asked: &Diagnosed<'_>,
) -> u8 {
    if encoding_of(asked.encoding).is_none() {
        say(rt, NO_ENCODING.as_bytes());
        return 1;
    }
    let Ok(line) = line_asked(rt, asked) else {
        return 1;
    };
    let Ok(pairs) = pairs_of(rt, &asked.names, asked.recursive) else {
        return 1;
    };
    match diagnosed(rt, asked, line.as_ref(), &pairs) {
        Ok(findings) => put_findings(rt, asked.output, &findings),
        Err(fault) => complain(rt, "records", fault),
    }
}
