//! What `list` and `events` find in records.

use crate::content::{Reading, file_spelled};
use crate::event_file::broken_line;
use crate::load::Inputs;
use crate::opened::{line_on, odd_line, say_repairs};
use crate::say;
use crate::zones::to_zone_of;
use comtrade_diagnostics::Zone;
use comtrade_format::File;
use comtrade_io::{Survey, ToolFault};
use comtrade_values::lines_of;
use comtrade_views::{
    Event, EventLine, Filter, Summary, add_events, event_in_line, fault_summary, summary_of,
};
use std::alloc::Global;

/// What was found so far.
#[derive(Drop)]
pub(crate) struct Found {
    /// For a list those that are meant; each one that cannot be read.
    pub(crate) records: Vec<Summary>,
    pub(crate) events: Vec<Event>,
    pub(crate) names: Vec<String>,
    /// The names of records that were read and aren't meant.
    pub(crate) others: Vec<String>,
    /// Whether each record could be read.
    pub(crate) is_sound: bool,
    /// The time code of the first record that has one.
    zone: Option<Zone>,
}

impl Found {
    /// So far there is nothing.
    pub(crate) fn new(alloc: Global, is_sound: bool) -> Found {
        Found {
            records: Vec::new(alloc),
            events: Vec::new(alloc),
            names: Vec::new(alloc),
            others: Vec::new(alloc),
            is_sound,
            zone: None,
        }
    }
}

/// Adds a record to the list, if it is meant.
fn add_summary(
    alloc: Global,
    filter: &Filter<'_>,
    found: &mut Found,
    file: &File,
    name: &str,
) -> Result<(), ToolFault> {
    let summary = summary_of(alloc, file, name.as_bytes())?;
    if filter.has_record(alloc, &summary)? {
        found.records.push(summary)?;
    } else {
        found.others.push(String::from_str(alloc, name)?)?;
    }
    Ok(())
}

/// Adds the events of a record, if its station is meant.
fn add_changes(
    alloc: Global,
    filter: &Filter<'_>,
    found: &mut Found,
    file: &File,
    name: &str,
) -> Result<(), ToolFault> {
    if filter.has_station(file.head.station.items()) {
        let place = found.names.len();
        found.names.push(String::from_str(alloc, name)?)?;
        add_events(alloc, &mut found.events, file, place)?;
    }
    Ok(())
}

/// Adds a record.
fn add_file(
    alloc: Global,
    asked: Asked<'_>,
    found: &mut Found,
    file: &File,
    name: &str,
) -> Result<(), ToolFault> {
    match asked.survey {
        Survey::List => add_summary(alloc, asked.filter, found, file, name),
        Survey::Events => add_changes(alloc, asked.filter, found, file, name),
    }
}

/// Adds a record that cannot be read; for events, why is printed.
pub(crate) fn add_fault<R: Eprint + AllocGlobal>(
    rt: &R,
    survey: Survey,
    found: &mut Found,
    said: Vec<u8>,
    name: &[u8],
) -> Result<(), ToolFault> {
    if survey == Survey::Events {
        say(rt, &said);
    }
    found.is_sound = false;
    found.records.push(fault_summary(rt.alloc(), said, name)?)?;
    Ok(())
}

/// What is asked of each record, which are meant, and the encoding of their texts.
#[derive(Clone, Copy)]
pub(crate) struct Asked<'a> {
    pub(crate) survey: Survey,
    pub(crate) filter: &'a Filter<'a>,
    pub(crate) encoding: Option<&'a str>,
}

/// Adds one record that was read, and prints what is doubtful about a listed one without an error.
pub(crate) fn add_pair<R: AllocGlobal + Eprint>(
    rt: &R,
    asked: Asked<'_>,
    found: &mut Found,
    inputs: &Inputs,
    name: &str,
) -> Result<(), ToolFault> {
    let alloc = rt.alloc();
    let mut said = Vec::new(alloc);
    let survey = asked.survey;
    let reading = Reading::to_list(asked.encoding, survey == Survey::List);
    match file_spelled(alloc, inputs, reading, &mut said)? {
        Some(mut loaded) => {
            to_zone_of(&mut found.zone, &mut loaded, &mut said)?;
            say_repairs(rt, name, &said)?;
            add_file(alloc, asked, found, &loaded.file, name)?;
        }
        None if inputs.is_single() => {
            let line = line_on(alloc, name.as_bytes(), &said)?;
            add_fault(rt, survey, found, line, name.as_bytes())?;
        }
        None => add_fault(rt, survey, found, said, name.as_bytes())?,
    }
    Ok(())
}

/// Adds the names that are not UTF-8.
pub(crate) fn add_odd<R: Eprint + AllocGlobal>(
    rt: &R,
    survey: Survey,
    found: &mut Found,
    names: &[Vec<u8>],
) -> Result<(), ToolFault> {
    for name in names {
        let line = odd_line(rt.alloc(), name)?;
        add_fault(rt, survey, found, line, name)?;
    }
    Ok(())
}

/// Adds the events of a file of events, and prints which of its lines are broken.
pub(crate) fn add_event_file<R: Eprint + AllocGlobal>(
    rt: &R,
    filter: &Filter<'_>,
    found: &mut Found,
    name: &str,
    bytes: &[u8],
) -> Result<(), ToolFault> {
    let alloc = rt.alloc();
    let place = found.names.len();
    found.names.push(String::from_str(alloc, name)?)?;
    let lines = lines_of(alloc, bytes)?;
    for (number, line) in lines.iter().enumerate().skip(1) {
        if line.is_empty() {
            continue;
        }
        match event_in_line(alloc, filter, line, place)? {
            EventLine::Event(event) => found.events.push(event)?,
            EventLine::Other => {}
            EventLine::Broken => {
                found.is_sound = false;
                say(rt, &broken_line(alloc, name, number)?);
            }
        }
    }
    Ok(())
}
