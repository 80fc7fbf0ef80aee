//! The commands over many records.

use crate::content::{NO_ENCODING, encoding_of};
use crate::event_file::{Named, event_file_named};
use crate::folder::{Pairs, pairs_of};
use crate::found::{Asked, Found, add_event_file, add_fault, add_odd, add_pair};
use crate::opened::{Opened, line_on, open_record};
use crate::output::{Findings, has_records, put_findings};
use crate::{complain, say};
use comtrade_io::{Survey, Surveyed, ToolFault};
use comtrade_values::put;
use comtrade_views::{
    Filter, chosen_events, put_events, put_events_csv, put_events_json, put_summaries,
    put_summaries_json, sort_events, sort_summaries,
};
use std::alloc::Global;
use std::mem;
use std::rt::Files;

/// Reads the records, one after the other.
fn add_pairs<R: Files + Input + Eprint + AllocGlobal + Clone + Drop>(
    rt: &R,
    asked: Asked<'_>,
    found: &mut Found,
    pairs: &[String],
) -> Result<(), ToolFault> {
    for pair in pairs {
        if asked.survey == Survey::Events {
            match event_file_named(rt, pair.as_str())? {
                Named::Events(bytes) => {
                    add_event_file(rt, asked.filter, found, pair.as_str(), &bytes)?;
                    continue;
                }
                Named::Unusable => {
                    found.is_sound = false;
                    continue;
                }
                Named::Other => {}
            }
        }
        let name = pair.as_str();
        match open_record(rt, name, false)? {
            Opened::Inputs(inputs) => add_pair(rt, asked, found, &inputs, name)?,
            Opened::Unread(said) => {
                let line = line_on(rt.alloc(), name.as_bytes(), &said)?;
                add_fault(rt, asked.survey, found, line, name.as_bytes())?;
            }
        }
    }
    Ok(())
}

/// The list of records, in its order, or the same as JSON.
fn list_text(alloc: Global, json: bool, found: &mut Found) -> Result<Vec<u8>, ToolFault> {
    sort_summaries(&mut found.records)?;
    let mut out = Vec::new(alloc);
    if json {
        put_summaries_json(alloc, &mut out, &found.records)?;
    } else if !found.records.is_empty() || !found.others.is_empty() {
        let others = found.others.len() as u64;
        put_summaries(alloc, &mut out, &found.records, others)?;
    }
    Ok(out)
}

/// The events in their order: as a table, as JSON, or as comma-separated values.
fn events_text(alloc: Global, asked: &Surveyed<'_>, found: &Found) -> Result<Vec<u8>, ToolFault> {
    let mut out = Vec::new(alloc);
    let (events, names) = (&found.events, &found.names);
    if asked.csv {
        put_events_csv(alloc, &mut out, events, names)?;
    } else if asked.json {
        put_events_json(alloc, &mut out, events, names, &found.records)?;
    } else if !names.is_empty() {
        put_events(alloc, &mut out, events, names)?;
    }
    Ok(out)
}

/// Leaves the events that are meant, in their order.
fn choose_events(alloc: Global, filter: &Filter<'_>, found: &mut Found) -> Result<(), ToolFault> {
    let events = mem::replace(&mut found.events, Vec::new(alloc));
    found.events = chosen_events(alloc, filter, events)?;
    sort_events(&mut found.events)
}

/// The text of what was found.
fn text_of(
    alloc: Global,
    survey: Survey,
    filter: &Filter<'_>,
    asked: &Surveyed<'_>,
    found: &mut Found,
) -> Result<Vec<u8>, ToolFault> {
    match survey {
        Survey::List => list_text(alloc, asked.json, found),
        Survey::Events => {
            choose_events(alloc, filter, found)?;
            events_text(alloc, asked, found)
        }
    }
}

/// What is in the records that are meant, as text; whether each could be read, and whether there is
/// something to be written.
fn survey_pairs<R: Files + Input + Eprint + AllocGlobal + Clone + Drop>(
    rt: &R,
    survey: Survey,
    filter: &Filter<'_>,
    asked: &Surveyed<'_>,
    pairs: &Pairs,
) -> Result<Findings, ToolFault> {
    let alloc = rt.alloc();
    let mut found = Found::new(alloc, has_records(pairs));
    let each = Asked {
        survey,
        filter,
        encoding: asked.encoding,
    };
    add_odd(rt, survey, &mut found, &pairs.odd)?;
    add_pairs(rt, each, &mut found, &pairs.names)?;
    let mut text = text_of(alloc, survey, filter, asked, &mut found)?;
    if pairs.is_empty() && !asked.json && !asked.csv {
        put(&mut text, "0 pairs\n")?;
    }
    Ok(Findings {
        text,
        is_sound: found.is_sound,
        has_read: survey == Survey::List || !found.names.is_empty(),
    })
}

/// Prints what is in the records that are meant.
fn put_survey<R: Files + Input + Print + Eprint + AllocGlobal + Clone + Drop>(
    rt: &R,
    survey: Survey,
    filter: &Filter<'_>,
    asked: &Surveyed<'_>,
) -> u8 {
    let Ok(pairs) = pairs_of(rt, &asked.names, asked.recursive) else {
        return 1;
    };
    match survey_pairs(rt, survey, filter, asked, &pairs) {
        Ok(findings) => put_findings(rt, asked.output, &findings),
        Err(fault) => complain(rt, "records", fault),
    }
}

/// Prints what is in the named records. The status is 1 if one cannot be read.
pub(crate) fn run_survey<R: Files + Input + Print + Eprint + AllocGlobal + Clone + Drop>(
    rt: &R,
    survey: Survey,
    asked: &Surveyed<'_>,
) -> u8 {
    if encoding_of(asked.encoding).is_none() {
        say(rt, NO_ENCODING.as_bytes());
        return 1;
    }
    if asked.csv && asked.json {
        let _ = eprintln!(rt; "error: --csv cannot be combined with --json");
        return 2;
    }
    match Filter::of(asked) {
        Ok(filter) => put_survey(rt, survey, &filter, asked),
        Err(fault) => {
            let _ = eprintln!(rt; "comtrade: {fault}");
            1
        }
    }
}
