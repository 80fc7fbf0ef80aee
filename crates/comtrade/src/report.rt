//! `comtrade report`: one file on many records, to be sent and printed.

use crate::around::rms_of;
use crate::content::{Loaded, NO_ENCODING, Reading, encoding_of, file_spelled};
use crate::folder::{Pairs, pairs_of};
use crate::load::Inputs;
use crate::opened::{Opened, line_on, odd_line, open_record};
use crate::output::{Findings, has_records, put_findings};
use crate::report_text::{BEGIN, COLUMNS, END, FRAME, STYLE};
use crate::zones::to_zone_of;
use crate::{complain, say};
use comtrade_diagnostics::Zone;
use comtrade_format::File;
use comtrade_io::{Reported, ToolFault, VERSION, put_safe};
use comtrade_plot::{PlotOptions, Rms, Timed, page_over, plot_over};
use comtrade_values::{lines_of, put, put_count, without_blank_end};
use comtrade_views::{
    Event, Faults, Summary, add_events, fault_summary, faults_of, put_events_html, put_faults_html,
    put_html, put_summaries_html, sort_events, sort_summaries, summary_of, times_since_trigger,
};
use std::alloc::{AllocError, Global};
use std::rt::Files;

/// What was found in the records.
#[derive(Drop)]
struct Found {
    records: Vec<Summary>,
    events: Vec<Event>,
    names: Vec<String>,
    faults: Faults,
    /// Rows of a table in HTML: what was repaired, and what is doubtful.
    notes: Vec<u8>,
    /// The pictures and pages of the records in HTML.
    pictures: Vec<u8>,
    /// The time code of the first record that has one.
    zone: Option<Zone>,
}

impl Found {
    fn new(alloc: Global) -> Found {
        Found {
            records: Vec::new(alloc),
            events: Vec::new(alloc),
            names: Vec::new(alloc),
            faults: Faults::new(alloc),
            notes: Vec::new(alloc),
            pictures: Vec::new(alloc),
            zone: None,
        }
    }
}

/// A text from a file in HTML, as printable characters.
fn put_text(alloc: Global, out: &mut Vec<u8>, text: &[u8]) -> Result<(), AllocError> {
    let mut safe = Vec::new(alloc);
    put_safe(&mut safe, text)?;
    put_html(out, &safe)
}

/// Adds what was repaired in a record or is doubtful about it: a row for each line.
fn add_notes(alloc: Global, found: &mut Found, name: &str, said: &[u8]) -> Result<(), AllocError> {
    let lines = lines_of(alloc, said)?;
    for line in without_blank_end(&lines) {
        put(&mut found.notes, "<tr><td>")?;
        put_text(alloc, &mut found.notes, name.as_bytes())?;
        put(&mut found.notes, "</td><td>")?;
        put_text(alloc, &mut found.notes, line)?;
        put(&mut found.notes, "</td></tr>\n")?;
    }
    Ok(())
}

/// Adds the picture and the page of a record.
fn add_pictures(
    alloc: Global,
    found: &mut Found,
    file: &File,
    name: &str,
) -> Result<(), ToolFault> {
    let times = times_since_trigger(alloc, file)?;
    let rms = rms_of(alloc, file, &times)?;
    let timed = Timed {
        file,
        times: &times,
        rms: &rms,
    };
    put(&mut found.pictures, "<section><h3>")?;
    put_text(alloc, &mut found.pictures, name.as_bytes())?;
    put(&mut found.pictures, "</h3>\n")?;
    let options = PlotOptions {
        is_whole: false,
        shows_all: false,
        is_for_print: false,
        width: None,
        height: None,
    };
    plot_over(alloc, timed, options, &mut found.pictures)?;
    put(&mut found.pictures, FRAME)?;
    put_text(alloc, &mut found.pictures, name.as_bytes())?;
    put(&mut found.pictures, "\" srcdoc=\"")?;
    let mut page = Vec::new(alloc);
    let rms: &[Rms] = &[];
    page_over(alloc, Timed { rms, ..timed }, &mut page)?;
    put_html(&mut found.pictures, &page)?;
    put(&mut found.pictures, "\"></iframe></details></section>\n")?;
    Ok(())
}

/// Adds a record that was read.
fn add_file(
    alloc: Global,
    found: &mut Found,
    loaded: &Loaded<Global>,
    name: &str,
) -> Result<(), ToolFault> {
    let file = &loaded.file;
    found
        .records
        .push(summary_of(alloc, file, name.as_bytes())?)?;
    let place = found.names.len();
    found.names.push(String::from_str(alloc, name)?)?;
    add_events(alloc, &mut found.events, file, place)?;
    found
        .faults
        .add(faults_of(alloc, alloc, file, name.as_bytes(), None)?)?;
    add_pictures(alloc, found, file, name)
}

/// Adds a record that cannot be read, with the lines that say why.
fn add_unread(
    alloc: Global,
    found: &mut Found,
    name: &[u8],
    said: Vec<u8>,
) -> Result<(), ToolFault> {
    found.faults.add_unread(alloc, name, &said)?;
    found.records.push(fault_summary(alloc, said, name)?)?;
    Ok(())
}

/// Adds a record whose files were read.
fn add_inputs<R: AllocGlobal + Eprint>(
    rt: &R,
    encoding: Option<&str>,
    found: &mut Found,
    inputs: &Inputs,
    name: &str,
) -> Result<(), ToolFault> {
    let alloc = rt.alloc();
    let mut said = Vec::new(alloc);
    match file_spelled(alloc, inputs, Reading::to_list(encoding, true), &mut said)? {
        Some(mut loaded) => {
            to_zone_of(&mut found.zone, &mut loaded, &mut said)?;
            add_notes(alloc, found, name, &said)?;
            add_file(alloc, found, &loaded, name)
        }
        None => {
            say(rt, &said);
            add_unread(alloc, found, name.as_bytes(), said)
        }
    }
}

/// Adds the records, one after the other.
fn add_pairs<R: Files + Input + Eprint + AllocGlobal + Clone + Drop>(
    rt: &R,
    encoding: Option<&str>,
    found: &mut Found,
    pairs: &Pairs,
) -> Result<(), ToolFault> {
    let alloc = rt.alloc();
    for pair in &pairs.names {
        let name = pair.as_str();
        match open_record(rt, name, false)? {
            Opened::Inputs(inputs) => add_inputs(rt, encoding, found, &inputs, name)?,
            Opened::Unread(said) => {
                say(rt, &said);
                let line = line_on(alloc, name.as_bytes(), &said)?;
                add_unread(alloc, found, name.as_bytes(), line)?;
            }
        }
    }
    for name in &pairs.odd {
        let line = odd_line(alloc, name)?;
        say(rt, &line);
        add_unread(alloc, found, name, line)?;
    }
    Ok(())
}

/// The head of the report: its title, and how many records it is on.
fn put_head(out: &mut Vec<u8>, found: &Found) -> Result<(), AllocError> {
    put(out, BEGIN)?;
    put(out, STYLE)?;
    put(out, "</style></head><body>\n<h1>Report on ")?;
    let count = found.records.len() as u64;
    put_count(out, count, " disturbance record", " disturbance records")?;
    put(out, "</h1>\n<p>Made by comtrade ")?;
    put(out, VERSION)?;
    put(out, ".</p>\n")
}

/// What was repaired, and what is doubtful.
fn put_notes(out: &mut Vec<u8>, found: &Found) -> Result<(), AllocError> {
    put(out, "<h2>What was repaired, and what is unusual</h2>\n")?;
    if found.notes.is_empty() {
        return put(
            out,
            "<p>Nothing was repaired, and no record is unusual.</p>\n",
        );
    }
    put(out, COLUMNS)?;
    out.extend_from_slice(&found.notes)?;
    put(out, "</tbody></table>\n")
}

/// The report on what was found.
fn text_of(alloc: Global, found: &Found) -> Result<Vec<u8>, ToolFault> {
    let mut out = Vec::new(alloc);
    put_head(&mut out, found)?;
    put(&mut out, "<h2>Faults</h2>\n")?;
    put_faults_html(alloc, &mut out, &found.faults)?;
    put(&mut out, "<h2>Records</h2>\n")?;
    put_summaries_html(alloc, &mut out, &found.records)?;
    put_notes(&mut out, found)?;
    put(&mut out, "<h2>Sequence of events</h2>\n")?;
    put_events_html(alloc, &mut out, &found.events, &found.names)?;
    put(&mut out, "<h2>Pictures</h2>\n")?;
    out.extend_from_slice(&found.pictures)?;
    put(&mut out, END)?;
    Ok(out)
}

/// The report on these records.
fn report_of<R: Files + Input + Eprint + AllocGlobal + Clone + Drop>(
    rt: &R,
    asked: &Reported<'_>,
    pairs: &Pairs,
) -> Result<Findings, ToolFault> {
    let mut found = Found::new(rt.alloc());
    add_pairs(rt, asked.encoding, &mut found, pairs)?;
    sort_summaries(&mut found.records)?;
    sort_events(&mut found.events)?;
    found.faults.sort()?;
    Ok(Findings {
        text: text_of(rt.alloc(), &found)?,
        is_sound: found.faults.is_sound() && has_records(pairs),
        has_read: !found.names.is_empty(),
    })
}

/// Prints the report on the named records. The status is 1 if one cannot be read.
pub(crate) fn run_report<R: Files + Input + Print + Eprint + AllocGlobal + Clone + Drop>(
    rt: &R,
    asked: &Reported<'_>,
) -> u8 {
    if encoding_of(asked.encoding).is_none() {
        say(rt, NO_ENCODING.as_bytes());
        return 1;
    }
    let Ok(pairs) = pairs_of(rt, &asked.names, asked.recursive) else {
        return 1;
    };
    match report_of(rt, asked, &pairs) {
        Ok(findings) => put_findings(rt, asked.output, &findings),
        Err(fault) => complain(rt, "records", fault),
    }
}
