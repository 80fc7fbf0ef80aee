//! What the command line asks for.

use crate::amounts::{count_of, events_of, kept_of};
use crate::options::dfrd;
use crate::output::How;
use clap::error::ErrorKind;
use clap::{ArgMatches, Error};
use comtrade_write::Kind;
use dfr_station::{Input, Lowest};
use std::alloc::{AllocError, Global};

/// The most lost scans for a gap in the input, if nothing is said.
const GAP: u32 = 1_000_000;

/// A recording, or a check, as the command line asks for it.
#[derive(Clone, Copy, Debug)]
pub struct Asked<'a> {
    /// The path of the set-up file.
    pub setup: &'a str,
    /// The path of the folder of records.
    pub folder: &'a str,
    /// The kind of the data files.
    pub kind: Kind,
    /// The form in which scans come.
    pub input: Input,
    /// The input is a capture of the process bus.
    pub is_capture: bool,
    /// The instant of scan 0 in microseconds since 1970-01-01 00:00:00 UTC. None if it is read from
    /// the clock when the first scan comes.
    pub start: Option<i64>,
    /// Whether the input waits. None: if it is a file.
    pub waits: Option<bool>,
    /// Whether records have the dates of the clock, or the instants of scan 0 and the rate. None: if
    /// the instant of scan 0 isn't given and the input doesn't wait.
    pub dated: Option<bool>,
    /// The most lost scans for a gap in the input.
    pub gap: u32,
    /// The path of an operator's FIFO or file.
    pub orders: Option<&'a str>,
    /// The path of the file of the recording's health.
    pub health: Option<&'a str>,
    /// The path of the file of events.
    pub events: Option<&'a str>,
    /// The most changes of a contact in a second that it gets.
    pub chatter: usize,
    /// The most records to keep. None if there is no such limit.
    pub pairs: Option<u64>,
    /// The most bytes of records to keep. None if there is no such limit.
    pub bytes: Option<u64>,
    /// The most records to write for each hour. None if there is no such limit.
    pub most: Option<u64>,
    /// Write a header file next to each pair.
    pub has_headers: bool,
    /// Only check the set-up and the folder.
    pub is_check: bool,
    /// Do not print a line each minute.
    pub is_quiet: bool,
    /// Begin each line with its syslog level.
    pub is_journal: bool,
}

impl Asked<'_> {
    /// Whether the station is to make a line each minute. The counts in it are part of the health,
    /// also where it isn't printed.
    pub(crate) fn has_minutes(&self) -> bool {
        !self.is_quiet || self.health.is_some()
    }

    /// Whether records have the dates of the clock, for an input that waits or doesn't.
    pub(crate) fn has_dates(&self, waits: bool) -> bool {
        match self.dated {
            Some(dated) => dated,
            // a capture tells its times, also where it waits
            None => self.start.is_none() && (self.is_capture || !waits),
        }
    }

    /// How lines are printed.
    pub(crate) fn how(&self) -> How {
        How {
            is_quiet: self.is_quiet,
            is_journal: self.is_journal,
        }
    }
}

/// The answer to a command line.
#[derive(Debug, Drop)]
pub enum Answer<'a> {
    /// Record, or check.
    Do(Asked<'a>),
    /// Print what the capture on standard input has.
    Look,
    /// Print this text: the help or the version.
    Print(String),
    /// Report this usage error.
    Refuse(String),
}

/// The start given with `--start`, or None for `now`. An error if it is neither `now` nor a number
/// of at least 0.
fn start_of(found: &ArgMatches<'_>) -> Result<Option<i64>, ()> {
    match found.get_str("start") {
        None | Some("now") => Ok(None),
        Some(text) => match text.parse::<i64>() {
            Ok(start) if start >= 0 => Ok(Some(start)),
            _ => Err(()),
        },
    }
}

/// Whether the clock dates the records, if that is said. An input that waits can't be dated by it: the
/// error is the text of a usage error.
fn dated_of(found: &ArgMatches<'_>, waits: Option<bool>) -> Result<Option<bool>, &'static str> {
    match (found.get_str("time"), waits) {
        (Some("clock"), Some(true)) => Err("error: --wait cannot be combined with --time clock\n"),
        (Some("clock"), _) => Ok(Some(true)),
        (Some(_), _) => Ok(Some(false)),
        (None, _) => Ok(None),
    }
}

/// The number given with `--gap`, a million without it. An error if it isn't a number.
fn gap_of(found: &ArgMatches<'_>) -> Result<u32, ()> {
    match found.get_str("gap") {
        None => Ok(GAP),
        Some(text) => text.parse::<u32>().map_err(|_| ()),
    }
}

/// The kind of the data files, ASCII if it isn't given.
fn kind_of(found: &ArgMatches<'_>) -> Kind {
    match found.get_str("kind") {
        Some("binary") => Kind::Binary,
        _ => Kind::Ascii,
    }
}

/// The form of the input: frames with `--raw` or `--frames`, else lines. The error is the text of a
/// usage error.
fn input_of(found: &ArgMatches<'_>) -> Result<Input, &'static str> {
    let lowest = if found.get_flag("clip") {
        Lowest::Clipped
    } else {
        Lowest::Missing
    };
    match (found.get_flag("raw"), found.get_str("frames")) {
        (true, Some(_)) => Err("error: --raw cannot be combined with --frames\n"),
        (true, None) | (false, Some("raw")) => Ok(Input::Frames(lowest)),
        (false, Some(_)) => Ok(Input::Counted(lowest)),
        (false, None) if found.get_flag("clip") => Err("error: --clip needs --raw or --frames\n"),
        (false, None) => Ok(Input::Lines),
    }
}

/// Whether the input waits, if that is said. The error is the text of a usage error.
fn waits_of(found: &ArgMatches<'_>) -> Result<Option<bool>, &'static str> {
    match (found.get_flag("wait"), found.get_flag("no-wait")) {
        (true, true) => Err("error: --wait cannot be combined with --no-wait\n"),
        (true, false) => Ok(Some(true)),
        (false, true) => Ok(Some(false)),
        (false, false) => Ok(None),
    }
}

/// What the parsed command line asks for, or the text of a usage error.
fn asked_of<'a>(found: &ArgMatches<'a>) -> Result<Asked<'a>, &'static str> {
    if found.get_flag("look") {
        return Err("error: --look goes with --pcap, without SETUP, DIR and other options\n");
    }
    let Ok(start) = start_of(found) else {
        return Err("error: --start expects now or microseconds since 1970-01-01 00:00:00 UTC\n");
    };
    let Ok(gap) = gap_of(found) else {
        return Err("error: --gap expects a number of scans, at most 4294967295\n");
    };
    let input = input_of(found)?;
    let is_capture = found.get_flag("pcap");
    if is_capture && !matches!(input, Input::Lines) {
        return Err("error: --pcap cannot be combined with --raw or --frames\n");
    }
    let waits = waits_of(found)?;
    let dated = dated_of(found, waits)?;
    let (pairs, bytes) = kept_of(found)?;
    let Ok(most) = count_of(found, "most") else {
        return Err("error: --most expects a number of records, 1 or more\n");
    };
    let (events, chatter) = events_of(found)?;
    let (Some(setup), Some(folder)) = (found.get_str("SETUP"), found.get_str("DIR")) else {
        return Err("error: SETUP and DIR are required\n");
    };
    Ok(Asked {
        setup,
        folder,
        kind: kind_of(found),
        input,
        is_capture,
        start,
        waits,
        dated,
        gap,
        orders: found.get_str("orders"),
        health: found.get_str("health"),
        events,
        chatter,
        pairs,
        bytes,
        most,
        has_headers: found.get_flag("hdr"),
        is_check: found.get_flag("check"),
        is_quiet: found.get_flag("quiet"),
        is_journal: found.get_flag("journal"),
    })
}

/// The answer if parsing stopped: print the help or the version, else report a usage error. If an
/// allocation failed there is no answer.
fn told<'a>(alloc: Global, error: &Error) -> Result<Answer<'a>, AllocError> {
    let kind = error.kind();
    if let ErrorKind::OutOfMemory = kind {
        return Err(AllocError);
    }
    let text = format!(in alloc; "{error}")?;
    if matches!(kind, ErrorKind::DisplayHelp | ErrorKind::DisplayVersion) {
        Ok(Answer::Print(text))
    } else {
        Ok(Answer::Refuse(text))
    }
}

/// The answer that reports a usage error.
fn refused<'a>(alloc: Global, why: &str) -> Result<Answer<'a>, AllocError> {
    match String::from_str(alloc, why) {
        Ok(text) => Ok(Answer::Refuse(text)),
        Err(error) => Err(error),
    }
}

/// Whether the arguments are `--pcap` and `--look`, in either order.
fn is_look(words: &[&str]) -> bool {
    match words {
        [one, two] => {
            (*one == "--pcap" && *two == "--look") || (*one == "--look" && *two == "--pcap")
        }
        _ => false,
    }
}

/// Parses the arguments after the program's name.
pub fn answer_of<'a>(alloc: Global, words: &'a [&'a str]) -> Result<Answer<'a>, AllocError> {
    if is_look(words) {
        return Ok(Answer::Look);
    }
    match dfrd(alloc)?.try_get_matches_from(words) {
        Ok(matches) => match asked_of(&matches) {
            Ok(asked) => Ok(Answer::Do(asked)),
            Err(why) => refused(alloc, why),
        },
        Err(error) => told(alloc, &error),
    }
}
