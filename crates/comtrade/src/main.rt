//! The program `comtrade`: it parses its arguments, reads the files they name, and hands the work
//! to libraries. Each command prints errors on standard error and returns the exit status.
#![tactic(auto)]

mod align;
mod answers;
mod around;
mod batch;
mod compare;
mod container;
mod content;
mod detect;
mod detect_json;
mod each;
mod ending;
mod event_file;
mod extract;
mod fault;
mod find;
mod folder;
mod found;
mod import;
mod line;
mod load;
mod measure;
mod one;
mod opened;
mod output;
mod part;
mod pictures;
mod pieces;
mod plain;
mod report;
mod report_text;
mod stream;
mod survey;
mod twice;
mod view;
mod wanted;
mod words;
mod write;
mod zones;

use crate::batch::run_batch;
use crate::compare::run_compare;
use crate::detect::run_detect;
use crate::extract::run_extract;
use crate::fault::run_fault;
use crate::find::pairing_of;
use crate::import::run_import;
use crate::load::Inputs;
use crate::one::view_pair;
use crate::report::run_report;
use crate::stream::csv_in_pieces;
use crate::survey::run_survey;
use crate::wanted::{Product, Wanted};
use crate::words::{invalid_argument, safe_lines, words_of};
use crate::write::run_convert;
use comtrade_io::{
    Answer, Asked, ToolFault, View, Viewed, answer_of, fault_of, put_safe, read_up_to, write_out,
};
use comtrade_values::put;
use std::alloc::{AllocError, Global};
use std::fs::File;
use std::io::IsTerminal;
use std::process::ExitCode;
use std::rt::Files;
use std::{fs, io};

/// The most bytes of a file that is read: 512 MiB.
const LIMIT: usize = 536_870_912;

/// Reading a pair of this size may take over a second.
const LONG: u64 = 32_000_000;

/// Prints bytes on standard error, those outside ASCII in hexadecimal.
fn say_bytes<R: Eprint>(rt: &R, bytes: &[u8]) {
    for b in bytes {
        if b.is_ascii() {
            let _ = eprint!(rt; "{}", char::from(*b));
        } else {
            let _ = eprint!(rt; "\\x{b:02x}");
        }
    }
}

/// Prints lines on standard error. They are UTF-8; a line that is not is printed, too.
pub(crate) fn say<R: Eprint>(rt: &R, bytes: &[u8]) {
    match str::from_utf8(bytes) {
        Ok(text) => {
            let _ = eprint!(rt; "{text}");
        }
        Err(_) => say_bytes(rt, bytes),
    }
}

/// Prints on standard error that an allocation failed; this does not allocate.
pub(crate) fn out_of_memory<R: Eprint>(rt: &R) -> u8 {
    let _ = eprintln!(rt; "comtrade: out of memory");
    1
}

/// Prints a message on standard error, or that there was no memory for it. Returns the exit status:
/// this one, or 1 without memory.
pub(crate) fn refuse<R: Eprint>(rt: &R, status: u8, said: Result<Vec<u8>, AllocError>) -> u8 {
    match said {
        Ok(said) => {
            say(rt, &said);
            status
        }
        Err(_) => out_of_memory(rt),
    }
}

/// A message with a name, as printable characters, between two texts.
pub(crate) fn message_on(
    alloc: Global,
    before: &str,
    name: &[u8],
    after: &str,
) -> Result<Vec<u8>, AllocError> {
    let mut said = Vec::new(alloc);
    put(&mut said, before)?;
    put_safe(&mut said, name)?;
    put(&mut said, after)?;
    Ok(said)
}

/// Prints `comtrade: `, a name and its error on standard error. A reader that has gone away is no
/// error.
pub(crate) fn complain<R: Eprint + AllocGlobal>(rt: &R, name: &str, fault: ToolFault) -> u8 {
    match fault {
        ToolFault::Closed => return 0,
        ToolFault::Memory => return out_of_memory(rt),
        _ => {}
    }
    let mut text = Vec::new(rt.alloc());
    if put_safe(&mut text, name.as_bytes()).is_err() {
        return out_of_memory(rt);
    }
    let _ = eprint!(rt; "comtrade: ");
    say(rt, &text);
    let _ = eprintln!(rt; ": {fault}");
    1
}

/// Whether a name is that of a folder.
pub(crate) fn is_folder<R: Files>(rt: &R, name: &str) -> bool {
    match fs::metadata(rt, name) {
        Ok(data) => data.is_dir(),
        Err(_) => false,
    }
}

/// All bytes of a file, or of standard input if it is named `-`.
pub(crate) fn read_named<R: Files + Input + AllocGlobal>(
    rt: &R,
    name: &str,
) -> Result<Vec<u8>, ToolFault> {
    if name == "-" {
        return read_up_to(rt.alloc(), &mut rt.reader(), LIMIT);
    }
    if is_folder(rt, name) {
        return Err(ToolFault::Folder);
    }
    match File::open(rt, name) {
        Ok(mut file) => read_up_to(rt.alloc(), &mut file, LIMIT),
        Err(error) => Err(fault_of(error.kind(), ToolFault::Input)),
    }
}

/// Prints bytes on standard output.
pub(crate) fn print_bytes<R: Print + Eprint + AllocGlobal>(rt: &R, bytes: &[u8]) -> u8 {
    match write_out(&mut io::writer(rt), bytes) {
        Ok(()) => 0,
        Err(fault) => complain(rt, "standard output", fault),
    }
}

/// Prints how much there is to read, if that may take over a second and someone watches.
pub(crate) fn note_size<R: Eprint>(rt: &R, is_watched: bool, inputs: &Inputs) {
    note_bytes(
        rt,
        is_watched,
        inputs.cfg.len() as u64 + inputs.dat.len() as u64,
    );
}

/// Prints that there are so many bytes to read, if that may take over a second and someone watches.
pub(crate) fn note_bytes<R: Eprint>(rt: &R, is_watched: bool, bytes: u64) {
    if is_watched && LONG <= bytes {
        let megabytes = bytes / 1_000_000;
        let _ = eprintln!(rt; "comtrade: reading {megabytes} MB ..");
    }
}

/// Prints what is asked of one record.
fn run_pair<R: Files + Input + Print + Eprint + AllocGlobal + Clone + Drop>(
    rt: &R,
    is_watched: bool,
    view: View,
    viewed: Viewed<'_>,
) -> u8 {
    let product = match view {
        View::Show => Product::Show,
        View::Csv => Product::Csv,
        View::Detect => return run_detect(rt, is_watched, viewed),
    };
    let Some(names) = pairing_of(rt, viewed.names) else {
        return 1;
    };
    if product == Product::Csv {
        if let Some(status) = csv_in_pieces(rt, is_watched, &names, viewed) {
            return status;
        }
    }
    let wanted = Wanted::of_pair(product, viewed);
    view_pair(rt, is_watched, names, wanted, viewed.output)
}

fn run<R: Files + Input + Print + Eprint + AllocGlobal + Clone + Drop>(
    rt: &R,
    is_watched: bool,
    asked: Asked<'_>,
) -> u8 {
    match asked {
        Asked::View(view, viewed) => run_pair(rt, is_watched, view, viewed),
        Asked::Batch(batch, asked) => run_batch(rt, is_watched, batch, &asked),
        Asked::Convert(made) => run_convert(rt, is_watched, made),
        Asked::Import(made) => run_import(rt, &made),
        Asked::Compare(made) => run_compare(rt, is_watched, made),
        Asked::Fault(made) => run_fault(rt, &made),
        Asked::Report(made) => run_report(rt, &made),
        Asked::Extract(folder) => run_extract(rt, folder),
        Asked::Survey(kind, made) => run_survey(rt, kind, &made),
    }
}

/// Runs the command of the arguments; `is_watched` if standard error is a terminal.
fn answer<R: Files + Input + Print + Eprint + AllocGlobal + Clone + Drop>(
    rt: &R,
    is_watched: bool,
    words: &[String],
) -> u8 {
    let mut texts: Vec<&str> = Vec::new(rt.alloc());
    for word in words {
        if texts.push(word.as_str()).is_err() {
            return out_of_memory(rt);
        }
    }
    match answer_of(rt.alloc(), &texts) {
        Ok(Answer::Do(asked)) => run(rt, is_watched, asked),
        Ok(Answer::Print(text)) => print_bytes(rt, text.as_str().as_bytes()),
        Ok(Answer::Refuse(text)) => refuse(rt, 2, safe_lines(rt.alloc(), text.as_str())),
        Err(_) => out_of_memory(rt),
    }
}

fn main(rt: HostRuntime) -> ExitCode {
    let is_watched = rt.stderr().is_terminal();
    ExitCode::from(match words_of(&rt) {
        Ok(words) => answer(&rt, is_watched, &words),
        Err(error) => refuse(&rt, 2, invalid_argument(&rt, error.kind())),
    })
}
