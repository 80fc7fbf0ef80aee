//! The commands that print something of each of many records.

use crate::answers::{Answers, put_name};
use crate::content::{NO_ENCODING, encoding_of};
use crate::each::{Told, put_each};
use crate::ending::stem_of;
use crate::find::is_record;
use crate::folder::{Pairs, pairs_of};
use crate::load::Inputs;
use crate::one::{put_verdict, run_check, run_view};
use crate::opened::{Opened, odd_line, open_record};
use crate::output::{Findings, has_records, named_file, put_findings};
use crate::pictures::run_pictures;
use crate::twice::{is_data, is_head};
use crate::view::is_askable;
use crate::wanted::{Product, Wanted};
use crate::{complain, is_folder, note_size, out_of_memory, say};
use comtrade_diagnostics::Zone;
use comtrade_io::{Batch, Batched, Names, ToolFault};
use comtrade_values::put;
use std::alloc::AllocError;
use std::fs;
use std::rt::Files;

/// The usage error for pictures or pages of several records without a folder for them.
const NO_FOLDER: &str = "error: several records, or a folder, get a file for each record: \
name a folder for these files with -o\n";

/// Whether there is a file with this very name.
fn is_there<R: Files>(rt: &R, name: &str) -> bool {
    match fs::metadata(rt, name) {
        Ok(data) => !data.is_dir(),
        Err(_) => false,
    }
}

/// Whether a name is that of a file without such an ending as files of records have.
fn is_plain<R: Files>(rt: &R, name: &str) -> bool {
    stem_of(name).0.is_none() && is_there(rt, name)
}

/// Whether two names are the two files of one record: one is standard input, one alone ends as a
/// data file, or the second is a file without an ending, which is no record by itself.
fn are_pair<R: Files>(rt: &R, one: &str, other: &str) -> bool {
    if one == "-" || other == "-" {
        return true;
    }
    if is_folder(rt, one) || is_folder(rt, other) {
        return false;
    }
    if is_data(one) != is_data(other) {
        return true;
    }
    is_plain(rt, other) && (is_head(one) || is_plain(rt, one))
}

/// The one record that the names mean; None if they mean many. A record is found before a folder of
/// the same name, unless the folders within it are asked for.
fn record_of<'a, R: Files + AllocGlobal + Clone + Drop>(
    rt: &R,
    asked: &Batched<'a>,
) -> Result<Option<Names<'a>>, AllocError> {
    let (file, dat) = match asked.names.as_slice() {
        [file] => (*file, None),
        [file, dat] if are_pair(rt, *file, *dat) => (*file, Some(*dat)),
        _ => return Ok(None),
    };
    if dat.is_none() && is_folder(rt, file) && (asked.recursive || !is_record(rt, file)?) {
        return Ok(None);
    }
    Ok(Some(Names { file, dat }))
}

/// How many of the names are standard input.
fn inputs_in(names: &[&str]) -> usize {
    names.iter().filter(|name| **name == "-").count()
}

/// Prints what is asked of one record.
fn run_one<R: Files + Input + Print + Eprint + AllocGlobal + Clone + Drop>(
    rt: &R,
    is_watched: bool,
    batch: Batch,
    asked: &Batched<'_>,
    names: Names<'_>,
) -> u8 {
    let product = match batch {
        Batch::Check => return run_check(rt, is_watched, names, asked.json, asked.output),
        Batch::Plot => Product::Plot,
        Batch::Page => Product::Page,
        Batch::Measure => Product::Measure,
    };
    let wanted = Wanted::of_each(product, asked);
    run_view(rt, is_watched, names, wanted, asked.output)
}

/// Adds the names that are not UTF-8.
fn add_odd<R: Eprint + AllocGlobal>(
    rt: &R,
    answers: &mut Answers,
    names: &[Vec<u8>],
) -> Result<(), ToolFault> {
    for name in names {
        let line = odd_line(rt.alloc(), name)?;
        say(rt, &line);
        answers.add_unread(rt.alloc(), name, &line)?;
    }
    Ok(())
}

/// Reads the files of a record; None if that fails, which is printed and added.
fn inputs_for<R: Files + Input + Eprint + AllocGlobal + Clone + Drop>(
    rt: &R,
    is_strict: bool,
    answers: &mut Answers,
    name: &str,
) -> Result<Option<Inputs>, ToolFault> {
    match open_record(rt, name, is_strict)? {
        Opened::Inputs(inputs) => Ok(Some(inputs)),
        Opened::Unread(said) => {
            say(rt, &said);
            answers.add_unread(rt.alloc(), name.as_bytes(), &said)?;
            Ok(None)
        }
    }
}

/// Adds the verdict on a record.
fn add_verdict<R: Files + Input + Eprint + AllocGlobal + Clone + Drop>(
    rt: &R,
    is_watched: bool,
    asked: &Batched<'_>,
    answers: &mut Answers,
    name: &str,
) -> Result<(), ToolFault> {
    let alloc = rt.alloc();
    let Some(inputs) = inputs_for(rt, false, answers, name)? else {
        return Ok(());
    };
    note_size(rt, is_watched, &inputs);
    let mut text = Vec::new(alloc);
    let is_sound = put_verdict(rt, asked.json, &inputs, &mut text)?;
    answers.add(alloc, name, None, text, is_sound)?;
    Ok(())
}

/// Adds what is measured in a record.
fn add_measured<R: Files + Input + Eprint + AllocGlobal + Clone + Drop>(
    rt: &R,
    is_watched: bool,
    asked: &Batched<'_>,
    zone: &mut Option<Zone>,
    answers: &mut Answers,
    name: &str,
) -> Result<(), ToolFault> {
    let alloc = rt.alloc();
    let Some(inputs) = inputs_for(rt, asked.part.strict, answers, name)? else {
        return Ok(());
    };
    note_size(rt, is_watched, &inputs);
    let mut text = Vec::new(alloc);
    if !asked.json {
        put_name(&mut text, name)?;
    }
    let wanted = Wanted::of_each(Product::Measure, asked);
    match put_each(rt, zone, wanted, name, &inputs, &mut text)? {
        Told::Put(trigger) => {
            put(&mut text, if asked.json { "" } else { "\n" })?;
            answers.add(alloc, name, Some(trigger), text, true)?;
        }
        Told::Refused(said) => answers.add_unread(alloc, name.as_bytes(), &said)?,
    }
    Ok(())
}

/// What is printed of many records, as text or as lines of JSON.
fn answers_of<R: Files + Input + Eprint + AllocGlobal + Clone + Drop>(
    rt: &R,
    is_watched: bool,
    batch: Batch,
    asked: &Batched<'_>,
    pairs: &Pairs,
) -> Result<Findings, ToolFault> {
    let mut answers = Answers::new(rt.alloc(), asked.json);
    let mut zone = None;
    for pair in &pairs.names {
        let name = pair.as_str();
        if batch == Batch::Check {
            add_verdict(rt, is_watched, asked, &mut answers, name)?;
        } else {
            add_measured(rt, is_watched, asked, &mut zone, &mut answers, name)?;
        }
    }
    add_odd(rt, &mut answers, &pairs.odd)?;
    if batch != Batch::Check {
        answers.sort()?;
    }
    Ok(answers.to_findings(rt.alloc(), has_records(pairs))?)
}

/// Prints what is asked of many records, one after the other. The status is 1 if one has an error.
fn run_texts<R: Files + Input + Print + Eprint + AllocGlobal + Clone + Drop>(
    rt: &R,
    is_watched: bool,
    batch: Batch,
    asked: &Batched<'_>,
    pairs: &Pairs,
) -> u8 {
    match answers_of(rt, is_watched, batch, asked, pairs) {
        Ok(findings) => put_findings(rt, asked.output, &findings),
        Err(fault) => complain(rt, "records", fault),
    }
}

/// Whether this can be asked of records, whatever is in them; if not, it prints why.
fn is_asked<R: Eprint + AllocGlobal>(rt: &R, wanted: Wanted<'_>) -> bool {
    if encoding_of(wanted.part.encoding).is_none() {
        say(rt, NO_ENCODING.as_bytes());
        return false;
    }
    let mut said = Vec::new(rt.alloc());
    match is_askable(wanted, &mut said) {
        Ok(is_askable) => {
            say(rt, &said);
            is_askable
        }
        Err(fault) => {
            complain(rt, "records", fault);
            false
        }
    }
}

/// Prints what is asked of each of many records, or writes a file for each.
fn run_many<R: Files + Input + Print + Eprint + AllocGlobal + Clone + Drop>(
    rt: &R,
    is_watched: bool,
    batch: Batch,
    asked: &Batched<'_>,
) -> u8 {
    let picture = match batch {
        Batch::Check | Batch::Measure => None,
        Batch::Plot => Some(Product::Plot),
        Batch::Page => Some(Product::Page),
    };
    if picture.is_some() && named_file(asked.output).is_none() {
        say(rt, NO_FOLDER.as_bytes());
        return 2;
    }
    let wanted = Wanted::of_each(picture.unwrap_or(Product::Measure), asked);
    if batch != Batch::Check && !is_asked(rt, wanted) {
        return 1;
    }
    let Ok(pairs) = pairs_of(rt, &asked.names, asked.recursive) else {
        return 1;
    };
    if picture.is_some() {
        run_pictures(rt, is_watched, wanted, &pairs, asked)
    } else {
        run_texts(rt, is_watched, batch, asked, &pairs)
    }
}

/// Prints something of each of the named records.
pub(crate) fn run_batch<R: Files + Input + Print + Eprint + AllocGlobal + Clone + Drop>(
    rt: &R,
    is_watched: bool,
    batch: Batch,
    asked: &Batched<'_>,
) -> u8 {
    if inputs_in(&asked.names) > 1 {
        let _ = eprintln!(rt; "error: - (standard input) cannot be named twice");
        return 2;
    }
    match record_of(rt, asked) {
        Ok(Some(names)) => run_one(rt, is_watched, batch, asked, names),
        Ok(None) => run_many(rt, is_watched, batch, asked),
        Err(_) => out_of_memory(rt),
    }
}
