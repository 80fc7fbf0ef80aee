//! A picture or a page of each of many records, as files of a folder.

use crate::each::{Told, put_each};
use crate::ending::{folder_of, stem_of};
use crate::folder::Pairs;
use crate::load::read_record;
use crate::opened::odd_line;
use crate::output::{has_records, named_file};
use crate::wanted::{Product, Wanted};
use crate::write::write_new;
use crate::{complain, note_size, print_bytes, say};
use comtrade_io::{Batched, Names, ToolFault, fault_of, put_safe};
use comtrade_values::put;
use std::alloc::{AllocError, Global};
use std::fs;
use std::rt::Files;

/// What a file of a picture or page ends with.
fn ending_of(product: Product) -> &'static str {
    if product == Product::Page {
        ".html"
    } else {
        ".svg"
    }
}

/// The name that the files of a record share, without its folder.
fn own_name(record: &str) -> &str {
    folder_of(stem_of(record).1).1
}

/// Whether another of the records has the same own name, in upper or lower case.
fn is_shared(records: &[String], name: &str) -> bool {
    let same = records.iter().filter(|record| own_name(record.as_str()).eq_ignore_ascii_case(name));
    same.count() > 1
}

/// The name of a record with those of its folders before it, joined by a minus.
fn joined_name(alloc: Global, record: &str) -> Result<String, AllocError> {
    let mut name = String::new(alloc);
    for piece in stem_of(record).1.split('/') {
        if matches!(piece, "" | "." | "..") {
            continue;
        }
        if !name.is_empty() {
            name.push_str("-")?;
        }
        name.push_str(piece)?;
    }
    Ok(name)
}

/// The file for a record's picture: named as the record, with its folders where another record has
/// the same name.
fn file_for(
    alloc: Global,
    folder: &str,
    records: &[String],
    record: &str,
    ending: &str,
) -> Result<String, AllocError> {
    let own = own_name(record);
    let mut file = String::from_str(alloc, folder)?;
    if !folder.ends_with('/') {
        file.push_str("/")?;
    }
    if own == "-" {
        file.push_str("standard-input")?;
    } else if is_shared(records, own) {
        file.push_str(joined_name(alloc, record)?.as_str())?;
    } else {
        file.push_str(own)?;
    }
    file.push_str(ending)?;
    Ok(file)
}

/// What became of the picture of a record.
#[derive(Clone, Copy, PartialEq, Eq)]
enum Drawn {
    Written,
    /// It is refused, or cannot be written, which is printed.
    Refused,
    /// The folder for it cannot be made, which is printed.
    Homeless,
}

/// Writes a file into a folder, which is made if it does not exist, and prints its name.
fn write_into<R: Files + Print + Eprint + AllocGlobal>(
    rt: &R,
    folder: &str,
    file: &str,
    bytes: &[u8],
) -> Result<Drawn, ToolFault> {
    if let Err(error) = fs::create_dir_all(rt, folder) {
        complain(rt, folder, fault_of(error.kind(), ToolFault::Output));
        return Ok(Drawn::Homeless);
    }
    if !write_new(rt, file, bytes) {
        return Ok(Drawn::Refused);
    }
    let mut line = Vec::new(rt.alloc());
    put_safe(&mut line, file.as_bytes())?;
    put(&mut line, "\n")?;
    if print_bytes(rt, &line) == 0 {
        Ok(Drawn::Written)
    } else {
        Ok(Drawn::Refused)
    }
}

/// Writes what is asked of a record to a file of a folder, and prints its name.
fn write_each<R: Files + Input + Print + Eprint + AllocGlobal + Clone + Drop>(
    rt: &R,
    is_watched: bool,
    wanted: Wanted<'_>,
    record: &str,
    folder: &str,
    file: &str,
) -> Result<Drawn, ToolFault> {
    let names = Names {
        file: record,
        dat: None,
    };
    let Some(inputs) = read_record(rt, names, wanted.part.strict) else {
        return Ok(Drawn::Refused);
    };
    note_size(rt, is_watched, &inputs);
    let mut zone = None;
    let mut out = Vec::new(rt.alloc());
    let told = put_each(rt, &mut zone, wanted, record, &inputs, &mut out)?;
    if matches!(&told, Told::Refused(_)) {
        return Ok(Drawn::Refused);
    }
    write_into(rt, folder, file, &out)
}

/// Writes a file for each record into a folder. Whether all were written.
fn write_all<R: Files + Input + Print + Eprint + AllocGlobal + Clone + Drop>(
    rt: &R,
    is_watched: bool,
    wanted: Wanted<'_>,
    pairs: &Pairs,
    folder: &str,
) -> Result<bool, ToolFault> {
    let mut is_whole = has_records(pairs) && pairs.odd.is_empty();
    for name in &pairs.odd {
        say(rt, &odd_line(rt.alloc(), name)?);
    }
    let ending = ending_of(wanted.product);
    for record in &pairs.names {
        let name = record.as_str();
        let file = file_for(rt.alloc(), folder, &pairs.names, name, ending)?;
        match write_each(rt, is_watched, wanted, name, folder, file.as_str())? {
            Drawn::Written => {}
            Drawn::Refused => is_whole = false,
            Drawn::Homeless => return Ok(false),
        }
    }
    Ok(is_whole)
}

/// Writes a picture or page of each of many records into the folder that is named, which is made for
/// the first one if it does not exist. The status is 1 if one cannot be written.
pub(crate) fn run_pictures<R: Files + Input + Print + Eprint + AllocGlobal + Clone + Drop>(
    rt: &R,
    is_watched: bool,
    wanted: Wanted<'_>,
    pairs: &Pairs,
    asked: &Batched<'_>,
) -> u8 {
    let Some(folder) = named_file(asked.output) else {
        return 2;
    };
    match write_all(rt, is_watched, wanted, pairs, folder) {
        Ok(true) => 0,
        Ok(false) => 1,
        Err(fault) => complain(rt, "records", fault),
    }
}
