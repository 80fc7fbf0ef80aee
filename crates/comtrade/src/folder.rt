//! Folders: the records in them, and names that are not those of files.

use crate::ending::{Ending, has_ending};
use crate::load::put_complaint;
use crate::twice::{has_data, has_head, is_data, is_head};
use crate::words::put_escaped;
use crate::{LIMIT, complain, is_folder, message_on, refuse};
use comtrade_io::{ToolFault, fault_of, put_safe, read_up_to};
use comtrade_values::put;
use std::alloc::{AllocError, Global};
use std::fs;
use std::rt::Files;

/// The endings of the files that stand for a record in a folder. An archive is not looked into, but
/// for `.cfz`, which always is a record.
const RECORDS: [Ending; 5] = [
    Ending::Cfg,
    Ending::CfgGz,
    Ending::Cff,
    Ending::CffGz,
    Ending::Cfz,
];

/// Whether a name is that of a file which stands for a record.
fn is_record(name: &[u8]) -> bool {
    for ending in RECORDS {
        if has_ending(name, ending.text().as_bytes()) {
            return true;
        }
    }
    false
}

/// The records that the names mean.
#[derive(Drop)]
pub(crate) struct Pairs {
    pub(crate) names: Vec<String>,
    /// Those of them that are data files.
    data_files: Vec<String>,
    /// The names, as printable characters, that are not UTF-8, so that the files cannot be opened.
    pub(crate) odd: Vec<Vec<u8>>,
    /// Whether all folders were read; those that weren't are printed.
    pub(crate) is_whole: bool,
    /// Whether the folder that is looked into has a record.
    has_record: bool,
}

impl Pairs {
    /// So far there are none.
    fn new(alloc: Global) -> Pairs {
        Pairs {
            names: Vec::new(alloc),
            data_files: Vec::new(alloc),
            odd: Vec::new(alloc),
            is_whole: true,
            has_record: false,
        }
    }

    /// Whether there is no record.
    pub(crate) fn is_empty(&self) -> bool {
        self.names.is_empty() && self.odd.is_empty()
    }
}

/// Adds a record by the name of one of its files, unless its other file has been named.
fn add_name<R: Files + AllocGlobal + Clone + Drop>(
    rt: &R,
    pairs: &mut Pairs,
    name: String,
) -> Result<(), AllocError> {
    if is_data(name.as_str()) {
        if has_head(rt, &pairs.names, name.as_str())? {
            return Ok(());
        }
        pairs.data_files.push(name.clone()?)?;
    } else if is_head(name.as_str()) && has_data(rt, &pairs.data_files, name.as_str())? {
        return Ok(());
    }
    pairs.names.push(name)?;
    Ok(())
}

/// How many folders may lie one in another.
const DEEPEST: usize = 20;

/// What is in a folder: its records, names that are not UTF-8, and the folders in it.
#[derive(Drop)]
struct Entries {
    names: Vec<String>,
    odd: Vec<Vec<u8>>,
    folders: Vec<String>,
}

/// A name in a folder that is not UTF-8, as printable characters.
fn odd_name<R: AllocGlobal>(rt: &R, folder: &str, name: &[u8]) -> Result<Vec<u8>, AllocError> {
    let mut text = Vec::new(rt.alloc());
    put_safe(&mut text, path_in(rt, folder, "")?.as_bytes())?;
    put_escaped(&mut text, name)?;
    Ok(text)
}

/// The names in a folder, each ended by a NUL.
fn entries_of<R: Files + AllocGlobal>(rt: &R, folder: &str) -> Result<Vec<u8>, ToolFault> {
    let place = path_in(rt, folder, "")?;
    match rt.open_dir(place.as_str()) {
        Ok(mut names) => read_up_to(rt.alloc(), &mut names, LIMIT),
        Err(error) => Err(fault_of(error.kind(), ToolFault::Input)),
    }
}

/// Adds a name of a folder to what is in it: a record, or a folder where these are looked for.
fn add_entry<R: Files + AllocGlobal>(
    rt: &R,
    folder: &str,
    name: &[u8],
    recursive: bool,
    entries: &mut Entries,
) -> Result<(), ToolFault> {
    if matches!(name, b"" | b"." | b"..") {
        return Ok(());
    }
    let Ok(text) = str::from_utf8(name) else {
        if is_record(name) {
            entries.odd.push(odd_name(rt, folder, name)?)?;
        }
        return Ok(());
    };
    let path = path_in(rt, folder, text)?;
    if recursive && is_folder(rt, path.as_str()) {
        entries.folders.push(path)?;
    } else if is_record(name) {
        entries.names.push(path)?;
    }
    Ok(())
}

/// What is in a folder, each sorted by name; the folders in it only where these are looked for.
fn found_in<R: Files + AllocGlobal>(
    rt: &R,
    folder: &str,
    recursive: bool,
) -> Result<Entries, ToolFault> {
    let mut entries = Entries {
        names: Vec::new(rt.alloc()),
        odd: Vec::new(rt.alloc()),
        folders: Vec::new(rt.alloc()),
    };
    let names = entries_of(rt, folder)?;
    for name in names.split(|b| *b == 0) {
        add_entry(rt, folder, name, recursive, &mut entries)?;
    }
    entries.names.sort()?;
    entries.odd.sort()?;
    entries.folders.sort()?;
    Ok(entries)
}

/// Adds the records of a folder, sorted by name, and returns the folders in it.
fn add_folder<R: Files + AllocGlobal + Clone + Drop>(
    rt: &R,
    folder: &str,
    recursive: bool,
    pairs: &mut Pairs,
) -> Result<Vec<String>, ToolFault> {
    let entries = found_in(rt, folder, recursive)?;
    if !entries.names.is_empty() || !entries.odd.is_empty() {
        pairs.has_record = true;
    }
    for name in entries.names {
        add_name(rt, pairs, name)?;
    }
    for name in entries.odd {
        pairs.odd.push(name)?;
    }
    Ok(entries.folders)
}

/// Adds the records of folders, and returns the folders in these. One that cannot be read is
/// printed.
fn add_folders<R: Files + Eprint + AllocGlobal + Clone + Drop>(
    rt: &R,
    folders: &[String],
    pairs: &mut Pairs,
) -> Result<Vec<String>, ToolFault> {
    let mut next = Vec::new(rt.alloc());
    for folder in folders {
        match add_folder(rt, folder.as_str(), true, pairs) {
            Ok(within) => {
                for name in within {
                    next.push(name)?;
                }
            }
            Err(ToolFault::Memory) => return Err(ToolFault::Memory),
            Err(fault) => {
                complain(rt, folder.as_str(), fault);
                pairs.is_whole = false;
            }
        }
    }
    Ok(next)
}

/// Adds the records of folders that lie in a named one, folder by folder. Those that lie too deep are
/// printed.
fn add_below<R: Files + Eprint + AllocGlobal + Clone + Drop>(
    rt: &R,
    folders: Vec<String>,
    pairs: &mut Pairs,
) -> Result<(), ToolFault> {
    let mut folders = folders;
    for _ in 0..DEEPEST {
        folders = add_folders(rt, &folders, pairs)?;
    }
    for folder in &folders {
        let after = ": not read, because over 20 folders lie one in another\n";
        let said = message_on(rt.alloc(), "comtrade: ", folder.as_bytes(), after);
        refuse(rt, 1, said);
        pairs.is_whole = false;
    }
    Ok(())
}

fn path_in<R: AllocGlobal>(rt: &R, folder: &str, file: &str) -> Result<String, AllocError> {
    let mut path = String::from_str(rt.alloc(), folder)?;
    if !folder.ends_with('/') {
        path.push_str("/")?;
    }
    path.push_str(file)?;
    Ok(path)
}

/// Adds the records of a folder that is named, and with `recursive` those of the folders below it. It
/// prints that there is none. A folder that cannot be read is an error.
fn add_named_folder<R: Files + Eprint + AllocGlobal + Clone + Drop>(
    rt: &R,
    folder: &str,
    recursive: bool,
    pairs: &mut Pairs,
) -> Result<(), ToolFault> {
    pairs.has_record = false;
    let within = add_folder(rt, folder, recursive, pairs)?;
    add_below(rt, within, pairs)?;
    if !pairs.has_record {
        let after = ": no record in this folder\n";
        let said = message_on(rt.alloc(), "comtrade: ", folder.as_bytes(), after);
        refuse(rt, 0, said);
    }
    Ok(())
}

/// The records that the names mean: for a folder, those in it, and with `recursive` also those of
/// the folders below it. Two names that are the files of one pair mean one record.
pub(crate) fn pairs_of<R: Files + Eprint + AllocGlobal + Clone + Drop>(
    rt: &R,
    names: &[&str],
    recursive: bool,
) -> Result<Pairs, ToolFault> {
    let mut pairs = Pairs::new(rt.alloc());
    for name in names {
        if !is_folder(rt, name) {
            add_name(rt, &mut pairs, String::from_str(rt.alloc(), name)?)?;
            continue;
        }
        if let Err(fault) = add_named_folder(rt, name, recursive, &mut pairs) {
            complain(rt, name, fault);
            return Err(fault);
        }
    }
    Ok(pairs)
}

/// Adds that a name is that of a folder, and how to look at it.
pub(crate) fn put_folder(said: &mut Vec<u8>, name: &str) -> Result<(), AllocError> {
    put(said, "comtrade: ")?;
    put_safe(said, name.as_bytes())?;
    put(said, ": is a folder: use comtrade list ")?;
    put_safe(said, name.as_bytes())?;
    put(said, "\n")
}

/// Whether there is a file with this name; if not, `said` tells why.
pub(crate) fn is_file<R: Files + AllocGlobal>(
    rt: &R,
    name: &str,
    said: &mut Vec<u8>,
) -> Result<bool, AllocError> {
    match fs::metadata(rt, name) {
        Ok(data) if data.is_dir() => {
            put_folder(said, name)?;
            Ok(false)
        }
        Ok(_) => Ok(true),
        Err(error) => {
            put_complaint(said, name, fault_of(error.kind(), ToolFault::Input))?;
            Ok(false)
        }
    }
}
