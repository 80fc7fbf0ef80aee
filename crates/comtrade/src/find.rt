//! Finds the other file of a pair.

use crate::ending::{Ending, WHOLE, folder_of, stem_of, without_ending};
use crate::folder::{is_file, put_folder};
use crate::load::or_say;
use crate::{is_folder, message_on, read_named};
use comtrade_io::{Names, put_safe};
use comtrade_values::put;
use std::alloc::{AllocError, Global};
use std::fs;
use std::rt::Files;

/// The names of a record's files; a single file has only one.
#[derive(Drop)]
pub(crate) struct Pairing {
    pub(crate) cfg: String,
    pub(crate) dat: Option<String>,
}

/// How well a file of a folder fits this stem and ending: 0 is best, None if it does not fit.
fn rank_of(file: &str, stem: &str, ending: Ending) -> Option<u8> {
    let front = without_ending(file, ending)?;
    let is_same = front == stem;
    if is_same && file.ends_with(ending.text()) {
        return Some(0);
    }
    if is_same {
        return Some(1);
    }
    if front.eq_ignore_ascii_case(stem) {
        Some(2)
    } else {
        None
    }
}

/// Whether a file fits better than the best so far: by its rank, then by its name.
fn is_better(rank: u8, name: &str, best: &Option<(u8, String)>) -> bool {
    match best {
        Some((other, file)) => rank < *other || rank == *other && name < file.as_str(),
        None => true,
    }
}

/// The file of a folder that fits best.
fn found_in<R: Files + AllocGlobal + Clone + Drop>(
    rt: &R,
    folder: &str,
    stem: &str,
    ending: Ending,
) -> Result<Option<String>, AllocError> {
    let place = if folder.is_empty() { "." } else { folder };
    let Ok(entries) = fs::read_dir(rt, place) else {
        return Ok(None);
    };
    let mut best: Option<(u8, String)> = None;
    for entry in entries {
        let Ok(entry) = entry else {
            continue;
        };
        if let Some(rank) = rank_of(entry.file_name(), stem, ending) {
            if is_better(rank, entry.file_name(), &best) {
                best = Some((rank, String::from_str(rt.alloc(), entry.file_name())?));
            }
        }
    }
    match best {
        Some((_, file)) => Ok(Some(joined(rt.alloc(), folder, file.as_str())?)),
        None => Ok(None),
    }
}

fn joined(alloc: Global, folder: &str, file: &str) -> Result<String, AllocError> {
    let mut path = String::from_str(alloc, folder)?;
    path.push_str(file)?;
    Ok(path)
}

/// The name itself if it has this ending, else the file that fits best.
fn file_for<R: Files + AllocGlobal + Clone + Drop>(
    rt: &R,
    name: &str,
    ending: Ending,
) -> Result<Option<String>, AllocError> {
    let (given, whole) = stem_of(name);
    if given == Some(ending) {
        return Ok(Some(String::from_str(rt.alloc(), name)?));
    }
    let (folder, stem) = folder_of(whole);
    found_in(rt, folder, stem, ending)
}

/// That the other file is missing, and what was looked for.
fn partner_refusal(alloc: Global, name: &str, ending: Ending) -> Result<Vec<u8>, AllocError> {
    let (_, whole) = stem_of(name);
    let (folder, stem) = folder_of(whole);
    let folder = if folder.is_empty() { "." } else { folder };
    let mut said = message_on(alloc, "comtrade: ", stem.as_bytes(), ending.text())?;
    put(
        &mut said,
        ": no such file, in upper or lower case, in the folder ",
    )?;
    put_safe(&mut said, folder.as_bytes())?;
    put(&mut said, "\n")?;
    Ok(said)
}

/// No record: `said` tells that the other file is missing.
fn refuse_partner(
    name: &str,
    ending: Ending,
    said: &mut Vec<u8>,
) -> Result<Option<Pairing>, AllocError> {
    let line = partner_refusal(*said.allocator(), name, ending)?;
    said.extend_from_slice(&line)?;
    Ok(None)
}

/// The byte-order mark of UTF-8.
const MARK: &[u8] = b"\xef\xbb\xbf";

/// The file that is a whole record, for a name without an ending.
fn found_single<R: Files + AllocGlobal + Clone + Drop>(
    rt: &R,
    name: &str,
) -> Result<Option<Pairing>, AllocError> {
    for ending in WHOLE {
        if let Some(cfg) = file_for(rt, name, ending)? {
            return Ok(Some(Pairing { cfg, dat: None }));
        }
    }
    Ok(None)
}

/// Whether files of a record have this name, which has no ending of its own.
pub(crate) fn is_record<R: Files + AllocGlobal + Clone + Drop>(
    rt: &R,
    name: &str,
) -> Result<bool, AllocError> {
    if stem_of(name).0.is_some() {
        return Ok(false);
    }
    if either_for(rt, name, Ending::Cfg, Ending::CfgGz)?.is_some() {
        return Ok(true);
    }
    Ok(found_single(rt, name)?.is_some())
}

/// Whether a configuration file is a single file: it begins with a separator line.
pub(crate) fn is_single_text(bytes: &[u8]) -> bool {
    let text = match bytes.strip_prefix(MARK) {
        Some(text) => text,
        None => bytes,
    };
    text.trim_ascii_start().starts_with(b"---")
}

/// Whether the file of this name is a single file.
fn is_single_file<R: Files + Input + AllocGlobal>(rt: &R, name: &str) -> bool {
    match read_named(rt, name) {
        Ok(bytes) => is_single_text(&bytes),
        Err(_) => false,
    }
}

/// The files of a record by a name without an ending; None if one is missing, which `said` tells.
fn found_by_stem<R: Files + Input + AllocGlobal + Clone + Drop>(
    rt: &R,
    name: &str,
    said: &mut Vec<u8>,
) -> Result<Option<Pairing>, AllocError> {
    if let Some(cfg) = either_for(rt, name, Ending::Cfg, Ending::CfgGz)? {
        return found_data(rt, name, cfg, said);
    }
    if let Some(single) = found_single(rt, name)? {
        return Ok(Some(single));
    }
    if is_folder(rt, name) {
        put_folder(said, name)?;
        return Ok(None);
    }
    refuse_partner(name, Ending::Cfg, said)
}

/// The file with one of two endings, plain or compressed: the one that is named, else the plain one.
pub(crate) fn either_for<R: Files + AllocGlobal + Clone + Drop>(
    rt: &R,
    name: &str,
    plain: Ending,
    packed: Ending,
) -> Result<Option<String>, AllocError> {
    if stem_of(name).0 == Some(packed) {
        return file_for(rt, name, packed);
    }
    match file_for(rt, name, plain)? {
        Some(file) => Ok(Some(file)),
        None => file_for(rt, name, packed),
    }
}

/// The files of a record with this configuration file; None if there are no data, which `said` tells.
fn found_data<R: Files + Input + AllocGlobal + Clone + Drop>(
    rt: &R,
    name: &str,
    cfg: String,
    said: &mut Vec<u8>,
) -> Result<Option<Pairing>, AllocError> {
    let dat = either_for(rt, name, Ending::Dat, Ending::DatGz)?;
    if dat.is_some() || is_single_file(rt, cfg.as_str()) {
        return Ok(Some(Pairing { cfg, dat }));
    }
    refuse_partner(name, Ending::Dat, said)
}

/// The files of a record by one name; None if one is missing, which `said` tells. Standard input is a
/// single file.
fn found_pair<R: Files + Input + AllocGlobal + Clone + Drop>(
    rt: &R,
    name: &str,
    said: &mut Vec<u8>,
) -> Result<Option<Pairing>, AllocError> {
    if name == "-" {
        let cfg = String::from_str(rt.alloc(), name)?;
        return Ok(Some(Pairing { cfg, dat: None }));
    }
    let Some(ending) = stem_of(name).0 else {
        return found_by_stem(rt, name, said);
    };
    if !is_file(rt, name, said)? {
        return Ok(None);
    }
    if ending.is_whole() {
        let cfg = String::from_str(rt.alloc(), name)?;
        return Ok(Some(Pairing { cfg, dat: None }));
    }
    match either_for(rt, name, Ending::Cfg, Ending::CfgGz)? {
        Some(cfg) => found_data(rt, name, cfg, said),
        None => refuse_partner(name, Ending::Cfg, said),
    }
}

/// The names of both files; None if one is missing, which `said` tells.
pub(crate) fn pairing_or_why<R: Files + Input + AllocGlobal + Clone + Drop>(
    rt: &R,
    names: Names<'_>,
    said: &mut Vec<u8>,
) -> Result<Option<Pairing>, AllocError> {
    match names.dat {
        Some(dat) => named_pair(rt.alloc(), names.file, dat),
        None => found_pair(rt, names.file, said),
    }
}

/// The names of both files; None if one is missing, which is printed.
pub(crate) fn pairing_of<R: Files + Input + Eprint + AllocGlobal + Clone + Drop>(
    rt: &R,
    names: Names<'_>,
) -> Option<Pairing> {
    let mut said = Vec::new(rt.alloc());
    let found = pairing_or_why(rt, names, &mut said);
    or_say(rt, found, &said)
}

fn named_pair(alloc: Global, cfg: &str, dat: &str) -> Result<Option<Pairing>, AllocError> {
    let cfg = String::from_str(alloc, cfg)?;
    let dat = Some(String::from_str(alloc, dat)?);
    Ok(Some(Pairing { cfg, dat }))
}
