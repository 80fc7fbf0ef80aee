//! The header file of a record, `KEY.hdr`, next to its pair. It is written, synced and renamed before the
//! pair, whose calls then sync the folder before the `.cfg` gets its name: so whoever finds the `.cfg`
//! finds the header, too. A pair is whole without one: if it can't be written, that is reported, and
//! the pair goes without.

use crate::disk::{clear, written};
use crate::folder::Folder;
use crate::outcome::{FileFault, Reason, complain, reason_of};
use crate::pair::{is_at, is_free};
use dfr_folder::{Key, name_in, put_key};
use std::alloc::{AllocError, Global};
use std::fs::{DirEntry, File};
use std::io::ErrorKind;
use std::rt::Files;
use std::{fs, io};

/// The files of a record.
#[derive(Clone, Copy)]
pub(crate) struct RecordFiles<'f> {
    pub(crate) cfg: &'f [u8],
    pub(crate) dat: &'f [u8],
    pub(crate) header: Option<&'f [u8]>,
}

/// What the name of a header ends in.
const ENDING: &str = ".hdr";

/// What it ends in while it is written.
const PART: &str = ".hdr.part";

/// The path of a record's header, with this ending.
fn path_with(alloc: Global, folder: &str, key: Key, ending: &str) -> Result<String, AllocError> {
    let mut text = Vec::new(alloc);
    put_key(&mut text, key)?;
    let mut path = String::from_str(alloc, folder)?;
    path.push_str("/")?;
    if let Ok(text) = str::from_utf8(&text) {
        path.push_str(text)?;
    }
    path.push_str(ending)?;
    Ok(path)
}

/// Whether a header, or whatever else, has the name of this record's header.
fn has_header<R: Files + AllocGlobal>(rt: &R, folder: &str, key: Key) -> io::Result<bool> {
    let path = path_with(rt.alloc(), folder, key, ENDING)?;
    is_at(rt, path.as_str())
}

/// Writes a header under another name, syncs it, and renames it.
fn put_header<R: Files<File = File> + AllocGlobal>(
    rt: &R,
    folder: &str,
    key: Key,
    bytes: &[u8],
) -> io::Result<()> {
    let part = path_with(rt.alloc(), folder, key, PART)?;
    let path = path_with(rt.alloc(), folder, key, ENDING)?;
    written(rt, part.as_str(), bytes)?.sync_all()?;
    fs::rename(rt, part.as_str(), path.as_str())
}

/// Removes a record's header, or what is left of one that was being written, if it is there. Reports why
/// it can't be removed.
fn drop_file<R: Files + Eprint + AllocGlobal>(rt: &R, folder: &str, key: Key, ending: &str) {
    let Ok(path) = path_with(rt.alloc(), folder, key, ending) else {
        return;
    };
    if let Err(error) = clear(rt, path.as_str()) {
        let _ = complain(rt, path.as_str(), FileFault::Removed(reason_of(&error)));
    }
}

/// Removes a record's header, if it is there. Reports why it can't be removed.
pub(crate) fn drop_header<R: Files + Eprint + AllocGlobal>(rt: &R, folder: &str, key: Key) {
    drop_file(rt, folder, key, ENDING);
}

/// A header in the folder, or what is left of one that was being written.
#[derive(Clone, Copy)]
struct Found {
    key: Key,
    is_part: bool,
}

/// Which header has this name; None if it is another file.
fn found_in(alloc: Global, name: &str) -> Result<Option<Found>, AllocError> {
    let is_part = name.ends_with(PART);
    let Some(front) = name.strip_suffix(if is_part { PART } else { ENDING }) else {
        return Ok(None);
    };
    // the names of the files of a pair say which keys there are
    let mut config = String::from_str(alloc, front)?;
    config.push_str(".cfg")?;
    Ok(match name_in(config.as_str().as_bytes()) {
        Some(name) => Some(Found {
            key: name.key,
            is_part,
        }),
        None => None,
    })
}

/// Which header a file of the folder is; None if it is another file. A name that is not UTF-8 is none of
/// ours.
fn found_at<R: Files + Drop>(
    alloc: Global,
    entry: io::Result<DirEntry<R, Global>>,
) -> io::Result<Option<Found>> {
    match entry {
        Ok(entry) => Ok(found_in(alloc, entry.file_name())?),
        Err(error) if error.kind() == ErrorKind::InvalidFilename => Ok(None),
        Err(error) => Err(error),
    }
}

/// The headers in the folder, and what is left of those that were being written, by their keys.
fn headers_in<R: Files<File = File> + AllocGlobal + Clone + Drop>(
    rt: &R,
    folder: &str,
) -> io::Result<Vec<Found>> {
    let mut headers = Vec::new(rt.alloc());
    for entry in fs::read_dir(rt, folder)? {
        if let Some(header) = found_at(rt.alloc(), entry)? {
            headers.push(header)?;
        }
    }
    headers.sort_unstable_by_key(|header| header.key);
    Ok(headers)
}

/// Removes what an interrupted recording left: headers without a pair, and those that were being
/// written.
pub(crate) fn tidy_headers<R: Files<File = File> + Eprint + AllocGlobal + Clone + Drop>(
    rt: &R,
    folder: &str,
) -> io::Result<()> {
    for header in &headers_in(rt, folder)? {
        if header.is_part {
            drop_file(rt, folder, header.key, PART);
        } else if is_free(rt, folder, header.key)? {
            drop_header(rt, folder, header.key);
        }
    }
    Ok(())
}

impl<R: Files<File = File> + Eprint + AllocGlobal + Clone + Drop> Folder<'_, R> {
    /// Whether no file has the name of one of these.
    pub(crate) fn is_free_for(
        &self,
        path: &str,
        key: Key,
        files: RecordFiles<'_>,
    ) -> io::Result<bool> {
        let is_taken = files.header.is_some() && has_header(self.rt, path, key)?;
        Ok(!is_taken && is_free(self.rt, path, key)?)
    }

    /// Removes the header of a pair that is not there.
    pub(crate) fn take_header_back(&self, path: &str, key: Key, header: Option<&[u8]>) {
        if header.is_some() {
            drop_header(self.rt, path, key);
        }
    }

    /// Writes a record's header, if it has one. Reports why it can't be written, once for each reason.
    pub(crate) fn write_header(&mut self, path: &str, key: Key, header: Option<&[u8]>) {
        let Some(bytes) = header else {
            return;
        };
        let Err(error) = put_header(self.rt, path, key, bytes) else {
            self.unheaded = None;
            return;
        };
        let reason = reason_of(&error);
        if self.unheaded == Some(reason) {
            return;
        }
        self.unheaded = Some(reason);
        if let Ok(path) = path_with(self.rt.alloc(), path, key, ENDING) {
            let _ = complain(self.rt, path.as_str(), FileFault::Written(reason));
        }
    }
}
