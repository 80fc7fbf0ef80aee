//! The paths and the sizes of the files of a pair.

ghost use Rattle.std.specs.Prelude.{◌≤◌, IfOk};

use dfr_folder::{Ending, Key, Name, put_name};
use std::alloc::{AllocError, Global};
use std::io::ErrorKind;
use std::rt::Files;
use std::{fs, io};

/// The path of one file of a pair: the folder, the pair's name and an ending.
pub(crate) fn path_of(alloc: Global, folder: &str, name: Name) -> Result<String, AllocError> {
    let mut text = Vec::new(alloc);
    put_name(&mut text, name)?;
    let mut path = String::from_str(alloc, folder)?;
    path.push_str("/")?;
    if let Ok(text) = str::from_utf8(&text) {
        path.push_str(text)?;
    }
    Ok(path)
}

/// Whether a file, folder or link has this path.
pub(crate) fn is_at<R: Files>(rt: &R, path: &str) -> io::Result<bool> {
    match fs::symlink_metadata(rt, path) {
        Ok(_) => Ok(true),
        Err(error) => {
            if error.kind() == ErrorKind::NotFound {
                Ok(false)
            } else {
                Err(error)
            }
        }
    }
}

/// Whether a file, folder or link has this name.
pub(crate) fn is_there<R: Files + AllocGlobal>(
    rt: &R,
    folder: &str,
    key: Key,
    ending: Ending,
) -> io::Result<bool> {
    let path = path_of(rt.alloc(), folder, Name { key, ending })?;
    is_at(rt, path.as_str())
}

/// Whether no pair has this name, nor one whose removal could not be finished.
pub(crate) fn is_free<R: Files + AllocGlobal>(rt: &R, folder: &str, key: Key) -> io::Result<bool> {
    Ok(
        !is_there(rt, folder, key, Ending::Config)?
            && !is_there(rt, folder, key, Ending::Data)?
            && !is_there(rt, folder, key, Ending::Gone)?,
    )
}

/// The most bytes that a file is taken to have: 2^62.
const MOST: u64 = 4_611_686_018_427_387_904;

/// The size of a file in bytes; 0 if it can't be found.
fn size_of<R: Files + AllocGlobal>(rt: &R, folder: &str, name: Name) -> Result<u64, AllocError>
    ensures { IfOk result (λ size. size ≤ 4611686018427387904) }
{
    let path = path_of(rt.alloc(), folder, name)?;
    match fs::metadata(rt, path.as_str()) {
        Ok(metadata) => Ok(metadata.len().min(MOST)),
        Err(_) => Ok(0),
    }
}

/// The size of both files of a pair, in bytes.
pub(crate) fn size_of_pair<R: Files + AllocGlobal>(
    rt: &R,
    folder: &str,
    key: Key,
) -> Result<u64, AllocError> {
    let ending = Ending::Config;
    let cfg = size_of(rt, folder, Name { key, ending })?;
    let ending = Ending::Data;
    let dat = size_of(rt, folder, Name { key, ending })?;
    Ok(cfg + dat)
}
