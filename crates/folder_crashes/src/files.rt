//! Files in memory, each with its name.

use crate::chance::Chance;
use dfr_folder::Name;
use std::alloc::{AllocError, Global};

/// A file.
#[derive(Drop)]
pub struct Stored {
    pub name: Name,
    pub bytes: Vec<u8>,
    /// Whether its bytes are on the disk.
    pub synced: bool,
}

/// The files of a folder.
pub type Files = Vec<Stored>;

/// The bytes under a name.
pub fn bytes_at<'a>(files: &'a [Stored], name: Name) -> Option<&'a [u8]> {
    for file in files {
        if file.name == name {
            return Some(&file.bytes);
        }
    }
    None
}

/// Removes a file, if there is one.
pub fn remove(files: &mut Files, name: Name) {
    files.retain(|file| file.name != name);
}

/// Writes a file, also over another one.
pub fn write(
    files: &mut Files,
    name: Name,
    bytes: Vec<u8>,
    synced: bool,
) -> Result<(), AllocError> {
    remove(files, name);
    files.push(Stored {
        name,
        bytes,
        synced,
    })?;
    Ok(())
}

/// Renames a file, also over another one. Without such a file the new name is gone too.
pub fn rename(files: &mut Files, from: Name, to: Name) {
    remove(files, to);
    for at in 0..files.len() {
        if files[at].name == from {
            files[at].name = to;
        }
    }
}

/// The same files once more.
pub fn copy_of(alloc: Global, files: &[Stored]) -> Result<Files, AllocError> {
    let mut copy = Vec::new(alloc);
    for file in files {
        copy.push(Stored {
            name: file.name,
            bytes: file.bytes.to_vec(alloc)?,
            synced: file.synced,
        })?;
    }
    Ok(copy)
}

/// Some bytes by chance.
pub fn any_bytes(alloc: Global, chance: &mut Chance) -> Result<Vec<u8>, AllocError> {
    let mut bytes = Vec::new(alloc);
    for _ in 0..chance.below(6) {
        bytes.push(chance.below(256) as u8)?;
    }
    Ok(bytes)
}

/// What may be left of bytes that were not synced: all of them, some, or others.
pub fn spoiled(alloc: Global, chance: &mut Chance, bytes: &[u8]) -> Result<Vec<u8>, AllocError> {
    match chance.below(3) {
        0 => bytes.to_vec(alloc),
        1 => {
            let mut part = bytes.to_vec(alloc)?;
            let _ = part.pop();
            Ok(part)
        }
        _ => any_bytes(alloc, chance),
    }
}
