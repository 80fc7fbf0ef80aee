//! The files of the folder of records, as `dfr_folder` asks for them. Each call does what it is asked
//! for and no more: in which order files are written, synced, renamed and removed is decided there.

use crate::outcome::{FileFault, Reason, complain, reason_of};
use crate::pair::path_of;
use dfr_folder::{Ending, Fault, Name, Seen, System, name_in};
use std::alloc::{AllocError, Allocator, Global};
use std::fs::{DirEntry, File};
use std::io::{ErrorKind, Write};
use std::rt::Files;
use std::{fs, io};

/// A folder of the system.
#[derive(Drop)]
pub(crate) struct Disk<'a, R> {
    rt: &'a R,
    path: String,
    /// The file that was written last, to be synced.
    written: Option<(Name, File)>,
    /// Why the last call that failed did.
    reason: Reason,
    /// Whether that is reported.
    is_told: bool,
    /// The files that can't be removed, synced or renamed, and are reported.
    stuck: Vec<Name>,
    /// Whether what an earlier recording left is tidied up.
    is_opening: bool,
    /// Whether it is reported that the folder couldn't be synced then.
    is_sync_told: bool,
}

impl<'a, R: AllocGlobal> Disk<'a, R> {
    /// The folder with this path.
    pub(crate) fn new(rt: &'a R, path: &str) -> Result<Disk<'a, R>, AllocError> {
        Ok(Disk {
            rt,
            path: String::from_str(rt.alloc(), path)?,
            written: None,
            reason: Reason::Other,
            is_told: false,
            stuck: Vec::new(rt.alloc()),
            is_opening: true,
            is_sync_told: false,
        })
    }

    /// Why the last call that failed did.
    pub(crate) fn reason(&self) -> Reason {
        self.reason
    }

    /// Whether the last call that failed is reported.
    pub(crate) fn is_told(&self) -> bool {
        self.is_told
    }

    /// Notes why a call failed.
    fn fails(&mut self, reason: Reason) -> Fault {
        self.reason = reason;
        self.is_told = false;
        match reason {
            Reason::Memory => Fault::Memory,
            Reason::Full => Fault::Full,
            _ => Fault::Failed,
        }
    }

    /// The path of a file.
    fn path_of(&mut self, name: Name) -> Result<String, Fault> {
        match path_of(self.rt.alloc(), self.path.as_str(), name) {
            Ok(path) => Ok(path),
            Err(_) => Err(self.fails(Reason::Memory)),
        }
    }
}

impl<R: Eprint + AllocGlobal> Disk<'_, R> {
    /// Reports a file that can't be removed, once.
    fn tell_stuck(&mut self, path: &str, name: Name) {
        self.is_told = true;
        if !self.stuck.contains(&name) {
            let _ = self.stuck.push(name);
            let _ = complain(self.rt, path, FileFault::Removed(self.reason));
        }
    }

    /// Reports a file that can't be synced or get its name at the start, once.
    fn tell_untidy(&mut self, path: &str, name: Name) {
        if !self.is_opening {
            return;
        }
        self.is_told = true;
        if !self.stuck.contains(&name) {
            let _ = self.stuck.push(name);
            let _ = complain(self.rt, path, FileFault::Tidied(self.reason));
        }
    }
}

/// Which of our files an entry of the folder is; None if it is another one. A name that is not
/// UTF-8 is none of ours.
fn name_at<R: Files + Drop, A: Allocator>(
    entry: io::Result<DirEntry<R, A>>,
) -> io::Result<Option<Name>> {
    match entry {
        Ok(entry) => Ok(name_in(entry.file_name().as_bytes())),
        Err(error) => {
            if error.kind() == ErrorKind::InvalidFilename {
                Ok(None)
            } else {
                Err(error)
            }
        }
    }
}

/// Our files in the folder with this path, by their keys. A file that is being written may not be
/// synced; each other one was, before it got its name.
pub(crate) fn files_in<R: Files<File = File> + AllocGlobal + Clone + Drop>(
    rt: &R,
    alloc: Global,
    path: &str,
) -> io::Result<Vec<Seen>> {
    let mut files = Vec::new(alloc);
    for entry in fs::read_dir(rt, path)? {
        if let Some(name) = name_at(entry)? {
            let is_part = matches!(name.ending, Ending::ConfigPart | Ending::DataPart);
            files.push(Seen {
                name,
                synced: !is_part,
            })?;
        }
    }
    files.sort_unstable_by_key(|seen| seen.name.key);
    Ok(files)
}

/// Makes a file with these bytes.
pub(crate) fn written<R: Files<File = File>>(rt: &R, path: &str, bytes: &[u8]) -> io::Result<File> {
    let mut file = File::create(rt, path)?;
    file.write_all(bytes)?;
    Ok(file)
}

/// Syncs the file with this path.
fn sync_file<R: Files<File = File>>(rt: &R, path: &str) -> io::Result<()> {
    File::open(rt, path)?.sync_all()
}

/// Syncs the folder, so that its names are on the disk. A file system that can't sync a folder is
/// left alone.
pub(crate) fn sync_folder<R: Files<File = File>>(rt: &R, path: &str) -> io::Result<()> {
    match sync_file(rt, path) {
        Err(error)
            if error.kind() != ErrorKind::InvalidInput && error.kind() != ErrorKind::Unsupported =>
            { Err(error) }
        _ => Ok(()),
    }
}

/// Removes a file, if there is one.
pub(crate) fn clear<R: Files>(rt: &R, path: &str) -> io::Result<()> {
    match fs::remove_file(rt, path) {
        Err(error) if error.kind() != ErrorKind::NotFound => Err(error),
        _ => Ok(()),
    }
}

impl<R: Files<File = File> + Eprint + AllocGlobal + Clone + Drop> System for Disk<'_, R> {
    fn list(&mut self, alloc: Global) -> Result<Vec<Seen>, Fault> {
        match files_in(self.rt, alloc, self.path.as_str()) {
            Ok(files) => Ok(files),
            Err(error) => Err(self.fails(reason_of(&error))),
        }
    }

    fn write(&mut self, name: Name, bytes: &[u8]) -> Result<(), Fault> {
        self.is_opening = false;
        self.written = None;
        let path = self.path_of(name)?;
        match written(self.rt, path.as_str(), bytes) {
            Ok(file) => {
                self.written = Some((name, file));
                Ok(())
            }
            Err(error) => Err(self.fails(reason_of(&error))),
        }
    }

    fn sync(&mut self, name: Name) -> Result<(), Fault> {
        let path = self.path_of(name)?;
        let synced = match self.written.take() {
            Some((last, file)) if last == name => file.sync_all(),
            _ => sync_file(self.rt, path.as_str()),
        };
        let Err(error) = synced else {
            return Ok(());
        };
        let fault = self.fails(reason_of(&error));
        self.tell_untidy(path.as_str(), name);
        Err(fault)
    }

    fn rename(&mut self, from: Name, to: Name) -> Result<(), Fault> {
        let path = self.path_of(from)?;
        let new = self.path_of(to)?;
        let Err(error) = fs::rename(self.rt, path.as_str(), new.as_str()) else {
            return Ok(());
        };
        let fault = self.fails(reason_of(&error));
        match from.ending {
            Ending::ConfigPart | Ending::DataPart => self.tell_untidy(path.as_str(), from),
            Ending::Gone => self.tell_stuck(path.as_str(), from),
            Ending::Config if error.kind() != ErrorKind::NotFound => {
                self.tell_stuck(path.as_str(), from);
            }
            _ => {}
        }
        Err(fault)
    }

    fn remove(&mut self, name: Name) -> Result<(), Fault> {
        let path = self.path_of(name)?;
        match clear(self.rt, path.as_str()) {
            Ok(()) => Ok(()),
            Err(error) => {
                let fault = self.fails(reason_of(&error));
                self.tell_stuck(path.as_str(), name);
                Err(fault)
            }
        }
    }

    fn sync_names(&mut self) -> Result<(), Fault> {
        let Err(error) = sync_folder(self.rt, self.path.as_str()) else {
            return Ok(());
        };
        let fault = self.fails(reason_of(&error));
        if self.is_opening && !self.is_sync_told {
            self.is_sync_told = true;
            let _ = complain(self.rt, self.path.as_str(), FileFault::Synced(self.reason));
        }
        Err(fault)
    }
}
