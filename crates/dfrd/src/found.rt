//! The folder when recording begins: whether it can be used, and what is in it.

ghost use Rattle.std.specs.Prelude.{◌≡◌, [], OnOk};
ghost use Rattle.dfr_folder.specs.Sorting.{AreOldestFirst};

use crate::disk::{Disk, files_in};
use crate::folder::{Folder, FolderFault, Records};
use crate::header_file::tidy_headers;
use crate::outcome::{FileFault, Reason, complain, reason_of};
use crate::pair::size_of_pair;
use crate::place::{Place, fault_of};
use dfr_folder::{Ending, Keep, Key, Seen, open_folder, sort_oldest_first};
use std::alloc::Global;
use std::fs::{File, OpenOptions};
use std::io::ErrorKind;
use std::rt::Files;
use std::sync::{Arc, Wait};
use std::{fs, io};

/// Tests whether a file can be created in the folder: creates one and removes it. An earlier one
/// that was left by a kill is removed first.
fn probe<R: Files + AllocGlobal>(rt: &R, folder: &str) -> io::Result<()> {
    let mut path = String::from_str(rt.alloc(), folder)?;
    path.push_str("/.dfrd.part")?;
    if let Err(error) = fs::remove_file(rt, path.as_str())
        && error.kind() != ErrorKind::NotFound
    {
        return Err(error);
    }
    match OpenOptions::new()
        .write(true)
        .create_new(true)
        .open(rt, path.as_str())
    {
        Ok(_) => fs::remove_file(rt, path.as_str()),
        Err(error) => Err(error),
    }
}

/// Whether this file shows that a data file with this key is one of a pair.
fn is_of_pair(seen: &Seen, key: Key) -> bool {
    let is_data = matches!(seen.name.ending, Ending::Data | Ending::DataPart);
    seen.name.key == key && !is_data
}

/// Whether the data file at this index is alone. The files are in the order of their keys, and a key
/// has at most five: those of its pair are among the four before it and the four behind it.
fn is_alone(files: &[Seen], at: usize, seen: &Seen) -> bool {
    let Some(near) = files.get(at.saturating_sub(4)..) else {
        return false;
    };
    let key = seen.name.key;
    let has_pair = near.iter().take(9).any(|other| is_of_pair(other, key));
    seen.name.ending == Ending::Data && !has_pair
}

/// How many of these files, which are in the order of their keys, are data files that are alone.
fn count_alone(files: &[Seen]) -> usize {
    files
        .iter()
        .enumerate()
        .filter(|(at, seen)| is_alone(files, *at, seen))
        .count()
}

impl<'a, R: Files<File = File> + Eprint + AllocGlobal + Clone + Drop> Folder<'a, R> {
    /// Notes the pairs that are there, the oldest first, unless all are kept. Reports data files that
    /// are alone.
    fn find_pairs(&mut self, path: &str) -> io::Result<()>
        requires { self.old.pairs.items ≡ [] }
        ensures { OnOk result (AreOldestFirst self.new.pairs.items) }
    {
        let files = files_in(self.rt, self.rt.alloc(), path)?;
        let alone = count_alone(&files);
        if alone != 0 {
            let _ = complain(self.rt, path, FileFault::Alone(alone as u64));
        }
        if let Keep::All = self.keep {
            return Ok(());
        }
        for seen in &files {
            if seen.name.ending == Ending::Config {
                let key = seen.name.key;
                self.pairs.push((key, size_of_pair(self.rt, path, key)?))?;
            }
        }
        sort_oldest_first(&mut self.pairs);
        Ok(())
    }

    /// Completes or removes what an interrupted recording left in the folder with this path. Forgets
    /// the pairs of another folder, and finds those of this one.
    pub(crate) fn open_at(&mut self, path: &str) -> Result<(), Reason>
        ensures { OnOk result (AreOldestFirst self.new.pairs.items) }
    {
        self.opened = None;
        self.pending = None;
        self.pairs.clear();
        self.stuck.clear();
        let Ok(disk) = Disk::new(self.rt, path) else {
            return Err(Reason::Memory);
        };
        match open_folder(self.rt.alloc(), disk) {
            Ok(opened) => self.opened = Some(opened),
            Err((_, disk)) => return Err(disk.reason()),
        }
        if self.has_headers
            && let Err(error) = tidy_headers(self.rt, path)
        {
            return Err(reason_of(&error));
        }
        match self.find_pairs(path) {
            Ok(()) => Ok(()),
            Err(error) => Err(reason_of(&error)),
        }
    }
}

/// Whether an error shows that nothing can be written. A full disk is not refused: it may have room
/// when the first record comes.
fn is_denied(error: &io::Error) -> bool {
    matches!(reason_of(error), Reason::Denied | Reason::ReadOnly)
}

impl<R: Files<File = File> + Eprint + AllocGlobal + Clone + Drop + Wait> Records for Folder<'_, R> {
    fn open(
        &mut self,
        place: Arc<Place, Global>,
        keep: Keep,
        has_headers: bool,
    ) -> Result<(), FolderFault> {
        self.keep = keep;
        self.has_headers = has_headers;
        let probed = probe(self.rt, place.path.as_str());
        if let Err(error) = &probed
            && is_denied(error)
        {
            return Err(FolderFault::Denied);
        }
        let found = self.open_at(place.path.as_str());
        if let Err(error) = &probed
            && found.is_ok()
        {
            let _ = complain(self.rt, place.path.as_str(), reason_of(error));
        }
        self.place = Some(place);
        match found {
            Ok(()) => Ok(()),
            Err(reason) => Err(fault_of(reason)),
        }
    }
}
