//! The folder of records. Which files are written, renamed and removed, and in which order, is
//! decided in `dfr_folder`: whatever stops `dfrd`, a `.cfg` has its whole pair.

use crate::disk::Disk;
use crate::header_file::RecordFiles;
use crate::outcome::Reason;
use crate::place::Place;
use dfr_folder::{Keep, Key, Recorded, Unknown};
use dfr_station::{Store, Stored, Trouble};
use std::alloc::Global;
use std::fs::File;
use std::rt::Files;
use std::sync::{Arc, Wait};
use thiserror::Error;

/// A store of records in a folder.
pub trait Records: Store {
    /// Opens the store. Finishes or removes what an interrupted recording left. Notes the existing
    /// pairs, unless all are kept.
    fn open(
        &mut self,
        place: Arc<Place, Global>,
        keep: Keep,
        has_headers: bool,
    ) -> Result<(), FolderFault>;
}

/// Why a folder can't be used for records.
#[derive(Clone, Copy, Debug, PartialEq, Eq, Error)]
pub enum FolderFault {
    /// There is no such folder, or a file has this name.
    #[error("no such folder")]
    Gone,
    /// The system denies access, or the file system is read-only.
    #[error("no permission, or a read-only file system")]
    Denied,
    /// Another `dfrd` has locked the folder.
    #[error("in use by another dfrd")]
    Taken,
    /// An allocation failed.
    #[error("out of memory")]
    Memory,
    /// Any other error while the folder was opened or listed.
    #[error("the folder cannot be read")]
    Other,
}

/// The files of a folder of the system, with their names.
pub(crate) type Opened<'a, R> = Recorded<Disk<'a, R>, Unknown>;

/// The folder, and the pairs in it with their sizes in bytes, the oldest first. Pairs of earlier
/// recordings come first, sorted by name. Pairs of this recording follow in the order of writing,
/// so a new pair never counts as old because the clock was set back.
#[derive(Drop)]
pub struct Folder<'a, R> {
    pub(crate) rt: &'a R,
    /// The folder and its lock; None before it is opened.
    pub(crate) place: Option<Arc<Place, Global>>,
    /// Its files; None before it is opened.
    pub(crate) opened: Option<Opened<'a, R>>,
    /// How often the lock had been taken anew when the files were listed.
    pub(crate) turn: u64,
    pub(crate) keep: Keep,
    /// Whether headers without a pair are removed at the start.
    pub(crate) has_headers: bool,
    /// Why the last header could not be written.
    pub(crate) unheaded: Option<Reason>,
    pub(crate) pairs: Vec<(Key, u64)>,
    /// The pairs that could not be removed, as the folder can't be synced; they are reported.
    pub(crate) stuck: Vec<Key>,
    /// A record of which files are left that could neither be completed nor removed, and their key.
    pub(crate) pending: Option<(Key, Key)>,
    /// The record for which old pairs were given up last, and how many bytes they had.
    pub(crate) given: Option<(Key, u64)>,
    /// How many pairs were removed since the last record.
    pub(crate) removed: u64,
    /// Why the last record could not be stored.
    pub(crate) reported: Option<Reason>,
}

impl<'a, R: AllocGlobal> Folder<'a, R> {
    /// A folder that is not open yet.
    pub fn new(rt: &'a R) -> Folder<'a, R> {
        Folder {
            rt,
            place: None,
            opened: None,
            turn: 0,
            keep: Keep::All,
            has_headers: false,
            unheaded: None,
            pairs: Vec::new(rt.alloc()),
            stuck: Vec::new(rt.alloc()),
            pending: None,
            given: None,
            removed: 0,
            reported: None,
        }
    }
}

/// The trouble to report for this reason.
fn trouble_of(reason: Reason) -> Trouble {
    match reason {
        Reason::Full | Reason::Large => Trouble::Full,
        Reason::Gone => Trouble::Gone,
        Reason::Denied | Reason::ReadOnly | Reason::Taken => Trouble::Denied,
        Reason::Memory => Trouble::Memory,
        Reason::Folder | Reason::Other => Trouble::Other,
    }
}

impl<'a, R: Files<File = File> + Eprint + AllocGlobal + Clone + Drop> Folder<'a, R> {
    /// Writes a record's pair. While the disk is full, gives up old pairs, if not all are kept.
    fn write(
        &mut self,
        opened: &mut Opened<'a, R>,
        path: &str,
        record: Key,
        files: RecordFiles<'_>,
    ) -> Result<Key, Reason> {
        let size = files.cfg.len() as u64 + files.dat.len() as u64;
        for _ in 0..u64::MAX {
            let reason = match self.put_free(opened, path, record, files) {
                Ok(key) => return Ok(key),
                Err(reason) => reason,
            };
            if reason != Reason::Full || !self.give_up(opened, path, record, size) {
                return Err(reason);
            }
        }
        Err(Reason::Full)
    }

    /// Stores a record's pair in the folder with this path, which is locked.
    fn stored(
        &mut self,
        path: &str,
        record: Key,
        files: RecordFiles<'_>,
    ) -> Result<Stored, Reason> {
        let Some(mut opened) = self.opened.take() else {
            return Err(Reason::Gone);
        };
        let written = self.write(&mut opened, path, record, files);
        if written.is_ok() && self.remove_surplus(&mut opened, path).is_err() {
            self.tell(path, Reason::Memory);
        }
        self.opened = Some(opened);
        let key = written?;
        let removed = self.removed;
        self.removed = 0;
        Ok(Stored { key, removed })
    }
}

impl<R: Files<File = File> + Eprint + AllocGlobal + Clone + Drop + Wait> Folder<'_, R> {
    /// Makes sure that the folder is the locked one. If another has its name now, takes the lock of
    /// that one and opens it.
    fn settle(&mut self, place: &Place) -> Result<(), Reason> {
        let turn = place.held(self.rt)?;
        if turn != self.turn || self.opened.is_none() {
            self.open_at(place.path.as_str())?;
            self.turn = turn;
        }
        Ok(())
    }

    /// Stores a record's pair.
    fn put_in(
        &mut self,
        place: &Place,
        key: Key,
        files: RecordFiles<'_>,
    ) -> Result<Stored, Reason> {
        self.settle(place)?;
        self.stored(place.path.as_str(), key, files)
    }
}

impl<R: Files<File = File> + Eprint + AllocGlobal + Clone + Drop + Wait> Store for Folder<'_, R> {
    fn put(
        &mut self,
        key: Key,
        cfg: &[u8],
        dat: &[u8],
        header: Option<&[u8]>,
    ) -> Result<Stored, Trouble> {
        let Some(place) = self.place.take() else {
            return Err(Trouble::Gone);
        };
        let stored = self.put_in(&place, key, RecordFiles { cfg, dat, header });
        let answer = match stored {
            Ok(stored) => {
                self.reported = None;
                Ok(stored)
            }
            Err(reason) => {
                self.tell(place.path.as_str(), reason);
                Err(trouble_of(reason))
            }
        };
        self.place = Some(place);
        answer
    }
}
