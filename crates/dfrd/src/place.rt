//! The folder's lock. It holds one folder, whatever its name is; the name may be given to another.

use crate::folder::FolderFault;
use crate::outcome::{FileFault, Reason, complain, reason_of};
use std::alloc::Global;
use std::fs::{File, Metadata, TryLockError};
use std::os::unix::fs::MetadataExt;
use std::rt::Files;
use std::sync::{Arc, Mutex, Wait};
use std::time::{Clock, Duration};
use std::{fs, thread};

/// How often the thread looks whether the folder is still the locked one, in seconds.
const LOOK: u64 = 10;

/// What tells one file or folder from all others, whatever their names.
#[derive(Clone, Copy, Debug, PartialEq, Eq)]
pub(crate) struct Identity {
    device: u64,
    number: u64,
}

/// The identity of the file or folder with this metadata.
pub(crate) fn identity_of(metadata: &Metadata) -> Identity {
    Identity {
        device: metadata.dev(),
        number: metadata.ino(),
    }
}

/// The lock, and how often it was taken.
#[derive(Drop)]
struct Held {
    /// While it is open, no other `dfrd` can use the folder.
    lock: Option<File>,
    turn: u64,
}

/// The folder's path, and its lock.
#[derive(Drop)]
pub struct Place {
    pub(crate) path: String,
    held: Mutex<Held>,
}

/// Why the folder can't be used.
pub(crate) fn fault_of(reason: Reason) -> FolderFault {
    match reason {
        Reason::Gone => FolderFault::Gone,
        Reason::Denied | Reason::ReadOnly => FolderFault::Denied,
        Reason::Taken => FolderFault::Taken,
        Reason::Memory => FolderFault::Memory,
        Reason::Full | Reason::Large | Reason::Folder | Reason::Other => FolderFault::Other,
    }
}

/// Opens the folder and locks it. If it can't be locked, as on a file system without locks, reports
/// that and returns it open but not locked.
fn locked<R: Files<File = File> + Eprint + AllocGlobal>(
    rt: &R,
    path: &str,
) -> Result<File, Reason> {
    let folder = match File::open(rt, path) {
        Ok(folder) => folder,
        Err(error) => return Err(reason_of(&error)),
    };
    match folder.try_lock() {
        Err(TryLockError::WouldBlock) => return Err(Reason::Taken),
        Err(TryLockError::Error(error)) => {
            let _ = complain(rt, path, FileFault::Locked(reason_of(&error)));
        }
        Ok(()) => {}
    }
    Ok(folder)
}

/// Whether this is the locked folder.
fn is_held(lock: &Option<File>, there: Identity) -> bool {
    match lock {
        Some(folder) => match folder.metadata() {
            Ok(ours) => identity_of(&ours) == there,
            Err(_) => false,
        },
        None => false,
    }
}

impl Place {
    /// Opens and locks the folder with this path.
    pub(crate) fn open<R: Files<File = File> + Eprint + AllocGlobal>(
        rt: &R,
        path: &str,
    ) -> Result<Arc<Place>, FolderFault> {
        let lock = match locked(rt, path) {
            Ok(lock) => Some(lock),
            Err(reason) => return Err(fault_of(reason)),
        };
        let Ok(path) = String::from_str(rt.alloc(), path) else {
            return Err(FolderFault::Memory);
        };
        let place = Place {
            path,
            held: Mutex::new(Held { lock, turn: 0 }),
        };
        match Arc::new(rt.alloc(), place) {
            Ok(place) => Ok(place),
            Err(_) => Err(FolderFault::Memory),
        }
    }

    /// Takes the lock of the folder that has the path now, if that is another than the locked one.
    /// Returns how often the lock was taken anew.
    pub(crate) fn held<R: Files<File = File> + Eprint + AllocGlobal + Wait>(
        &self,
        rt: &R,
    ) -> Result<u64, Reason> {
        let there = match fs::metadata(rt, self.path.as_str()) {
            Ok(metadata) => identity_of(&metadata),
            Err(error) => return Err(reason_of(&error)),
        };
        let mut guard = self.held.lock(rt);
        let held = &mut *guard;
        if is_held(&held.lock, there) {
            return Ok(held.turn);
        }
        held.lock = None;
        let lock = locked(rt, self.path.as_str())?;
        held.lock = Some(lock);
        held.turn = held.turn.saturating_add(1);
        let _ = complain(
            rt,
            self.path.as_str(),
            "another folder has this name; records go into it",
        );
        Ok(held.turn)
    }
}

/// Looks every ten seconds whether the folder is still the locked one. Reports why it can't be
/// used, once for each reason.
pub(crate) fn watch<R: Files<File = File> + Eprint + AllocGlobal + Wait + Clock>(
    rt: &R,
    place: &Arc<Place, Global>,
) {
    let mut reported = None;
    for _ in rt.forever() {
        thread::sleep(rt, Duration::from_secs(LOOK));
        match place.held(rt) {
            Ok(_) => reported = None,
            Err(reason) => {
                if reported != Some(reason) {
                    reported = Some(reason);
                    let _ = complain(rt, place.path.as_str(), reason);
                }
            }
        }
    }
}
