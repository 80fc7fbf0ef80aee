//! Messages on standard error.

ghost use Rattle.std.specs.Prelude.{◌≡◌};

use comtrade_io::put_safe;
use dfr_folder::Fault;
use std::fmt::Display;
use std::io;
use std::io::ErrorKind;
use thiserror::Error;

/// Why the system doesn't do something with a file or a folder.
#[derive(Clone, Copy, Debug, PartialEq, Eq, Error)]
pub enum Reason {
    /// No file or folder has this name, or a file stands in a folder's place.
    #[error("no such file or folder")]
    Gone,
    /// The system denies access.
    #[error("no permission")]
    Denied,
    /// Nothing can be written on this file system.
    #[error("a read-only file system")]
    ReadOnly,
    /// The disk is full, or a quota is used up.
    #[error("no space left")]
    Full,
    /// A limit on the size of a file.
    #[error("above the limit on the size of a file")]
    Large,
    /// A folder stands in a file's place.
    #[error("is a folder")]
    Folder,
    /// Another `dfrd` has locked the folder.
    #[error("in use by another dfrd")]
    Taken,
    /// An allocation failed.
    #[error("out of memory")]
    Memory,
    /// Any other error.
    #[error("an error of the system")]
    Other,
}

/// The reason that an error of the system names.
pub(crate) fn reason_of(error: &io::Error) -> Reason {
    match error.kind() {
        ErrorKind::NotFound | ErrorKind::NotADirectory => Reason::Gone,
        ErrorKind::PermissionDenied => Reason::Denied,
        ErrorKind::ReadOnlyFilesystem => Reason::ReadOnly,
        ErrorKind::StorageFull | ErrorKind::QuotaExceeded => Reason::Full,
        ErrorKind::FileTooLarge => Reason::Large,
        ErrorKind::IsADirectory => Reason::Folder,
        ErrorKind::OutOfMemory => Reason::Memory,
        _ => Reason::Other,
    }
}

/// Why a pair could not be put: the fault of its own calls. Only another fault is told by the reason
/// of the last call that failed, as that may be of another call.
pub(crate) fn reason_for(fault: Fault, last: Reason) -> Reason
    ensures full { result ≡ Reason.Full → fault ≡ Fault.Full }
    ensures memory { result ≡ Reason.Memory → fault ≡ Fault.Memory }
{
    match (fault, last) {
        (Fault::Full, _) => Reason::Full,
        (Fault::Memory, _) => Reason::Memory,
        (Fault::Failed, Reason::Full | Reason::Memory) => Reason::Other,
        (Fault::Failed, reason) => reason,
    }
}

/// What can't be done with a file, and why.
#[derive(Clone, Copy, Debug, PartialEq, Eq, Error)]
pub(crate) enum FileFault {
    /// A file of a pair that is removed.
    #[error("cannot be removed: {0}")]
    Removed(Reason),
    /// A file that an interrupted recording left.
    #[error("cannot be tidied up: {0}")]
    Tidied(Reason),
    /// The operator's file.
    #[error("cannot be read: {0}")]
    Read(Reason),
    /// The file of the recording's health.
    #[error("cannot be written: {0}")]
    Written(Reason),
    /// The file of events, whose last line an earlier run left.
    #[error("the last line is not whole; it is left as it is")]
    Torn,
    /// A file that is to have events, and has something else.
    #[error("is not a file of events")]
    NoEvents,
    /// The file of events, while the disk is slow or takes nothing.
    #[error("changes are missing, as too many wait to be written")]
    Behind,
    /// The file of events at the end: bytes that waited, and changes that had no room.
    #[error("{0} bytes and {1} changes were not written")]
    Unwritten(u64, u64),
    /// The folder, which another `dfrd` may then use too.
    #[error("cannot be locked: {0}")]
    Locked(Reason),
    /// The folder, after files were renamed or removed in it.
    #[error("cannot be synced: {0}")]
    Synced(Reason),
    /// The folder, if it has data files without a configuration file.
    #[error("data files without a .cfg are left as they are: {0}")]
    Alone(u64),
    /// The configuration file of a pair that was removed for a new one.
    #[error("removed, as there is no space left for a new pair")]
    GivenUp,
}

/// Prints that an allocation failed, without allocating. Returns the exit status, 1.
pub(crate) fn out_of_memory<R: Eprint>(rt: &R) -> u8 {
    let _ = eprintln!(rt; "dfrd: out of memory");
    1
}

/// Prints `dfrd: NAME: ERROR`, the name in printable characters. Returns the exit status, 1.
pub(crate) fn complain<R: Eprint + AllocGlobal, F: Display + Drop>(
    rt: &R,
    name: &str,
    fault: F,
) -> u8 {
    let mut safe = Vec::new(rt.alloc());
    if put_safe(&mut safe, name.as_bytes()).is_err() {
        return out_of_memory(rt);
    }
    if let Ok(name) = str::from_utf8(&safe) {
        let _ = eprintln!(rt; "dfrd: {name}: {fault}");
    }
    1
}
