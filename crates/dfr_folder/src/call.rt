//! The calls of a folder, and how each ended.

use crate::name::Name;

/// A call, and how it ended.
#[derive(Clone, Copy, Debug, PartialEq, Eq)]
pub enum Call {
    /// A file was written.
    Wrote(Name),
    /// Writing a file failed: there may be a part of it.
    WroteInPart(Name),
    /// A file was synced.
    Synced(Name),
    /// A file was renamed.
    Renamed(Name, Name),
    /// Renaming a file failed: a crash may show it renamed.
    NotRenamed(Name, Name),
    /// A file was removed.
    Removed(Name),
    /// Removing a file failed: a crash may show it removed.
    NotRemoved(Name),
    /// The names were synced.
    SyncedNames,
    /// The directory was read.
    Looked,
    /// A call failed that changes nothing.
    Failed,
}
