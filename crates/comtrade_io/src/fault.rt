//! Why a tool stopped.

ghost use Rattle.std.specs.Prelude.{◌≡◌};
ghost use Rattle.comtrade_io.specs.declared.fault.ToolFault.TheVariants as fault;
ghost use Rattle.comtrade_io.specs.Faults as Faults;

use comtrade_values::Memory;
use std::io::ErrorKind;
use thiserror::Error;

/// Why a tool stopped. What was written before stays written.
#[derive(Clone, Copy, Debug, PartialEq, Eq, Error)]
pub enum ToolFault {
    /// No file or folder has this name.
    #[error("no such file or folder")]
    NoFile,
    /// The system doesn't let it be opened.
    #[error("no permission")]
    Denied,
    /// A file of this name is there, and isn't written over.
    #[error("already exists, and was left as it is")]
    Exists,
    /// A folder stands in a file's place.
    #[error("is a folder")]
    Folder,
    /// A single file, where a pair is asked for.
    #[error("is a single file, not a pair of 1999")]
    Single,
    /// Links lead back to themselves.
    #[error("is a link that leads to itself")]
    Loop,
    /// A read failed.
    #[error("cannot be read")]
    Input,
    /// More came than is read.
    #[error("is longer than 536870912 bytes")]
    Long,
    /// A file that was begun is taken away again, since its pair isn't whole.
    #[error("was removed again, because the whole pair could not be written")]
    Removed,
    /// A file that was begun can't be taken away, though its pair isn't whole.
    #[error("could not be removed; an incomplete pair is left behind")]
    Left,
    /// A write failed.
    #[error("cannot be written")]
    Output,
    /// Who reads what is written has gone away.
    #[error("is closed")]
    Closed,
    /// An allocation failed.
    #[error("out of memory")]
    Memory,
}

/// What an error of the system is, or `other` where it is none of these.
pub fn fault_of(kind: ErrorKind, other: ToolFault) -> ToolFault
    ensures { result ≡ Faults.fault_of kind other }
{
    match kind {
        ErrorKind::NotFound => ToolFault::NoFile,
        ErrorKind::PermissionDenied => ToolFault::Denied,
        ErrorKind::AlreadyExists => ToolFault::Exists,
        ErrorKind::IsADirectory => ToolFault::Folder,
        ErrorKind::FilesystemLoop => ToolFault::Loop,
        ErrorKind::BrokenPipe => ToolFault::Closed,
        ErrorKind::OutOfMemory => ToolFault::Memory,
        _ => other,
    }
}

/// Whatever says that memory ran out.
impl<E: Drop> From<E> for ToolFault
where
    Memory: From<E>,
{
    ghost from_gives = { λ _ e. e ≡ fault.Memory };

    fn from(_error: E) -> ToolFault {
        ToolFault::Memory
    }
}
