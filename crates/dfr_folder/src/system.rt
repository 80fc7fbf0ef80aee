//! What the files of a folder are asked for, and what is supposed of the folder as it is opened.

ghost use Rattle.std.specs.Prelude.{ℕ, List, []};
ghost use Rattle.dfr_folder.specs.declared.name.Name.{Name};
ghost use Rattle.dfr_folder.specs.Directory.{Content};

use crate::directory::Fault;
use crate::name::{Name, Seen};
use std::alloc::Global;

/// The calls of a folder, of the operating system or in memory. Nothing that they answer is
/// believed but that they did what they were asked for. No other program changes the files.
pub trait System {
    /// The files that are there.
    fn list(&mut self, alloc: Global) -> Result<Vec<Seen>, Fault>;

    /// Writes a new file.
    fn write(&mut self, name: Name, bytes: &[u8]) -> Result<(), Fault>;

    /// Syncs a file.
    fn sync(&mut self, name: Name) -> Result<(), Fault>;

    /// Renames a file.
    fn rename(&mut self, from: Name, to: Name) -> Result<(), Fault>;

    /// Removes a file, if there is one.
    fn remove(&mut self, name: Name) -> Result<(), Fault>;

    /// Syncs the folder.
    fn sync_names(&mut self) -> Result<(), Fault>;
}

/// What a folder holds as it is opened, which no code can know. A function over `S: Start` is proved
/// for all of it.
pub trait Start: Drop {
    /// The bytes that no call was given: at 0 those that each file has, and at the number of a call
    /// those that it leaves if it is a write that fails.
    ghost bytes: { ℕ → Name → List ℕ };

    /// What a crash may leave.
    ghost may_leave: { Content → Type 0 };
}

/// For a program to name.
#[derive(Drop)]
pub struct Unknown;

impl Start for Unknown {
    ghost bytes = { λ call name. [] };

    ghost may_leave = { λ c. Unit {0} };
}
