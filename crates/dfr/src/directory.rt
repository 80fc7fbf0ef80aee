//! Where files are created.

use std::fs::File;
use std::io::Write;
use std::rt::Files;

/// Creates files. An implementation may state in `creates` and `closes` what a call does: the
/// directory before it, the path and the file, or the file, and the directory after it.
pub trait Directory {
    ghost use Rattle.std.specs.Prelude.{Option, ℕ, List, ⊤};

    type File: Write;

    ghost creates: { Self → List ℕ → Option Self.File → Self → Type 0 } = { λ _ _ _ _. ⊤ };

    ghost closes: { Self → Self.File → Self → Type 0 } = { λ _ _ _. ⊤ };

    /// Creates the file at this path, or empties an existing one.
    fn create(&mut self, path: &str) -> Option<Self::File>
        ensures { creates self.old path.now result self.new };

    /// Closes the file. All that was written to it stays there.
    fn close(&mut self, file: Self::File)
        ensures { closes self.old file self.new };
}

/// The files of the system. It states nothing: no contract knows what a file has.
#[derive(Drop)]
pub struct Disk<'a, R> {
    /// The runtime that gives access to files.
    pub rt: &'a R,
}

impl<R: Files> Directory for Disk<'_, R> {
    type File = R::File;

    fn create(&mut self, path: &str) -> Option<R::File> {
        File::create(self.rt, path).ok()
    }

    fn close(&mut self, file: R::File) {
        drop(file);
    }
}
