//! The folder that receives the files of records.

ghost use Rattle.std.specs.Prelude.{◌≡◌, IfOk};
ghost use Rattle.std.specs.String.{string_bytes};
ghost use Rattle.dfr.specs.Folders.{path_in, WritesFile, WritesPart};

use crate::directory::Directory;
use comtrade_write::write_all_of;
use dfr_live::Sink;
use dfr_recorder::Extent;
use itoa::Buffer;
use std::alloc::{AllocError, Allocator};

/// The code of every error: an empty path, a failed allocation, or a file that could not be created
/// or written in full.
const UNWRITTEN: u32 = 1;

/// A sink that writes record N into the folder `path`, as `recN.cfg` and `recN.dat`. Files that
/// already have these names are replaced. An empty `path` names no folder, and every write fails.
#[derive(Drop)]
pub struct Folder<'a, D, A: Allocator> {
    pub alloc: A,
    /// The folder's path.
    pub path: &'a str,
    /// Where the files are created.
    pub files: D,
}

/// The path of a record's file: `FOLDER/recN` and the ending.
fn path_of<A: Allocator>(
    alloc: A,
    folder: &str,
    number: u64,
    ending: &str,
) -> Result<String<A>, AllocError>
    ensures { IfOk result (λ path. string_bytes path ≡ path_in folder.now number ending.now) }
{
    let mut path = String::from_str(alloc, folder)?;
    path.push_str("/rec")?;
    path.push_str(Buffer::new().format(number))?;
    path.push_str(ending)?;
    Ok(path)
}

/// Creates the file, or empties an existing one, and writes the bytes.
fn write_file<D: Directory>(files: &mut D, path: &str, bytes: &[u8]) -> Result<(), u32>
    ensures { WritesFile D.creates D.closes D.File.contents path.now bytes.now files.old result files.new }
{
    let Some(mut file) = files.create(path) else {
        return Err(UNWRITTEN);
    };
    let written = write_all_of(&mut file, bytes);
    files.close(file);
    match written {
        Ok(()) => Ok(()),
        Err(_) => Err(UNWRITTEN),
    }
}

/// Writes one of a record's two files.
fn write_part<D: Directory, A: Allocator>(
    alloc: A,
    folder: &str,
    files: &mut D,
    number: u64,
    ending: &str,
    bytes: &[u8],
) -> Result<(), u32>
    ensures { WritesPart D.creates D.closes D.File.contents folder.now number ending.now bytes.now
        files.old result files.new }
{
    if folder.is_empty() {
        return Err(UNWRITTEN);
    }
    let Ok(path) = path_of(alloc, folder, number, ending) else {
        return Err(UNWRITTEN);
    };
    write_file(files, path.as_str(), bytes)
}

impl<D: Directory, A: Allocator + Copy> Sink for Folder<'_, D, A> {
    ghost use Rattle.std.specs.Prelude.{◌≡◌};
    ghost use Rattle.dfr.specs.Folders.{PutsFiles};

    ghost puts = { λ s files r t. (t.path ≡ s.path)
        × PutsFiles D.creates D.closes D.File.contents s.path.now files s.files r t.files };

    fn put(&mut self, extent: Extent, cfg: &[u8], dat: &[u8]) -> Result<(), u32> {
        let number = extent.number;
        write_part(self.alloc, self.path, &mut self.files, number, ".cfg", cfg)?;
        write_part(self.alloc, self.path, &mut self.files, number, ".dat", dat)
    }
}
