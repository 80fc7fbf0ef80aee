//! The File of a record that a recorder took.

ghost use Rattle.std.specs.Prelude.{IsTrue};
ghost use Rattle.dfr_recorder.specs.Own.{is_own};

use crate::bay::FAST;
use crate::steps::recorder_after;
use comtrade_write::{File, FileFault, Kind, file_of};
use dfr_channels::Layout;
use dfr_recorder::{Record, Recorder};
use std::alloc::Global;

/// The File of a record over the layout of the recorder that gave it: that it is never foreign is proved here.
fn file_of_own(alloc: Global, layout: &Layout, taken: &Record) -> Option<File>
    requires { IsTrue (is_own layout.now taken.now) }
{
    match file_of(alloc, layout, taken, Kind::Binary) {
        Ok(file) => Some(file),
        Err(FileFault::Memory) => None,
        Err(FileFault::Foreign) => unreachable!(),
    }
}

fn is_some(file: Option<File>) -> bool {
    let some = file.is_some();
    drop(file);
    some
}

/// Whether the recorder gives a record whose File is made.
fn gives_a_file(alloc: Global, recorder: &mut Recorder) -> bool {
    match recorder.take() {
        Some(taken) => {
            let file = file_of_own(alloc, recorder.layout(), &taken);
            drop(taken);
            is_some(file)
        }
        None => false,
    }
}

/// A trigger at the first scan, and three scans after it.
fn closed_gives_a_file(alloc: Global) -> bool {
    is_some_and!(recorder_after(alloc, FAST, b"1!234"), |mut recorder| {
        gives_a_file(alloc, &mut recorder)
    })
}

#[test]
fn file_of_the_next_record(rt: HostRuntime) {
    assert!(rt; closed_gives_a_file(rt.alloc()));
}
