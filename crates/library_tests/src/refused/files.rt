//! The File of a record, what files write, and files that are read again.

use crate::bay::{layout, setup};
use crate::refused::common::{CLOSES, Heap, SCRIPTED};
use crate::refused::refusing::{Must, Outcome, Trial, memory_if, refuses, right_if};
use crate::samples::{Pair as Texts, pair_in};
use crate::steps::taken;
use comtrade_read::{read, read_of_file};
use comtrade_write::{File, FileFault, Kind, WriteFault, cfg_bytes, dat_bytes, file_of};
use dfr_channels::{Items, Layout, Setup};
use dfr_recorder::Record;
use failing_allocator::Refusing;
use std::alloc::Allocator;

/// The File of the two texts of `samples::SCRIPT`.
pub fn file<A: Allocator + Copy>(alloc: A, kind: Kind) -> Option<File<A>> {
    let texts = pair_in(kind);
    read(alloc, texts.cfg, texts.dat).ok()
}

/// Whether these bytes are written.
fn is_text<A: Allocator>(written: Result<Vec<u8, A>, WriteFault>, wanted: &[u8]) -> bool {
    match written {
        Ok(bytes) => bytes.as_slice() == wanted,
        Err(_) => false,
    }
}

/// The file writes this configuration file.
pub fn has_cfg<A: Allocator + Copy>(alloc: A, file: &File<A>, wanted: &[u8]) -> bool {
    is_text(cfg_bytes(alloc, file), wanted)
}

fn is_file_of<A: Allocator + Copy>(alloc: A, file: &File<A>, wanted: Texts) -> bool {
    has_cfg(alloc, file, wanted.cfg) && is_text(dat_bytes(alloc, file), wanted.dat)
}

/// The file, which is let go, writes these texts.
pub fn is_right_file<A: Allocator + Copy>(alloc: A, file: File<A>, wanted: Texts) -> bool {
    let right = is_file_of(alloc, &file, wanted);
    drop(file);
    right
}

/// What a File is made of.
#[derive(Drop)]
struct Taken<A: Allocator> {
    alloc: A,
    layout: Layout<A>,
    record: Record<A>,
}

/// The record of five scans around a trigger, and this layout.
fn with_record<A: Allocator + Copy>(alloc: A, layout: Option<Layout<A>>) -> Option<Taken<A>> {
    match (layout, taken(alloc, SCRIPTED, CLOSES)) {
        (Some(layout), Some(record)) => Some(Taken {
            alloc,
            layout,
            record,
        }),
        (layout, record) => {
            drop(layout);
            drop(record);
            None
        }
    }
}

/// The set-up without its status channel.
fn without_status<A: Allocator + Copy>(alloc: A, setup: Setup<A>) -> Setup<A> {
    let mut other = setup;
    other.status = Items::of(Vec::new(alloc));
    other
}

fn other_layout<A: Allocator + Copy>(alloc: A) -> Option<Layout<A>> {
    match setup(alloc, SCRIPTED) {
        Some(setup) => Layout::new(without_status(alloc, setup)).ok(),
        None => None,
    }
}

/// What a File is read or made from: a file's own texts, a record, or a record over a layout that isn't its own.
#[derive(Drop)]
enum Origin<'a> {
    File(File<Heap<'a>>),
    Record(Taken<Heap<'a>>),
    Foreign(Taken<Heap<'a>>),
}

#[derive(Drop)]
struct Own<'a> {
    origin: Origin<'a>,
    kind: Kind,
}

fn read_again(file: &File<Heap>, kind: Kind) -> Outcome {
    let heap = *file.rows.allocator();
    let again = read_of_file(heap, file);
    heap.refuse_no_more();
    match again {
        Ok(again) => right_if(is_right_file(heap, again, pair_in(kind))),
        Err(fault) => memory_if(fault == WriteFault::Memory),
    }
}

fn make(of: &Taken<Heap>, kind: Kind) -> Outcome {
    let made = file_of(of.alloc, &of.layout, &of.record, kind);
    of.alloc.refuse_no_more();
    match made {
        Ok(file) => right_if(is_right_file(of.alloc, file, pair_in(kind))),
        Err(fault) => memory_if(fault == FileFault::Memory),
    }
}

fn refuse(of: &Taken<Heap>, kind: Kind) -> Outcome {
    match file_of(of.alloc, &of.layout, &of.record, kind) {
        Ok(file) => {
            drop(file);
            Outcome::Wrong
        }
        Err(FileFault::Foreign) => Outcome::Right,
        Err(FileFault::Memory) => Outcome::Memory,
    }
}

impl Trial for Own<'_> {
    fn call(&mut self) -> Outcome {
        match &self.origin {
            Origin::File(file) => read_again(file, self.kind),
            Origin::Record(of) => make(of, self.kind),
            Origin::Foreign(of) => refuse(of, self.kind),
        }
    }
}

fn own_text(heap: Heap, kind: Kind) -> Option<Own> {
    let origin = Origin::File(file(heap, kind)?);
    Some(Own { origin, kind })
}

fn own_record(heap: Heap, kind: Kind) -> Option<Own> {
    let origin = Origin::Record(with_record(heap, layout(heap, SCRIPTED))?);
    Some(Own { origin, kind })
}

fn foreign(heap: Heap, kind: Kind) -> Option<Own> {
    let origin = Origin::Foreign(with_record(heap, other_layout(heap))?);
    Some(Own { origin, kind })
}

/// A record of another layout is foreign, or an allocation failed.
#[test]
fn files_refused(rt: HostRuntime) {
    let heap = Refusing::new(rt.alloc());
    for kind in [Kind::Ascii, Kind::Binary] {
        assert!(rt; refuses(&heap, own_text(&heap, kind), Must::Answer));
        assert!(rt; refuses(&heap, own_record(&heap, kind), Must::AnswerEach));
        assert!(rt; refuses(&heap, foreign(&heap, kind), Must::May));
    }
}
