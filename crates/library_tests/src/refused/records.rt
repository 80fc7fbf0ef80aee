//! The record that a recorder gives, written and read back.

use crate::refused::common::{CLOSES, Heap, SCRIPTED};
use crate::refused::refusing::{Consuming, Must, Outcome, refuses_anew, right_if};
use crate::samples::{Pair as Texts, pair_in};
use crate::steps::recorder_after;
use comtrade_write::{File, Kind, Pair, pair_of};
use dfr_channels::Memory;
use dfr_program::read_of_record;
use dfr_recorder::Recorder;
use failing_allocator::Refusing;
use std::alloc::Allocator;

/// The bytes of a record's two files, or what is read of them.
#[derive(Drop)]
struct Given<A: Allocator> {
    alloc: A,
    kind: Kind,
    is_read: bool,
}

fn is_pair_of<A: Allocator>(pair: &Pair<A>, texts: Texts) -> bool {
    pair.cfg.as_slice() == texts.cfg && pair.dat.as_slice() == texts.dat
}

fn written_as<A: Allocator>(written: Result<Pair<A>, Memory>, texts: Texts) -> Outcome {
    match written {
        Ok(pair) => right_if(is_pair_of(&pair, texts)),
        Err(Memory) => Outcome::Memory,
    }
}

fn has_five_rows<A: Allocator>(file: File<A>) -> bool {
    let five = file.rows.items().len() == 5;
    drop(file);
    five
}

fn read_as<A: Allocator>(read: Result<File<A>, Memory>) -> Outcome {
    match read {
        Ok(file) => right_if(has_five_rows(file)),
        Err(Memory) => Outcome::Memory,
    }
}

/// The record that waits, written or read.
fn outcome_of<A: Allocator + Copy>(of: &Given<A>, recorder: &mut Recorder<A>) -> Outcome {
    let Some(record) = recorder.take() else {
        return Outcome::Wrong;
    };
    let layout = recorder.layout();
    let outcome = if of.is_read {
        read_as(read_of_record(of.alloc, layout, &record, of.kind))
    } else {
        written_as(
            pair_of(of.alloc, layout, &record, of.kind),
            pair_in(of.kind),
        )
    };
    drop(record);
    outcome
}

impl<A: Allocator + Copy> Consuming for Given<A> {
    type Made = Recorder<A>;

    fn make(&self) -> Option<Recorder<A>> {
        recorder_after(self.alloc, SCRIPTED, CLOSES)
    }

    fn call(&self, recorder: Recorder<A>) -> Outcome {
        let mut recorder = recorder;
        let outcome = outcome_of(self, &mut recorder);
        drop(recorder);
        outcome
    }
}

fn record_refuses(heap: Heap, kind: Kind, is_read: bool) -> bool {
    let given = Given {
        alloc: heap,
        kind,
        is_read,
    };
    refuses_anew(heap, given, Must::Answer)
}

#[test]
fn records_refused(rt: HostRuntime) {
    let heap = Refusing::new(rt.alloc());
    for (kind, is_read) in [
        (Kind::Ascii, false),
        (Kind::Binary, false),
        (Kind::Binary, true),
    ] {
        assert!(rt; record_refuses(&heap, kind, is_read));
    }
}
