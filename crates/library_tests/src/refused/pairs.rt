//! Pairs that are looked through for a fault, and pairs that are converted.

use crate::refused::common::Heap;
use crate::refused::refusing::{Must, Outcome, Trial, memory_if, refuses, right_if};
use crate::samples::{FIRST_COUNTS, FIRST_DAT, Pair, pair_in};
use comtrade_read::{ConvertFault, Fault, Part, ReadFault, converted, verdict_of};
use comtrade_write::Kind;
use dfr_channels::Memory;
use failing_allocator::Refusing;

/// A pair, and its first fault.
#[derive(Drop)]
struct Judged<'a> {
    heap: Heap<'a>,
    texts: Pair,
    fault: Option<Fault>,
}

impl Trial for Judged<'_> {
    fn call(&mut self) -> Outcome {
        match verdict_of(self.heap, self.texts.cfg, self.texts.dat) {
            Ok(found) => right_if(found == self.fault),
            Err(Memory) => Outcome::Memory,
        }
    }
}

#[test]
fn verdicts_refused(rt: HostRuntime) {
    let heap = Refusing::new(rt.alloc());
    for kind in [Kind::Ascii, Kind::Binary] {
        let judged = Judged {
            heap: &heap,
            texts: pair_in(kind),
            fault: None,
        };
        assert!(rt; refuses(&heap, Some(judged), Must::Answer));
    }
}

/// A pair whose second line is at fault.
const FAULTY: Pair = Pair {
    cfg: FIRST_COUNTS,
    dat: FIRST_DAT,
};

/// Its fault.
const COUNTS: Fault = Fault {
    part: Part::Cfg,
    fault: ReadFault::Counts(2),
};

#[test]
fn faults_refused(rt: HostRuntime) {
    let heap = Refusing::new(rt.alloc());
    let judged = Judged {
        heap: &heap,
        texts: FAULTY,
        fault: Some(COUNTS),
    };
    assert!(rt; refuses(&heap, Some(judged), Must::Answer));
}

/// A pair, and the texts of the same pair in another kind.
#[derive(Drop)]
struct Turned<'a> {
    heap: Heap<'a>,
    texts: Pair,
    kind: Kind,
    wanted: Pair,
}

impl Trial for Turned<'_> {
    fn call(&mut self) -> Outcome {
        match converted(self.heap, self.texts.cfg, self.texts.dat, self.kind) {
            Ok(made) => right_if(
                made.cfg.as_slice() == self.wanted.cfg && made.dat.as_slice() == self.wanted.dat,
            ),
            Err(fault) => memory_if(fault == ConvertFault::Memory),
        }
    }
}

fn turn_refuses(heap: Heap, from: Kind, to: Kind) -> bool {
    let turned = Turned {
        heap,
        texts: pair_in(from),
        kind: to,
        wanted: pair_in(to),
    };
    refuses(heap, Some(turned), Must::Answer)
}

#[test]
fn conversions_refused(rt: HostRuntime) {
    let heap = Refusing::new(rt.alloc());
    assert!(rt; turn_refuses(&heap, Kind::Ascii, Kind::Binary));
    assert!(rt; turn_refuses(&heap, Kind::Binary, Kind::Ascii));
}
