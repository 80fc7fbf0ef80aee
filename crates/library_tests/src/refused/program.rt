//! Scripts replayed and pairs of files read: what was written is the front of the whole output.

use crate::refused::common::Heap;
use crate::refused::refusing::{Must, Outcome, Trial, memory_if, refuses, refuses_lent, right_if};
use crate::samples::{CFG, FIRST_CFG, FIRST_COUNTS, FIRST_DAT, MANUAL};
use comtrade_write::Kind;
use dfr_program::{InputFault, RunFault, read_all, read_over, replay_over};
use failing_allocator::Refusing;
use std::alloc::{Allocator, Global};

/// A record that grows to its greatest length, and one more that opens beside it.
const LEVEL: &[u8] =
    b"station Bay 1\ndevice DFR\nanalog IA,A,,A,1,0,0,-32767,32767,1,1,P\nfreq 50\nrate 1000\nstart 0\nlimits 2,2,6,2\nrules level 0 over 100\ngo\nscan 0/\nscan 0/\nscan 0/\nscan 100/\nscan 100/\nscan 100/\nscan 100/\nscan 100/\ntake\ntake\n";

/// What a call answers and writes with enough memory.
#[derive(Clone, Copy)]
struct Wanted<'a> {
    done: bool,
    text: &'a [u8],
}

/// How a call went that answered and wrote this; `most` is the greatest length that was written where it was out of memory.
fn outcome_of(
    answer: Result<bool, RunFault>,
    written: &[u8],
    wanted: Wanted,
    most: &mut usize,
) -> Outcome {
    match answer {
        Ok(done) => right_if(done == wanted.done && written == wanted.text),
        Err(fault) => {
            *most = written.len().max(*most);
            memory_if(fault == RunFault::Memory && wanted.text.starts_with(written))
        }
    }
}

/// A script that is replayed, and the greatest length of what was written where it was out of memory.
#[derive(Drop)]
struct Replay<'a> {
    heap: Heap<'a>,
    alloc: Global,
    script: &'a [u8],
    kind: Kind,
    wanted: Wanted<'a>,
    most: usize,
}

impl Trial for Replay<'_> {
    fn call(&mut self) -> Outcome {
        let mut out = Vec::new(self.alloc);
        let mut input = self.script;
        let answer = replay_over(self.heap, &mut input, &mut out, self.kind);
        outcome_of(answer, &out, self.wanted, &mut self.most)
    }
}

fn most_written<'a>(
    heap: Heap<'a>,
    alloc: Global,
    script: &'a [u8],
    kind: Kind,
    wanted: Wanted<'a>,
) -> Option<usize> {
    let mut replay = Replay {
        heap,
        alloc,
        script,
        kind,
        wanted,
        most: 0,
    };
    refuses_lent(heap, &mut replay, Must::Answer).then_some(replay.most)
}

/// Some replay that was refused an allocation wrote at least these answers.
fn replay_refuses(heap: Heap, alloc: Global, script: &[u8], kind: Kind, answers: &[u8]) -> bool {
    let mut out = Vec::new(alloc);
    let mut input = script;
    match replay_over(heap, &mut input, &mut out, kind) {
        Ok(done) => {
            let wanted = Wanted { done, text: &out };
            match most_written(heap, alloc, script, kind, wanted) {
                Some(most) => out.starts_with(answers) && most >= answers.len(),
                None => false,
            }
        }
        Err(_) => false,
    }
}

fn replays_refuse(heap: Heap, alloc: Global) -> bool {
    let mut all = true;
    for (script, answers) in [
        (
            MANUAL,
            b"scan 0\nscan 1\nscan 2\nscan 3\ntrigger opened 1\nscan 4\nscan 5 closed 1\n".as_slice(),
        ),
        (
            LEVEL,
            b"scan 0\nscan 1\nscan 2\nscan 3 opened 1\nscan 4 extended 1\nscan 5 at-limit 1\nscan 6 at-limit 1 closed 1\nscan 7 opened 2\n",
        ),
        (
            // The same set-up with a line that names no channel.
            b"station Bay 1\ndevice DFR\nanalog IA,A,,A,1,0,0,-32767,32767,1,1,P\nfreq 50\nrate 1000\nstart 0\nlimits 2,2,6,2\nrules level 1 over 100\ngo\nscan 0/\n".as_slice(),
            b"",
        ),
    ] {
        for kind in [Kind::Ascii, Kind::Binary] {
            all = replay_refuses(heap, alloc, script, kind, answers) && all;
        }
    }
    all
}

/// A pair of files whose contents are printed.
#[derive(Drop)]
struct Reading<'a> {
    heap: Heap<'a>,
    alloc: Global,
    cfg: &'a [u8],
    dat: &'a [u8],
    wanted: Wanted<'a>,
}

impl Trial for Reading<'_> {
    fn call(&mut self) -> Outcome {
        let mut out = Vec::new(self.alloc);
        let mut most = 0usize;
        let answer = read_over(self.heap, self.cfg, self.dat, &mut out);
        outcome_of(answer, &out, self.wanted, &mut most)
    }
}

fn readings_refuse(heap: Heap, alloc: Global) -> bool {
    let mut all = true;
    let counts = b"cfg fault counts 2\n".as_slice();
    for (cfg, dat, done, text) in [
        (
            CFG,
            b"1,0,5\r\n".as_slice(),
            true,
            b"station Bay 1\ndevice DFR\nanalog 1 status 0 rows 1\nfirst 0 trigger 0\n".as_slice(),
        ),
        (b"Bay 1,DFR,1999\n2,1A,0D\n", b"1,0,5\r\n", false, counts),
        (
            FIRST_CFG,
            FIRST_DAT,
            true,
            b"station Bay 1\ndevice DFR\nanalog 1 status 0 rows 5\nfirst 1000 trigger 3000\n",
        ),
        (FIRST_COUNTS, FIRST_DAT, false, counts),
    ] {
        let reading = Reading {
            heap,
            alloc,
            cfg,
            dat,
            wanted: Wanted { done, text },
        };
        all = refuses(heap, Some(reading), Must::Answer) && all;
    }
    all
}

#[test]
fn replays_and_readings_refused(rt: HostRuntime) {
    let heap = Refusing::new(rt.alloc());
    assert!(rt; replays_refuse(&heap, rt.alloc()));
    assert!(rt; readings_refuse(&heap, rt.alloc()));
}

/// The bytes of a script.
#[derive(Drop)]
struct Input<A: Allocator> {
    alloc: A,
}

impl<A: Allocator + Copy> Trial for Input<A> {
    fn call(&mut self) -> Outcome {
        let mut input = LEVEL;
        match read_all(self.alloc, &mut input) {
            Ok(bytes) => right_if(bytes.as_slice() == LEVEL),
            Err(fault) => memory_if(fault == InputFault::Memory),
        }
    }
}

#[test]
fn inputs_refused(rt: HostRuntime) {
    let heap = Refusing::new(rt.alloc());
    assert!(rt; refuses(&heap, Some(Input { alloc: &heap }), Must::Answer));
}
