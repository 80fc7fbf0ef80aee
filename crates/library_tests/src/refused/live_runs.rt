//! Runs in three threads. Which call meets a refused allocation depends on the schedule; whichever it is, the run answers `Memory`,
//! and the sink got nothing or the whole record. And a script's run whose writer fails at each call in turn.

use crate::live::parts::{OneTrigger, Texts, is_report};
use crate::refused::common::{Heap, SCRIPTED};
use crate::refused::refusing::{NOTHING, Outcome, memory_if, noted, right_if};
use crate::samples::{FIRST, MANUAL, pair_in};
use crate::steps::{Start, begun};
use crate::streams::taking;
use comtrade_write::Kind;
use dfr_live::{EndFault, Fed, Feed, LiveFault, LiveReport, OpenFault, run_live};
use dfr_program::{RunFault, live_of};
use dfr_recorder::Step;
use failing_allocator::Refusing;
use std::alloc::{Allocator, Global};
use std::collections::VecDeque;
use std::io::ErrorKind;
use std::sync::Wait;
use std::thread::Threads;

/// Gives scans that were made before, as steps.
#[derive(Drop)]
struct Given<A: Allocator> {
    steps: VecDeque<Step<A>, A>,
}

impl<A: Allocator> Feed<A> for Given<A> {
    fn next(&mut self) -> Result<Fed<A>, u32> {
        match self.steps.pop_front() {
            Some(Step::Scan(scan)) => Ok(Fed::Scan(scan)),
            other => {
                drop(other);
                Ok(Fed::Done)
            }
        }
    }
}

/// The report is let go.
fn is_whole<A: Allocator>(report: LiveReport<A>, got: u64) -> bool {
    let whole = is_report(&report, 6, 1) && got == 1;
    drop(report);
    whole
}

/// A run that was refused an allocation says so.
fn is_memory(fault: LiveFault) -> bool {
    fault == LiveFault::Memory
        || fault == LiveFault::Open(OpenFault::Memory)
        || fault == LiveFault::End(EndFault::Memory)
}

fn outcome_of<A: Allocator>(report: Result<LiveReport<A>, LiveFault>, sink: &Texts) -> Outcome {
    match report {
        Ok(report) => right_if(is_whole(report, sink.got) && sink.are_right),
        Err(fault) => memory_if(sink.are_right && sink.got < 2 && is_memory(fault)),
    }
}

/// A run whose nth allocation is refused, or none where n is 0. Its threads must share the runtime, which no impl of a trait for all
/// runtimes can promise: so these calls have a loop of their own.
fn run<R: Threads + Wait + Sync>(rt: &R, heap: Heap, kind: Kind, n: u64) -> Outcome {
    let Some(Start { recorder, steps }) = begun(heap, SCRIPTED, b"abcdef") else {
        return Outcome::Wrong;
    };
    let mut feed = Given { steps };
    let mut orders = OneTrigger { is_given: false };
    let mut sink = Texts {
        texts: pair_in(kind),
        got: 0,
        are_right: true,
    };
    heap.refuse(n);
    let report = run_live(
        rt,
        heap,
        recorder,
        8,
        kind,
        10_000_000,
        &mut feed,
        &mut orders,
        &mut sink,
    );
    drop(feed);
    outcome_of(report, &sink)
}

/// What a script of one record prints: its trigger's answer, and the counts.
const PRINTED: &[u8] = b"at 4 trigger opened 1\nscans 6 refused 0 records 1 left 0\n";

fn is_printed(done: bool, out: &[u8], sink: &Texts) -> bool {
    done && out == PRINTED && sink.got == 1 && sink.are_right
}

/// A script that is recorded in threads. Out of memory it prints nothing.
fn script<R: Threads + Wait + Sync>(rt: &R, heap: Heap, alloc: Global, n: u64) -> Outcome {
    let mut out = Vec::new(alloc);
    let mut sink = Texts {
        texts: FIRST,
        got: 0,
        are_right: true,
    };
    heap.refuse(n);
    match live_of(rt, heap, MANUAL, Kind::Ascii, &mut sink, &mut out) {
        Ok(done) => right_if(is_printed(done, &out, &sink)),
        Err(fault) => memory_if(fault == RunFault::Memory && out.is_empty() && sink.are_right),
    }
}

/// A call that starts threads.
#[derive(Clone, Copy)]
enum Live {
    Run(Kind),
    Script,
}

fn call<R: Threads + Wait + Sync>(
    rt: &R,
    heap: Heap,
    alloc: Global,
    live: Live,
    n: u64,
) -> Outcome {
    match live {
        Live::Run(kind) => run(rt, heap, kind, n),
        Live::Script => script(rt, heap, alloc, n),
    }
}

/// Refuses each allocation of the call in turn, and makes it again after each refusal; at least one is answered by `Memory`.
fn is_answered<R: Threads + Wait + Sync>(rt: &R, heap: Heap, alloc: Global, live: Live) -> bool {
    let mut seen = NOTHING;
    for n in 1..5000u64 {
        let outcome = call(rt, heap, alloc, live, n);
        match noted(heap, &mut seen, outcome) {
            Some(true) => {
                if call(rt, heap, alloc, live, 0) != Outcome::Right {
                    return false;
                }
            }
            Some(false) => return seen.answered,
            None => return false,
        }
    }
    false
}

#[test]
fn live_runs_refused(rt: HostRuntime) {
    let heap = Refusing::new(rt.alloc());
    for kind in [Kind::Ascii, Kind::Binary] {
        assert!(rt; is_answered(&rt, &heap, rt.alloc(), Live::Run(kind)));
    }
}

#[test]
fn live_scripts_refused(rt: HostRuntime) {
    let heap = Refusing::new(rt.alloc());
    assert!(rt; is_answered(&rt, &heap, rt.alloc(), Live::Script));
}

/// A writer that fails after so many bytes, one a call, has just those, and the sink its record all the same.
fn is_cut_after<R: Threads + Wait + Sync>(rt: &R, alloc: Global, limit: usize) -> bool {
    let mut out = taking(alloc, limit, 1, Some(ErrorKind::Other));
    let mut sink = Texts {
        texts: FIRST,
        got: 0,
        are_right: true,
    };
    let answer = live_of(rt, alloc, MANUAL, Kind::Ascii, &mut sink, &mut out);
    answer == Err(RunFault::Output)
        && PRINTED.get(..limit) == Some(out.taken.as_slice())
        && sink.got == 1
        && sink.are_right
}

#[test]
fn live_scripts_with_a_failing_writer(rt: HostRuntime) {
    for limit in 0..PRINTED.len() {
        assert!(rt; is_cut_after(&rt, rt.alloc(), limit), "after {limit} bytes");
    }
}
