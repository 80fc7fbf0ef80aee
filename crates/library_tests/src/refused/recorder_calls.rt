//! The calls of a recorder: each that is refused an allocation goes on, made again, as if nothing had happened.

use crate::recorder::memory::takes;
use crate::refused::common::{Heap, scan};
use crate::refused::lost::{loses, loses_after_a_scan};
use crate::refused::recorder::{are_scanned, gives_the_record, opens, recorder_of};
use crate::refused::refusing::{Outcome, Trial, goes_on, memory_if, put_back, right_if};
use crate::refused::unshared::covers;
use crate::steps::is_scanned;
use dfr_channels::Scan;
use dfr_recorder::{Hit, Recorder, ScanRefusal, Scanned, TriggerFault};
use failing_allocator::Refusing;
use std::alloc::Allocator;

/// What a scan is answered, whatever allocation was refused before, and whether it allocates.
#[derive(Clone, Copy)]
struct Wanted {
    x: i32,
    fired: bool,
    closed: Option<u64>,
    allocates: bool,
}

fn is_answer(scanned: Scanned, wanted: Wanted) -> bool {
    scanned.trigger.is_some() == wanted.fired && scanned.closed == wanted.closed
}

/// The step of a scan, which comes back where there is no memory for it.
#[derive(Drop)]
struct Stepping<'r, A: Allocator> {
    recorder: &'r mut Recorder<A>,
    next: Option<Scan<A>>,
    wanted: Wanted,
}

impl<A: Allocator + Copy> Trial for Stepping<'_, A> {
    fn call(&mut self) -> Outcome {
        let held = self.recorder.held();
        match self.next.take() {
            Some(scan) => match self.recorder.scan(scan) {
                Ok(scanned) => right_if(is_answer(scanned, self.wanted)),
                Err((fault, back)) => {
                    put_back(&mut self.next, back);
                    memory_if(fault == ScanRefusal::Memory && self.recorder.held() == held)
                }
            },
            None => Outcome::Wrong,
        }
    }
}

fn scan_goes_on<'a>(heap: Heap<'a>, recorder: &mut Recorder<Heap<'a>>, wanted: Wanted) -> bool {
    let mut stepping = Stepping {
        recorder,
        next: scan(heap, wanted.x, false),
        wanted,
    };
    let right = goes_on(heap, &mut stepping, Some(wanted.allocates));
    drop(stepping);
    right
}

const SCANS: [(i32, bool, Option<u64>, bool); 8] = [
    (10, false, None, false),
    (11, false, None, false),
    (12, false, None, false),
    (100, true, None, true),
    (13, false, None, true),
    (14, false, Some(1), true),
    (15, false, None, false),
    (16, false, None, false),
];

fn scans_go_on<'a>(heap: Heap<'a>, recorder: &mut Recorder<Heap<'a>>) -> bool {
    let mut all = true;
    for (x, fired, closed, allocates) in SCANS {
        let wanted = Wanted {
            x,
            fired,
            closed,
            allocates,
        };
        all = scan_goes_on(heap, recorder, wanted) && all;
    }
    all && gives_the_record(recorder)
}

/// What doesn't allocate is answered while every allocation is refused.
fn is_idle<'a>(
    heap: Heap<'a>,
    recorder: &mut Recorder<Heap<'a>>,
    first: Option<Scan<Heap<'a>>>,
    second: Option<Scan<Heap<'a>>>,
) -> bool {
    heap.refuse_all();
    let first = is_scanned(recorder, first);
    let second = is_scanned(recorder, second);
    first
        && second
        && !takes(recorder)
        && recorder.trigger().err() == Some(TriggerFault::Memory)
        && !recorder.is_recording()
}

fn idles<'a>(heap: Heap<'a>, recorder: &mut Recorder<Heap<'a>>) -> bool {
    let idle = is_idle(heap, recorder, scan(heap, 1, false), scan(heap, 2, false));
    heap.refuse_none();
    idle && recorder.trigger().ok() == Some(Hit::Opened(1))
}

/// Opens a record of two scans before the last.
fn triggers<'a>(heap: Heap<'a>, recorder: &mut Recorder<Heap<'a>>) -> bool {
    are_scanned(heap, recorder, &[10, 11, 12]) && opens(heap, recorder, 1)
}

/// What a recorder is asked for.
#[derive(Clone, Copy, Debug)]
enum Case {
    /// Scans, among them one that opens a record. This case and `runs_refused` refuse a recorder that keeps every scan in a hidden
    /// list, which no contract sees: where the list can't grow and the scan is answered all the same, another allocation than the
    /// recorder's was refused.
    Scans,
    /// Scans that meet no open record and open none, and what doesn't allocate, while every allocation is refused.
    Idle,
    Trigger,
    /// Lost scans around a record.
    Lost,
    /// The first scan of all is lost: its bits are the normal states.
    FirstLost,
    /// Triggers at a recorder whose records share no scan.
    Covered,
}

fn is_right<'a>(heap: Heap<'a>, recorder: &mut Recorder<Heap<'a>>, case: Case) -> bool {
    match case {
        Case::Scans => scans_go_on(heap, recorder),
        Case::Idle => idles(heap, recorder),
        Case::Trigger => triggers(heap, recorder),
        Case::Lost => loses_after_a_scan(heap, recorder),
        Case::FirstLost => loses(heap, recorder, None),
        Case::Covered => covers(heap, recorder),
    }
}

fn is_played(heap: Heap, case: Case) -> bool {
    match recorder_of(heap, !matches!(case, Case::Covered)) {
        Some(mut recorder) => is_right(heap, &mut recorder, case),
        None => false,
    }
}

#[test]
fn recorder_calls_refused(rt: HostRuntime) {
    let heap = Refusing::new(rt.alloc());
    for case in [
        Case::Scans,
        Case::Idle,
        Case::Trigger,
        Case::Lost,
        Case::FirstLost,
        Case::Covered,
    ] {
        assert!(rt; is_played(&heap, case), "{case:?}");
    }
}
