//! Records that share no scan: a covered trigger allocates nothing but its entry, and the next one goes on as if nothing had
//! happened.

use crate::refused::common::Heap;
use crate::refused::live_calls::{FOUR, PUMP, RECORD, RECORDS, TAKES};
use crate::refused::live_ends::Leaving;
use crate::refused::live_play::{Act, Play, is_played};
use crate::refused::recorder::{are_scanned, gives_the_record, opens};
use crate::refused::token_calls::Call;
use dfr_recorder::{Hit, Recorder, TriggerFault};
use failing_allocator::Refusing;

/// While every allocation is refused.
fn is_covered<'a>(heap: Heap<'a>, recorder: &mut Recorder<Heap<'a>>) -> bool {
    heap.refuse_all();
    let answer = recorder.trigger();
    heap.refuse_none();
    answer == Err(TriggerFault::Covered)
}

pub fn covers<'a>(heap: Heap<'a>, recorder: &mut Recorder<Heap<'a>>) -> bool {
    are_scanned(heap, recorder, &[10, 11, 12, 13])
        && recorder.trigger() == Ok(Hit::Opened(1))
        && are_scanned(heap, recorder, &[14, 15])
        && is_covered(heap, recorder)
        && gives_the_record(recorder)
        && is_covered(heap, recorder)
        && are_scanned(heap, recorder, &[16])
        && opens(heap, recorder, 2)
}

const COVERED: Act = Act::Token(Call::Trigger(Err(TriggerFault::Covered)), None);

/// Covered triggers, which need room for their entries alone; after one more scan a trigger opens.
const COVERS: &[Act] = &[
    COVERED,
    TAKES,
    COVERED,
    Act::Offer(&[16]),
    PUMP,
    Act::Token(Call::Trigger(Ok(Hit::Opened(2))), Some(true)),
];

#[test]
fn covered_calls_refused(rt: HostRuntime) {
    let heap = Refusing::new(rt.alloc());
    let leaving = Leaving {
        scans: 7,
        ..RECORD.leaving
    };
    let play = Play {
        is_shared: false,
        acts: &[FOUR, RECORDS, COVERS],
        leaving,
        ..RECORD
    };
    assert!(rt; is_played(&rt, &heap, &heap, play));
}
