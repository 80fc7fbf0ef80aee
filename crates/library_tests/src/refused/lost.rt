//! Lost scans of a recorder.

use crate::refused::common::{Heap, scan};
use crate::refused::refusing::{Outcome, Trial, goes_on, memory_if, right_if};
use crate::steps::is_scanned;
use dfr_channels::{Reading, Scan};
use dfr_recorder::{LostRefusal, Record, Recorder};
use std::alloc::Allocator;

/// A lost scan, which closes this record or none.
#[derive(Drop)]
struct Losing<'r, A: Allocator> {
    recorder: &'r mut Recorder<A>,
    closed: Option<u64>,
}

impl<A: Allocator + Copy> Trial for Losing<'_, A> {
    fn call(&mut self) -> Outcome {
        let held = self.recorder.held();
        match self.recorder.lost() {
            Ok(scanned) => right_if(scanned.trigger.is_none() && scanned.closed == self.closed),
            Err(fault) => {
                memory_if(fault == LostRefusal::Memory && self.recorder.held() == held)
            }
        }
    }
}

pub fn loses<'a>(heap: Heap<'a>, recorder: &mut Recorder<Heap<'a>>, closed: Option<u64>) -> bool {
    goes_on(heap, &mut Losing { recorder, closed }, Some(true))
}

fn is_lost<A: Allocator>(scan: &Scan<A>) -> bool {
    matches!(scan.analog(), [Reading::Missing]) && matches!(scan.status(), [false])
}

/// A scan and two lost ones.
fn has_gaps<A: Allocator>(record: &Record<A>) -> bool {
    match record.scans() {
        [first, second, third] => !is_lost(first) && is_lost(second) && is_lost(third),
        _ => false,
    }
}

/// It is let go.
fn had_gaps<A: Allocator>(record: Record<A>) -> bool {
    let gaps = has_gaps(&record);
    drop(record);
    gaps
}

fn gives_gaps<A: Allocator>(recorder: &mut Recorder<A>) -> bool {
    match recorder.take() {
        Some(record) => had_gaps(record),
        None => false,
    }
}

/// The second lost scan after the trigger closes its record; another comes with no record open.
pub fn loses_after_a_scan<'a>(heap: Heap<'a>, recorder: &mut Recorder<Heap<'a>>) -> bool {
    is_scanned(recorder, scan(heap, 10, false))
        && recorder.trigger().is_ok()
        && loses(heap, recorder, None)
        && loses(heap, recorder, Some(1))
        && gives_gaps(recorder)
        && loses(heap, recorder, None)
}
