//! That a recorder holds nothing besides what contracts see: its memory grows neither with its scans nor with the records that were
//! taken.

use crate::bay::{BAY, recorder};
use crate::steps::{is_scanned, value};
use dfr_recorder::Recorder;
use linked_list_allocator::LocalHeap;
use std::alloc::Allocator;
use std::test::Fail;

type Local<'a> = Recorder<&'a LocalHeap>;

fn takes_scans<'a>(heap: &'a LocalHeap, recorder: &mut Local<'a>, n: u32) -> bool {
    for _ in 0..n {
        if !is_scanned(recorder, value(heap, 0)) {
            return false;
        }
    }
    true
}

fn takes_lost_scans(recorder: &mut Local, n: u32) -> bool {
    for _ in 0..n {
        if recorder.lost().is_err() {
            return false;
        }
    }
    true
}

/// Whether a record is taken, and let go.
pub fn takes<A: Allocator>(recorder: &mut Recorder<A>) -> bool {
    let taken = recorder.take();
    let some = taken.is_some();
    drop(taken);
    some
}

/// A record that is opened, closed, taken and dropped.
fn makes_a_record<'a>(heap: &'a LocalHeap, recorder: &mut Local<'a>) -> bool {
    recorder.trigger().is_ok() && takes_scans(heap, recorder, 2) && takes(recorder)
}

fn makes_records<'a>(heap: &'a LocalHeap, recorder: &mut Local<'a>, n: u32) -> bool {
    for _ in 0..n {
        if !makes_a_record(heap, recorder) {
            return false;
        }
    }
    true
}

/// Whether as much of the heap is used after many scans, after many lost ones and three that fill the ring with scans like those
/// before, and after many records.
fn stays<'a>(heap: &'a LocalHeap, recorder: &mut Local<'a>) -> bool {
    let before = heap.used();
    takes_scans(heap, recorder, 1200)
        && heap.used() == before
        && takes_lost_scans(recorder, 1200)
        && takes_scans(heap, recorder, 3)
        && heap.used() == before
        && makes_records(heap, recorder, 50)
        && heap.used() == before
}

/// The ring is full after three scans.
fn stays_when_full(heap: &LocalHeap) -> bool {
    is_some_and!(recorder(heap, BAY), |mut recorder| {
        takes_scans(heap, &mut recorder, 3) && stays(heap, &mut recorder)
    })
}

#[test]
fn memory_stays(rt: HostRuntime) -> Result<(), Fail> {
    let heap = LocalHeap::new(rt.alloc(), 1 << 16)?;
    assert!(rt; stays_when_full(&heap));
    assert_eq!(rt; heap.used(), 0);
    Ok(())
}
