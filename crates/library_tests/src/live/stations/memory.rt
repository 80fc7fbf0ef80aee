//! Each allocation of a station refused in turn: it is said, at most one scan is lost by it, no
//! pair is in halves, and the end is told.

use crate::live::stations::runs::{FRAMES, LINES};
use crate::live::stations::station::{Hasty, Kept, SETUP, Seen, is_told, nothing_seen, recorded};
use crate::refused::common::Heap;
use crate::streams::Pieces;
use dfr_live::{EndFault, OpenFault};
use dfr_setup::{SetupRefusal, prepared_of};
use dfr_station::{Input, Key, Lowest, Recorded, RunFault, Store, Stored, Trouble};
use failing_allocator::Refusing;
use std::alloc::{Allocator, Global};
use std::sync::Wait;
use std::thread::Threads;
use std::time::Clock;

/// How many rows a data file has, and how many of them have no value.
fn counted(dat: &[u8]) -> (usize, usize) {
    let mut rows = 0usize;
    let mut missing = 0usize;
    for line in dat.split(|b| *b == b'\n') {
        if line.ends_with(b"\r") {
            rows = rows.saturating_add(1);
        }
        if line.windows(5).any(|part| part == b"99999".as_slice()) {
            missing = missing.saturating_add(1);
        }
    }
    (rows, missing)
}

/// What comes, and what has to be told of it.
#[derive(Clone, Copy)]
struct Feed<'a> {
    form: Input,
    bytes: &'a [u8],
    /// How the line of the end begins.
    end: &'a [u8],
    /// How many rows of the record have no value.
    missing: usize,
}

/// As frames: the record closes before the end.
const WHOLE: Feed<'static> = Feed {
    form: Input::Frames(Lowest::Missing),
    bytes: FRAMES,
    end: b" end scans 8 lost ",
    missing: 3,
};

/// The record has the scans of places 0 to 6; one more of them has no value at most where an
/// allocation failed. Where that is the one that fires, the level opens none.
fn is_right(kept: &Kept, missing: usize, was_refused: bool) -> bool {
    if kept.count == 0 {
        return was_refused;
    }
    let (rows, found) = counted(kept.dat.as_slice());
    kept.count == 1
        && rows == 7
        && (found == missing || was_refused && found.checked_sub(1) == Some(missing))
}

/// The record, if there is one, and the end are told.
fn is_all_told(seen: &Seen, end: &[u8]) -> bool {
    let (record, records) = if seen.kept.count == 0 {
        (b"".as_slice(), b" records 0 left ".as_slice())
    } else {
        (
            b" record 1 first 0 trigger 5 last 6 ".as_slice(),
            b" records 1 left ".as_slice(),
        )
    };
    is_told(&seen.told, end) && is_told(&seen.told, record) && is_told(&seen.told, records)
}

/// A run that ended, or that was refused an allocation before its first step and says so.
fn is_said<A: Allocator>(left: Result<Recorded<A>, RunFault>, seen: &Seen, end: &[u8]) -> bool {
    match left {
        Ok(left) => left.counts.unwritten == 0 && is_all_told(seen, end),
        Err(fault) => {
            seen.kept.count == 0
                && (fault == RunFault::Memory || fault == RunFault::Open(OpenFault::Memory))
        }
    }
}

/// A run whose nth allocation is refused: whether it had as many; None where it went wrong.
fn nth<R: Threads + Wait + Clock + Sync>(
    rt: &R,
    alloc: Global,
    heap: Heap,
    feed: Feed<'_>,
    n: u64,
) -> Option<bool> {
    let Seen { kept, mut told } = nothing_seen(alloc, 0);
    let input = Pieces {
        bytes: feed.bytes,
        size: 1000,
        fault: None,
    };
    heap.refuse(n);
    let (left, kept) = recorded(rt, heap, feed.form, input, kept, &mut told);
    let seen = Seen { kept, told };
    let was_refused = heap.has_refused();
    heap.refuse_none();
    let is_said = is_said(left, &seen, feed.end);
    (is_said && is_right(&seen.kept, feed.missing, was_refused)).then_some(was_refused)
}

/// Refuses each allocation in turn.
fn are_refused<R: Threads + Wait + Clock + Sync>(rt: &R, alloc: Global, feed: Feed<'_>) -> bool {
    let hasty = Hasty { rt };
    let heap = Refusing::new(alloc);
    for n in 1..5_000u64 {
        match nth(&hasty, alloc, &heap, feed, n) {
            Some(true) => {}
            Some(false) => return n > 20,
            None => return false,
        }
    }
    false
}

#[test]
fn allocations_over_frames(rt: HostRuntime) {
    assert!(rt; are_refused(&rt, rt.alloc(), WHOLE));
}

#[test]
fn allocations_over_lines(rt: HostRuntime) {
    let lines = Feed {
        form: Input::Lines,
        bytes: LINES,
        ..WHOLE
    };
    assert!(rt; are_refused(&rt, rt.alloc(), lines));
}

/// The input ends while the record is open: a lost scan closes it.
#[test]
fn allocations_over_a_cut_record(rt: HostRuntime) {
    let cut = Feed {
        bytes: &FRAMES[..24],
        end: b" end scans 6 lost ",
        missing: 4,
        ..WHOLE
    };
    assert!(rt; are_refused(&rt, rt.alloc(), cut));
}

/// A store after whose first record no allocation succeeds.
#[derive(Drop)]
struct Starving<'a> {
    kept: Kept,
    heap: Heap<'a>,
}

impl Store for Starving<'_> {
    fn put(
        &mut self,
        key: Key,
        cfg: &[u8],
        dat: &[u8],
        header: Option<&[u8]>,
    ) -> Result<Stored, Trouble> {
        let stored = self.kept.put(key, cfg, dat, header);
        if stored.is_ok() {
            self.heap.refuse_all();
        }
        stored
    }
}

/// A run that can't be ended tells its end.
#[test]
fn no_memory_at_the_end(rt: HostRuntime) {
    let hasty = Hasty { rt: &rt };
    let heap = Refusing::new(rt.alloc());
    let Seen { kept, mut told } = nothing_seen(rt.alloc(), 0);
    let store = Starving { kept, heap: &heap };
    let input = Pieces {
        bytes: &FRAMES[..28],
        size: 1000,
        fault: None,
    };
    let (left, _store) = recorded(
        &hasty,
        &heap,
        Input::Frames(Lowest::Missing),
        input,
        store,
        &mut told,
    );
    let fault = left.err();
    assert!(rt; fault == Some(RunFault::End(EndFault::Memory)));
    assert!(rt; is_told(&told, b" end scans 7 lost 2 records 1 left "));
}

/// A set-up whose nth allocation is refused: whether it had as many; None where that isn't said.
fn is_set_up(heap: Heap, n: u64) -> Option<bool> {
    heap.refuse(n);
    let made = match prepared_of(heap, SETUP, 0) {
        Ok(_) => true,
        Err(SetupRefusal::Memory) => false,
        Err(_) => return None,
    };
    let was_refused = heap.has_refused();
    heap.refuse_none();
    (made || was_refused).then_some(was_refused)
}

/// How many allocations a set-up has, and one more; None where a refused one isn't said.
fn allocations(heap: Heap) -> Option<u64> {
    for n in 1..5_000u64 {
        match is_set_up(heap, n) {
            Some(true) => {}
            Some(false) => return Some(n),
            None => return None,
        }
    }
    None
}

#[test]
fn allocations_of_a_set_up(rt: HostRuntime) {
    let heap = Refusing::new(rt.alloc());
    assert!(rt; matches!(allocations(&heap), Some(n) if n > 10));
}
