//! Openings that are refused.

use crate::live::ends::{given_back, opened};
use crate::live::station::recorder;
use crate::steps::{is_scanned, value};
use dfr_live::OpenFault;
use dfr_recorder::Recorder;
use std::alloc::Global;

/// Why the recorder isn't opened so, and how many scans the recorder has that comes back.
fn refused(
    alloc: Global,
    recorder: Option<Recorder>,
    lane: usize,
    seats: u32,
) -> Option<(OpenFault, u64)> {
    match given_back(alloc, recorder, lane, seats) {
        Some((fault, back)) => Some((fault, back.scans())),
        None => None,
    }
}

/// A recorder that has accepted a scan.
fn used(alloc: Global) -> Option<Recorder> {
    let mut recorder = recorder(alloc, 1)?;
    if is_scanned(&mut recorder, value(alloc, 10)) {
        return Some(recorder);
    }
    None
}

fn new_refused(alloc: Global, lane: usize, seats: u32) -> Option<(OpenFault, u64)> {
    refused(alloc, recorder(alloc, 1), lane, seats)
}

#[test]
fn refusals_in_order(rt: HostRuntime) {
    let alloc = rt.alloc();
    assert_eq!(rt;
        refused(alloc, used(alloc), 0, 65),
        Some((OpenFault::Used, 1))
    );
    assert_eq!(rt; new_refused(alloc, 0, 65), Some((OpenFault::Lane, 0)));
    assert_eq!(rt; new_refused(alloc, 65_537, 65), Some((OpenFault::Lane, 0)));
    assert_eq!(rt; new_refused(alloc, 1, 0), Some((OpenFault::Seats, 0)));
    assert_eq!(rt; new_refused(alloc, 1, 65), Some((OpenFault::Seats, 0)));
}

fn opens(alloc: Global, lane: usize, seats: u32) -> bool {
    opened(alloc, recorder(alloc, 1), lane, seats).is_some()
}

/// The bounds themselves are valid.
#[test]
fn bounds(rt: HostRuntime) {
    assert!(rt; opens(rt.alloc(), 1, 1));
    assert!(rt; opens(rt.alloc(), 65_536, 64));
}
