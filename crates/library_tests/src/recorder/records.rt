//! Records of a rule, up to the greatest length.

use crate::bay::{Bay, OVER_100, TWO, recorder};
use crate::steps::value;
use dfr_channels::Scan;
use dfr_recorder::{Hit, Recorder, ScanRefusal, Scanned};
use std::alloc::Global;

/// A scan of this value, what its trigger does, and the record that it closes.
type Told = (i32, Option<Hit>, Option<u64>);

fn is_told(answer: Result<Scanned, (ScanRefusal, Scan)>, told: Told) -> bool {
    match answer {
        Ok(scanned) => scanned.trigger == told.1 && scanned.closed == told.2,
        Err(_) => false,
    }
}

/// Whether the scan is accepted and answered so.
fn is_scanned(alloc: Global, recorder: &mut Recorder, told: Told) -> bool {
    match value(alloc, told.0) {
        Some(scan) => is_told(recorder.scan(scan), told),
        None => false,
    }
}

fn are_scanned(alloc: Global, recorder: &mut Recorder, scans: &[Told]) -> bool {
    for told in scans {
        if !is_scanned(alloc, recorder, *told) {
            return false;
        }
    }
    true
}

/// The greatest length of six, and a record opened right after.
const HIGH: [Told; 8] = [
    (0, None, None),
    (0, None, None),
    (0, None, None),
    (100, Some(Hit::Opened(1)), None),
    (100, Some(Hit::Extended(1)), None),
    (100, Some(Hit::AtLimit(1)), None),
    (100, Some(Hit::AtLimit(1)), Some(1)),
    (100, Some(Hit::Opened(2)), None),
];

const TWO_AT_100: Bay = Bay {
    rules: &[OVER_100],
    ..TWO
};

/// In the end three scans are held in the ring, three in the open record, and six in the record that waits.
fn grows(alloc: Global) -> bool {
    is_some_and!(recorder(alloc, TWO_AT_100), |mut recorder| {
        are_scanned(alloc, &mut recorder, &HIGH) && recorder.held() == 12
    })
}

#[test]
fn grows_to_the_greatest_length(rt: HostRuntime) {
    assert!(rt; grows(rt.alloc()));
}
