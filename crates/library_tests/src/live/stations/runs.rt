//! A station over a reader in memory: each frame and each line of a scan is one step, its scan or a lost one, in order.

use crate::live::stations::station::{Seen, is_told, nothing_seen, recorded};
use crate::streams::Pieces;
use dfr_station::{Input, Lowest};
use std::alloc::Global;
use std::sync::Wait;
use std::thread::Threads;
use std::time::Clock;

/// Eight frames: 5 with the contact closed, 201, a missing value, -200 and closed, -201, 101, 7 and closed with a bit of no channel, 8.
pub const FRAMES: &[u8] = &[
    5, 0, 1, 0, 201, 0, 0, 0, 0, 128, 0, 0, 56, 255, 1, 0, 55, 255, 0, 0, 101, 0, 0, 0, 7, 0, 3, 0,
    8, 0, 0, 0,
];

/// The same as lines, with lines that can't be read in place of the values out of range.
pub const LINES: &[u8] =
    b"scan 5/1\nscan x/0\n\nscan */0\ntake\nscan -200/1\nlost 1\n# none\nscan 101/0\nscan 7/1\nscan 8/0";

/// The record of the level at place 5: a lost scan has the bits of the one before.
const ROWS: &[u8] =
    b"1,0,5,1\r\n2,1000,99999,1\r\n3,2000,99999,0\r\n4,3000,-200,1\r\n5,4000,99999,1\r\n6,5000,101,0\r\n7,6000,7,1\r\n\x1a";

const END: &[u8] = b" end scans 8 lost 2 records 1 left 0\n";

/// Its record's rows and what is told of losses are as wanted, where it comes in pieces of so many bytes.
fn is_recorded<R: Threads + Wait + Clock + Sync>(
    rt: &R,
    alloc: Global,
    (form, bytes, why): (Input, &[u8], &[u8]),
    size: usize,
    troubles: u32,
) -> bool {
    let Seen { kept, mut told } = nothing_seen(alloc, troubles);
    let input = Pieces {
        bytes,
        size,
        fault: None,
    };
    let (left, kept) = recorded(rt, alloc, form, input, kept, &mut told);
    let scans = match left {
        Ok(left) => left.ended.recorder.scans(),
        Err(_) => 0,
    };
    scans == 8
        && kept.count == 1
        && kept.dat.as_slice() == ROWS
        && is_told(&told, why)
        && is_told(&told, END)
}

#[test]
fn frames_in_pieces(rt: HostRuntime) {
    for size in [1usize, 3, 4, 5, 31, 1000] {
        let frames = (
            Input::Frames(Lowest::Missing),
            FRAMES,
            b" range 0\n".as_slice(),
        );
        assert!(rt; is_recorded(&rt, rt.alloc(), frames, size, 0), "{size}");
    }
}

#[test]
fn lines_in_pieces(rt: HostRuntime) {
    for size in [1usize, 2, 9, 10, 11, 1000] {
        let lines = (Input::Lines, LINES, b" unread\n".as_slice());
        assert!(rt; is_recorded(&rt, rt.alloc(), lines, size, 0), "{size}");
    }
}

/// A store that takes nothing twice is asked again.
#[test]
fn a_store_in_trouble(rt: HostRuntime) {
    let frames = (
        Input::Frames(Lowest::Missing),
        FRAMES,
        b" trouble full\n".as_slice(),
    );
    assert!(rt; is_recorded(&rt, rt.alloc(), frames, 1000, 2));
}
