//! Recorders of one analogue channel, and what their records hold.

use crate::bay::{self, BAY, Bay};
use crate::steps::is_value;
use dfr_channels::Scan;
use dfr_recorder::{Record, Recorder};
use std::alloc::Global;

/// A configuration file of one analogue channel, whose scale is 1.
const ONE: &[u8] =
    b"Bay 1,DFR,1999\n1,1A,0D\n1,IA,A,,A,1,0,0,-32767,32767,1,1,P\n50\n1\n1,1\n01/01/1970,0:0:0\n01/01/1970,0:0:0\nASCII\n1";

/// Two scans before a trigger and two after it, six at most, and a shelf of one.
pub const STATION: Bay = Bay {
    channels: ONE,
    ..BAY
};

/// A recorder whose shelf has room for so many records.
pub fn recorder(alloc: Global, shelf: u32) -> Option<Recorder> {
    let limits = (2, 2, 6, shelf);
    bay::recorder(alloc, Bay { limits, ..STATION })
}

/// The scan of place k has the value of k and these, mod 100.
fn is_in_place(scan: &Scan, k: u64, more: u64) -> bool {
    is_value(scan, (k.saturating_add(more) % 100) as i32)
}

/// Each scan of the record is the one of its place.
pub fn is_in_order(record: &Record, more: u64) -> bool {
    let mut k = record.extent().first;
    for scan in record.scans() {
        if !is_in_place(scan, k, more) {
            return false;
        }
        k = k.saturating_add(1);
    }
    k == record.extent().last.saturating_add(1)
}
