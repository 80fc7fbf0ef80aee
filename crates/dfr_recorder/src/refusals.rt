//! Why a scan is refused.

ghost use Rattle.std.specs.Prelude.{◌≡◌, ◌≤◌, IfNone};
ghost use Rattle.dfr_channels.specs.Setups.{end_of_time};
ghost use Rattle.dfr_recorder.specs.History.{refusal};

use crate::ScanRefusal;
use dfr_channels::{Layout, Scan, ScanFault};
use std::alloc::Allocator;

/// Why a scan numbered `k` would be refused, apart from lack of memory.
pub(crate) fn refusal<A: Allocator>(
    layout: &Layout<A>,
    k: u64,
    scan: &Scan<A>,
) -> Option<ScanRefusal>
    ensures value { result ≡ refusal layout.now k scan.now }
    ensures early { IfNone result (k ≤ end_of_time) }
{
    match layout.check(scan) {
        Err(ScanFault::Shape) => Some(ScanRefusal::Shape),
        Err(ScanFault::Range(i)) => Some(ScanRefusal::Range(i)),
        Ok(()) => match layout.instant(k) {
            None => Some(ScanRefusal::ClockEnd),
            Some(_) => None,
        },
    }
}
