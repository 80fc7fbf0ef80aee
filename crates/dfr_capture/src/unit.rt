//! A unit of sampled values as it is kept.

ghost use Rattle.std.specs.Prelude.{◌≡◌, slice_index_or, None};
ghost use Rattle.dfr_capture.specs.Units as spec;

use dfr_bus::{Asdu, Sample};
use std::alloc::{Allocator, Global};
use std::marker::Model;

/// A unit of sampled values as it is kept.
#[derive(Drop)]
pub(crate) struct Unit<A: Allocator = Global> {
    /// The frame that it came with.
    pub(crate) frame: Vec<u8, A>,
    pub(crate) asdu: Asdu,
    /// The states of the contacts when it came.
    pub(crate) bits: Vec<bool, A>,
    /// The nanosecond at which it came.
    pub(crate) time: u64,
}

impl<A: Allocator> Model for Unit<A> {
    ghost use Rattle.dfr_capture.specs.Units.{UnitParts};

    ghost Value = { UnitParts };

    ghost view = { λ u. record { frame = u.frame.items; asdu = u.asdu; bits = u.bits.items; time = u.time } };
}

/// A value of a stream in a scan, if there is one.
pub(crate) fn sample_in<A: Allocator>(
    scan: &[Option<Unit<A>>],
    stream: usize,
    index: usize,
) -> Option<Sample>
    ensures { result ≡ spec.sample_in (slice_index_or scan.now stream None) index }
{
    if stream >= scan.len() {
        return None;
    }
    match &scan[stream] {
        None => None,
        Some(unit) => unit.asdu.sample(&unit.frame, index),
    }
}
