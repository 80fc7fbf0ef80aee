//! The shelf: the queue of finished records.

ghost use Rattle.std.specs.Prelude.{◌≡◌, ◌<◌, ◌^◌, ◌==◌, length};
ghost use Rattle.dfr_recorder.specs.Kept.{scans_in};

use crate::{Limits, Record};
use std::alloc::Allocator;
use std::collections::VecDeque;

/// Whether the shelf is full.
pub(crate) fn is_full<A: Allocator>(shelf: &VecDeque<Record<A>, A>, limits: Limits) -> bool
    ensures { result ≡ (length shelf.now.items == limits.shelf) }
{
    shelf.len() == limits.shelf() as usize
}

/// How many scans the records on the shelf have.
pub(crate) fn scans_in<A: Allocator>(shelf: &VecDeque<Record<A>, A>) -> u64
    requires { scans_in shelf.now.items < 2 ^ 62 }
    ensures { result ≡ scans_in shelf.now.items }
{
    let mut all: u64 = 0;
    for i in 0..shelf.len() {
        let Some(record) = shelf.get(i) else {
            unreachable!()
        };
        all += record.scans().len() as u64;
    }
    all
}
