//! The ring of the last scans: the pre-trigger memory.

ghost use Rattle.std.specs.Prelude.{◌≡◌, ◌<◌, ◌-◌, ◌++◌, [], ◌∷◌, Some, length, slice_get, IfOk};
ghost use Rattle.dfr_channels.specs.Firing.{lowest_holding};
ghost use Rattle.dfr_recorder.specs.Kept.{latest, leaving_of};

use circular_buffer::HeapCircularBuffer;
use comtrade_values::Memory;
use dfr_channels::{Rules, Scan};
use std::alloc::Allocator;

/// The lowest rule that a scan fires, given the ring's newest scan as the one before it.
pub(crate) fn fires<A: Allocator>(
    rules: &Rules<A>,
    ring: &HeapCircularBuffer<Scan<A>, A>,
    scan: &Scan<A>,
) -> Option<u32>
    ensures { result ≡ lowest_holding (slice_get ring.now.items (length ring.now.items - 1)) scan.now rules.now }
{
    rules.fires(ring.back(), scan)
}

/// Puts a scan into the ring. If the ring is full, its oldest scan leaves it and is returned.
#[inline(always)]
pub(crate) fn keep<A: Allocator>(
    ring: &mut HeapCircularBuffer<Scan<A>, A>,
    scan: Scan<A>,
) -> Option<Scan<A>>
    ensures items { ring.new.items ≡ latest ring.old.capacity (ring.old.items ++ scan ∷ []) }
    ensures places { ring.new.capacity ≡ ring.old.capacity }
    ensures leaves { result ≡ leaving_of ring.old.capacity ring.old.items scan }
{
    ring.push_back(scan)
}

/// The ring's scan at index `i`, counted from its oldest.
fn scan_at<A: Allocator>(ring: &HeapCircularBuffer<Scan<A>, A>, i: usize) -> &Scan<A>
    requires { i < length ring.now.items }
    ensures { slice_get ring.now.items i ≡ Some result.now }
{
    let Some(scan) = ring.get(i) else {
        unreachable!()
    };
    scan
}

/// Copies of the ring's last `count` scans, or of all if it has fewer, in a list with this room.
pub(crate) fn copies<A: Allocator + Copy>(
    ring: &HeapCircularBuffer<Scan<A>, A>,
    count: usize,
    room: usize,
) -> Result<Vec<Scan<A>, A>, Memory>
    ensures { IfOk result (λ copies. copies.items ≡ latest count ring.now.items) }
{
    let skip = ring.len().saturating_sub(count);
    let mut scans = Vec::with_capacity(*ring.allocator(), room)?;
    for i in skip..ring.len() {
        let copy = scan_at(ring, i).try_clone()?;
        scans.push(copy)?;
    }
    Ok(scans)
}
