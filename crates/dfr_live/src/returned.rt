//! The way back. Scans that left the pre-trigger memory return to the thread that made and offered
//! them, which uses their memory again, or frees it. An allocator that keeps memory for each thread,
//! such as that of the C library, would otherwise make one thread wait for the other's lock at each
//! scan.

use dfr_channels::Scan;
use rtrb::{Consumer, Producer};
use std::alloc::Allocator;

/// How many scans at most wait on their way back, where their memory is freed. (So few stay in the
/// processor's nearest cache.)
pub(crate) const PLACES: usize = 32;

/// Hands a scan back. Where all places are taken, it is freed here.
#[inline(always)]
pub(crate) fn hand_back<A: Allocator>(back: &mut Producer<Scan<A>, A>, scan: Option<Scan<A>>) {
    if let Some(scan) = scan {
        let _ = back.push(scan);
    }
}

/// Frees two scans that came back, where there are any. So more are freed than come.
#[inline(always)]
pub(crate) fn let_go<A: Allocator>(returned: &mut Consumer<Scan<A>, A>) {
    if returned.pop().is_ok() {
        let _ = returned.pop();
    }
}

/// Takes a scan that came back, where there is one. Where more than half of the places were taken,
/// it frees another, so that the next ones find a place.
#[inline(always)]
pub(crate) fn next_spare<A: Allocator>(returned: &mut Consumer<Scan<A>, A>) -> Option<Scan<A>> {
    let Ok(spare) = returned.pop() else {
        return None;
    };
    if returned.cached_slots() > returned.capacity() / 2 {
        let _ = returned.pop();
    }
    Some(spare)
}
