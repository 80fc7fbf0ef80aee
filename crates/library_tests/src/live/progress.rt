//! Orders that wait for the sink, and a sink that waits for the orders.

use std::sync::atomic::{AtomicBool, AtomicU64, Ordering};
use std::thread;

const LOOKS: u64 = 2_000_000;

/// How far the orders and the sink are.
#[derive(Drop)]
pub struct Progress {
    /// How many records were handed to the sink.
    handed: AtomicU64,
    /// The last order was made.
    is_ordered: AtomicBool,
}

pub fn begun() -> Progress {
    Progress {
        handed: AtomicU64::new(0),
        is_ordered: AtomicBool::new(false),
    }
}

pub fn count_handed(progress: &Progress) {
    progress.handed.fetch_add(1, Ordering::SeqCst);
}

pub fn tell_ordered(progress: &Progress) {
    progress.is_ordered.store(true, Ordering::SeqCst);
}

/// Holds the caller until the flag is set. False after so many looks.
pub fn passes(flag: &AtomicBool, looks: u64) -> bool {
    for _ in 0..looks {
        if flag.load(Ordering::SeqCst) {
            return true;
        }
        thread::yield_now();
    }
    false
}

/// Holds the caller until there is room for one more record than were ordered so far.
pub fn finds_room(progress: &Progress, ordered: u64, room: u64) -> bool {
    for _ in 0..LOOKS {
        if ordered < progress.handed.load(Ordering::SeqCst).saturating_add(room) {
            return true;
        }
        thread::yield_now();
    }
    false
}

/// Holds the caller until the last order was made, and then long enough for the trigger thread to end.
pub fn wait_for_orders(progress: &Progress) {
    let _is_ordered = passes(&progress.is_ordered, LOOKS);
    for _ in 0..10_000 {
        thread::yield_now();
    }
}
