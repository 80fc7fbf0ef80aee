//! Counters and flags that the threads share without a lock.

use std::sync::atomic::{AtomicBool, AtomicI64, AtomicU64, Ordering};

/// The counters and flags. Each is written by one thread, but for `short`
/// and `last_short`.
#[derive(Drop)]
pub(crate) struct Signals {
    /// How many scans came, including lost ones.
    pub(crate) came: AtomicU64,
    /// How many of them were lost.
    pub(crate) lost: AtomicU64,
    /// How many scan steps can be made: those up to the newest scan that the queue took. An order of
    /// the input that came before one of these scans is in the queue before this is written.
    pub(crate) ready: AtomicU64,
    /// How many microseconds the wall clock was ahead of the time of the newest scan when that scan
    /// was read. Written before `came`.
    pub(crate) clock: AtomicI64,
    /// How many records the store took.
    pub(crate) records: AtomicU64,
    /// How many finished records wait on the shelf.
    pub(crate) waiting: AtomicU64,
    /// At how many scans a rule fired while the shelf was full.
    pub(crate) missed: AtomicU64,
    /// How many changes of contacts the queue had no room for.
    pub(crate) untold: AtomicU64,
    /// How often an allocation failed that is tried again.
    pub(crate) short: AtomicU64,
    /// How often since the input has ended.
    pub(crate) last_short: AtomicU64,
    /// The input has ended.
    pub(crate) acquired: AtomicBool,
    /// All other threads have ended.
    pub(crate) ended: AtomicBool,
}

impl Signals {
    pub(crate) fn new() -> Signals {
        Signals {
            came: AtomicU64::new(0),
            lost: AtomicU64::new(0),
            ready: AtomicU64::new(0),
            clock: AtomicI64::new(0),
            records: AtomicU64::new(0),
            waiting: AtomicU64::new(0),
            missed: AtomicU64::new(0),
            untold: AtomicU64::new(0),
            short: AtomicU64::new(0),
            last_short: AtomicU64::new(0),
            acquired: AtomicBool::new(false),
            ended: AtomicBool::new(false),
        }
    }

    /// How many microseconds the wall clock was ahead of the time of the newest scan when that scan
    /// was read. None before the first scan.
    pub(crate) fn clock(&self) -> Option<i64> {
        let has_scan = self.came.load(Ordering::SeqCst) > 0;
        has_scan.then_some(self.clock.load(Ordering::SeqCst))
    }
}
