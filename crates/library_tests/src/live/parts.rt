//! What several runs in three threads are given, and what they leave.

use crate::samples::Pair;
use crate::steps::value;
use dfr_live::{Fed, LiveReport, Order, Orders, Sink};
use dfr_recorder::Extent;
use std::alloc::{Allocator, Global};

/// A scan of this value.
pub fn fed(alloc: Global, x: i32) -> Result<Fed, u32> {
    match value(alloc, x) {
        Some(scan) => Ok(Fed::Scan(scan)),
        None => Err(8),
    }
}

/// A trigger after four scan steps, where it isn't given yet.
#[derive(Drop)]
pub struct OneTrigger {
    pub is_given: bool,
}

impl<A: Allocator> Orders<A> for OneTrigger {
    fn next(&mut self) -> Option<(u64, Order<A>)> {
        if self.is_given {
            return None;
        }
        self.is_given = true;
        Some((4, Order::Trigger))
    }
}

/// How many records came, and whether each had these texts.
#[derive(Drop)]
pub struct Texts {
    pub texts: Pair,
    pub got: u64,
    pub are_right: bool,
}

impl Sink for Texts {
    fn put(&mut self, _extent: Extent, cfg: &[u8], dat: &[u8]) -> Result<(), u32> {
        self.got = self.got.saturating_add(1);
        self.are_right = self.are_right && cfg == self.texts.cfg && dat == self.texts.dat;
        Ok(())
    }
}

/// So many scan steps were made, none of them refused, and so many records handed over; nothing is left.
pub fn is_report<A: Allocator>(report: &LiveReport<A>, scans: u64, records: u64) -> bool {
    report.stepped == scans
        && report.refused == 0
        && report.records == records
        && report.ended.left.is_empty()
        && report.ended.recorder.waiting() == 0
        && report.ended.recorder.scans() == scans
}
