//! What threads note of their calls, and numbers that stand for scans and texts.

use dfr_channels::{Reading, Scan};
use dfr_live::{Pumped, RulesRefusal};
use dfr_recorder::{Extent, Hit, Record, TriggerFault};
use std::alloc::Allocator;

/// A token's call and its answer.
#[derive(Clone, Copy, Debug)]
pub enum Note {
    Pump(u32, Pumped),
    Trigger(Result<Hit, TriggerFault>),
    /// With the number that stands for the record's scans.
    Taken(Extent, u64),
    TakeNone,
    TakeMemory,
    /// With the number of the rules.
    Rules(u64, Result<(), RulesRefusal>),
}

fn fold(sum: u64, x: u64) -> u64 {
    sum.wrapping_mul(1_000_003).wrapping_add(x)
}

/// The number that stands for a scan: of its readings and bits, in order.
pub fn scan_sum<A: Allocator>(scan: &Scan<A>) -> u64 {
    let mut sum = 0u64;
    for reading in scan.analog() {
        sum = match *reading {
            Reading::Value(x) => fold(fold(sum, x.unsigned_abs() as u64), (x < 0) as u64),
            Reading::Missing => fold(sum, 99_999),
        };
    }
    for bit in scan.status() {
        sum = fold(sum, 7 + *bit as u64);
    }
    sum
}

/// The number that stands for the scans of a record, in order.
pub fn record_sum<A: Allocator>(record: &Record<A>) -> u64 {
    let mut sum = 0u64;
    for scan in record.scans() {
        sum = fold(sum, scan_sum(scan));
    }
    sum
}

/// Adler-32.
pub fn text_sum(text: &[u8]) -> u64 {
    let mut low = 1u64;
    let mut high = 0u64;
    for byte in text {
        low = low.wrapping_add(*byte as u64) % 65_521;
        high = high.wrapping_add(low) % 65_521;
    }
    high.wrapping_mul(65_536).wrapping_add(low)
}
