//! The samples of three channels, row by row.

ghost use Rattle.std.specs.Prelude.{◌≡◌, map, IfOk};
ghost use Rattle.comtrade_analysis.specs.Readings as reading;
ghost use Rattle.comtrade_fault.specs.Scanning as spec;

use crate::scan::{NOTHING, Scan};
use comtrade_analysis::Sequence;
use comtrade_format::Row;
use comtrade_values::Memory;
use dfr_channels::Reading;
use std::alloc::Allocator;

/// A sample, raised by 2^31.
fn raised(sample: i32) -> u32
    ensures { result ≡ spec.raised sample }
{
    (sample as i64 + 0x8000_0000) as u32
}

/// The sample of a channel in a row.
fn sample_in<A: Allocator>(row: &Row<A>, channel: usize) -> Option<i32>
    ensures { result ≡ reading.sample channel row.now }
{
    match row.values.items().get(channel) {
        Some(Reading::Value(sample)) => Some(*sample),
        _ => None,
    }
}

/// The samples of the three phases of a sequence in a row.
fn scan_in<A: Allocator>(row: &Row<A>, sequence: Sequence) -> Scan
    ensures { result ≡ spec.scan_in sequence row.now }
{
    let a = sample_in(row, sequence.a);
    let b = sample_in(row, sequence.b);
    let c = sample_in(row, sequence.c);
    match (a, b, c) {
        (Some(a), Some(b), Some(c)) => Scan {
            is_known: true,
            a: raised(a),
            b: raised(b),
            c: raised(c),
        },
        _ => NOTHING,
    }
}

/// The samples of the three phases of a sequence in these rows. `Memory`: an allocation failed.
pub fn scans_of<A: Allocator, B: Allocator + Copy>(
    alloc: B,
    rows: &[Row<A>],
    sequence: Sequence,
) -> Result<Vec<Scan, B>, Memory>
    ensures { IfOk result (λ scans. scans.items ≡ map (spec.scan_in sequence) rows.now) }
{
    let mut scans = Vec::new(alloc);
    for row in rows {
        scans.push(scan_in(row, sequence))?;
    }
    Ok(scans)
}
