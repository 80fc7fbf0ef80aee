//! The times that came of a measure.

use crate::amount::Amount;
use anyhow::{Context, Result};
use std::alloc::Global;

/// Prints the least and the median of the times, which are in nanoseconds, by the scan.
pub fn tell<R: Print>(
    rt: &R,
    amount: Amount,
    name: &str,
    scans: u64,
    times: &mut Vec<u64>,
) -> Result<()> {
    times.sort_unstable();
    let least = *times.first().context("a time")?;
    let median = *times.get(times.len() / 2).context("a time")?;
    if amount.is_full && scans > 0 {
        println!(rt;
            "{name}: {} ns, median {} ns a scan",
            least / scans,
            median / scans
        )?;
    }
    Ok(())
}

pub fn note(times: &mut Vec<u64>, nanoseconds: u128) -> Result<()> {
    times.push(u64::try_from(nanoseconds).unwrap_or(u64::MAX))?;
    Ok(())
}

pub fn none(alloc: Global) -> Vec<u64> {
    Vec::new(alloc)
}
