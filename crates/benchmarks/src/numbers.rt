//! Numbers that look random, the same in each run.

use dfr_channels::{Reading, Scan};
use std::alloc::{AllocError, Global};

/// Readings of so many values, from the least on, and bits.
#[derive(Drop)]
pub struct Numbers {
    state: u64,
    values: u64,
    least: i32,
}

impl Numbers {
    pub fn new(seed: u64) -> Numbers {
        Numbers {
            state: seed,
            values: 65_535,
            least: -32_767,
        }
    }

    pub fn not_negative(seed: u64) -> Numbers {
        Numbers {
            state: seed,
            values: 32_768,
            least: 0,
        }
    }

    fn next(&mut self) -> u64 {
        self.state = self
            .state
            .wrapping_mul(6_364_136_223_846_793_005)
            .wrapping_add(1_442_695_040_888_963_407);
        self.state >> 33
    }

    fn reading(&mut self) -> Reading {
        let above = self.next().checked_rem(self.values).unwrap_or(0);
        let above = i32::try_from(above).unwrap_or(0);
        Reading::Value(self.least.saturating_add(above))
    }

    fn readings(&mut self, alloc: Global) -> Result<Vec<Reading>, AllocError> {
        let mut analog = Vec::with_capacity(alloc, 32)?;
        for _ in 0..32u32 {
            analog.push(self.reading())?;
        }
        Ok(analog)
    }

    fn bits(&mut self, alloc: Global) -> Result<Vec<bool>, AllocError> {
        let mut status = Vec::with_capacity(alloc, 64)?;
        for _ in 0..64u32 {
            status.push(self.next() & 1 == 1)?;
        }
        Ok(status)
    }

    /// A scan of 32 readings and 64 bits.
    pub fn scan(&mut self, alloc: Global) -> Result<Scan, AllocError> {
        let analog = self.readings(alloc)?;
        Ok(Scan::new(analog, self.bits(alloc)?))
    }

    pub fn scans(&mut self, alloc: Global, n: u32) -> Result<Vec<Scan>, AllocError> {
        let mut scans = Vec::with_capacity(alloc, n as usize)?;
        for _ in 0..n {
            scans.push(self.scan(alloc)?)?;
        }
        Ok(scans)
    }
}
