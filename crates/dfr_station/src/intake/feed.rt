//! Why a scan is lost, and the scan that takes its place where many are.

ghost use Rattle.std.specs.Prelude.{◌≡◌, replicate, IfOk};
ghost use Rattle.dfr_channels.specs.declared.scan.Reading.TheVariants as reading;

use comtrade_values::Memory;
use dfr_channels::{Reading, Scan};
use std::alloc::Allocator;

/// Why a scan is lost.
#[derive(Clone, Copy, Debug, PartialEq, Eq)]
pub enum Why {
    /// A `lost` line.
    Told,
    /// A scan line that can't be read, or is too long.
    Unread,
    /// The numbers of readings or bits differ from the set-up.
    Shape,
    /// A value is out of its range; the lowest such analogue channel, from 0.
    Range(u32),
    /// The queue of scans is full.
    Full,
    /// An allocation failed.
    Memory,
    /// The counters of the frames say that it is missing.
    Counted,
    /// The input stood still, and the clock says that scans are missing.
    Silent,
}

/// A scan without readings, with these bits.
pub(crate) fn missing_scan<A: Allocator + Copy>(
    alloc: A,
    analog: usize,
    bits: &[bool],
) -> Result<Scan<A>, Memory>
    ensures { IfOk result (λ scan. scan
        ≡ record { analog = replicate analog reading.Missing; status = bits.now }) }
{
    let readings = vec![in alloc; Reading::Missing; analog]?;
    let bits = Vec::from_slice(alloc, bits)?;
    Ok(Scan::new(readings, bits))
}
