//! A detector over a list of scans.

ghost use Rattle.std.specs.Prelude.{◌≡◌, IfOk, map};
ghost use Rattle.dfr_detect.specs.Detection.{AreBits, readings_of};

use crate::Detector;
use comtrade_values::Memory;
use dfr_channels::Scan;
use std::alloc::Allocator;

/// The bits of scans, each that of the definition over all scans taken in up to it.
pub fn bits_of<A: Allocator + Copy>(
    alloc: A,
    detector: &mut Detector<A>,
    scans: &[Scan<A>],
) -> Result<Vec<bool, A>, Memory>
    ensures { IfOk result (λ bits. AreBits detector.old (map readings_of scans.now) bits.items) }
{
    let mut bits = Vec::with_capacity(alloc, scans.len())?;
    for scan in scans {
        let bit = detector.step(scan.analog());
        bits.push(bit)?;
    }
    Ok(bits)
}
