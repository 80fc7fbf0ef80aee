//! The bits of detectors, behind those of the contacts.

ghost use Rattle.std.specs.Prelude.{◌≡◌, IfOk, IfErr};
ghost use Rattle.dfr_station.specs.Detecting.{IsDetected};

use comtrade_values::Memory;
use dfr_channels::Scan;
use dfr_detect::Detectors;
use std::alloc::Allocator;

/// The scan with the bits of the detectors behind its own. After `Memory` the detectors are as
/// before.
pub(crate) fn detected<A: Allocator + Copy>(
    detectors: &mut Detectors<A>,
    scan: Scan<A>,
) -> Result<Scan<A>, Memory>
    ensures ok { IfOk result (λ x. IsDetected detectors.old scan x detectors.new) }
    ensures err { IfErr result (λ _. detectors.new ≡ detectors.old) }
{
    let (readings, mut bits) = scan.into_parts();
    detectors.step(&readings, &mut bits)?;
    Ok(Scan::new(readings, bits))
}
