//! The rms values of a record that a picture shows.

use comtrade_format::File;
use comtrade_io::ToolFault;
use comtrade_plot::Rms;
use comtrade_views::{MeasureFault, rms_around};
use std::alloc::Allocator;

/// The rms values of a file's channels before and after its fault inception, or its trigger; none
/// where no rate gives cycles.
pub(crate) fn rms_of<A: Allocator + Copy>(
    alloc: A,
    file: &File<A>,
    times: &[Option<i64>],
) -> Result<Vec<Rms, A>, ToolFault> {
    let mut list = Vec::new(alloc);
    let measured = match rms_around(alloc, file, times) {
        Ok(measured) => measured,
        Err(MeasureFault::Memory(_)) => return Err(ToolFault::Memory),
        Err(_) => return Ok(list),
    };
    for around in measured.iter() {
        list.push(Rms {
            before: around.before,
            after: around.after,
        })?;
    }
    Ok(list)
}
