//! Aligns records of different time codes.

use crate::content::Loaded;
use comtrade_diagnostics::Zone;
use comtrade_format::Head;
use comtrade_io::ToolFault;
use comtrade_values::put;
use std::alloc::{AllocError, Allocator};

/// Notes that the times of a record were moved to another time code.
fn put_moved<A: Allocator>(said: &mut Vec<u8, A>, from: Zone, to: Zone) -> Result<(), AllocError> {
    put(
        said,
        "time-code: times of another time code than that of the first record were moved (",
    )?;
    from.put_name(said)?;
    put(said, " to ")?;
    to.put_name(said)?;
    put(said, ")\n")
}

/// The time code of a record and the one to which it is moved: that of the first record that has
/// one, which is kept in `first`. None where both are the same, or the record has none.
fn move_of(first: &mut Option<Zone>, own: Option<Zone>) -> Option<(Zone, Zone)> {
    let own = own?;
    let Some(zone) = *first else {
        *first = Some(own);
        return None;
    };
    if zone == own {
        return None;
    }
    Some((own, zone))
}

/// Moves the instants of a record to another time code; false where they are no instants there.
fn move_head<A: Allocator>(head: &mut Head<A>, from: Zone, to: Zone) -> bool {
    // (no year of four digits is so far)
    let (Some(first), Some(trigger)) = (from.moved(head.first, to), from.moved(head.trigger, to))
    else {
        return false;
    };
    head.first = first;
    head.trigger = trigger;
    true
}

/// Moves the instants of a record to the time code of the first record that has one, which is kept
/// in `first`. `said` gets a line if they were moved.
pub(crate) fn to_zone_of<A: Allocator>(
    first: &mut Option<Zone>,
    loaded: &mut Loaded<A>,
    said: &mut Vec<u8, A>,
) -> Result<(), ToolFault> {
    if let Some((from, to)) = move_of(first, loaded.zone)
        && move_head(&mut loaded.file.head, from, to)
    {
        put_moved(said, from, to)?;
    }
    Ok(())
}
