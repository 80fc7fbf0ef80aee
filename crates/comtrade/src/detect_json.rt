//! When detectors fire on a record, as JSON.

use crate::detect::{Firing, put_row_instant};
use crate::part::Taken;
use comtrade_views::text_of;
use dfr_setup::Plan;
use serde::Serialize;
use std::alloc::{AllocError, Allocator, Global};

/// A firing: its instant, its row from 1, its scan from 0, and for how many scans.
#[derive(Drop, Serialize)]
struct FiringMembers {
    instant: String,
    row: u64,
    scan: usize,
    scans: usize,
}

/// A detector with its firings.
#[derive(Drop, Serialize)]
struct DetectorMembers {
    name: String,
    fires: Vec<FiringMembers>,
}

/// All detectors.
#[derive(Drop, Serialize)]
pub(crate) struct Members {
    detectors: Vec<DetectorMembers>,
}

/// A firing as JSON has it.
fn firing_members<A: Allocator>(
    alloc: Global,
    taken: &Taken<A>,
    firing: Firing,
) -> Result<FiringMembers, AllocError> {
    let mut instant = Vec::new(alloc);
    put_row_instant(&mut instant, taken, firing.first.row, b' ')?;
    Ok(FiringMembers {
        instant: text_of(alloc, &instant)?,
        row: firing.first.number,
        scan: firing.first.row,
        scans: firing.rows,
    })
}

/// What all detectors did, as JSON has it.
pub(crate) fn members_of<A: Allocator>(
    alloc: Global,
    taken: &Taken<A>,
    plans: &[Plan<A>],
    firings: &[Firing],
) -> Result<Members, AllocError> {
    let mut detectors = Vec::new(alloc);
    for (place, plan) in plans.iter().enumerate() {
        let mut fires = Vec::new(alloc);
        for firing in firings {
            if firing.detector == place {
                fires.push(firing_members(alloc, taken, *firing)?)?;
            }
        }
        detectors.push(DetectorMembers {
            name: text_of(alloc, plan.name.items())?,
            fires,
        })?;
    }
    Ok(Members { detectors })
}
