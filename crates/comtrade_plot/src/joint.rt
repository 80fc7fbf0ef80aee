//! Preparation of two records before they are drawn: times on one axis, panels of partners, the
//! times that are drawn.

use crate::layout::NOWHERE;
use crate::plan::{Frame, window_of};
use crate::record::{DrawnRecord, lasting};
use crate::rows::{last_change, whole_frame};
use crate::ticks::rounded_out;
use comtrade_format::File;
use comtrade_io::ToolFault;
use std::alloc::Allocator;

/// Times shifted by this much; None where the result is not a number of 64 bits.
pub(crate) fn shifted<A: Allocator + Copy>(
    alloc: A,
    times: &[Option<i64>],
    shift: i64,
) -> Result<Vec<Option<i64>, A>, ToolFault> {
    let mut later = Vec::new(alloc);
    for time in times {
        later.push(match *time {
            Some(time) => time.checked_add(shift),
            None => None,
        })?;
    }
    Ok(later)
}

/// The panels of channels with these partners: one for each channel that has one.
pub(crate) fn own_panels<A: Allocator + Copy>(
    alloc: A,
    partners: &[Option<usize>],
) -> Result<Vec<usize, A>, ToolFault> {
    let mut panels = Vec::new(alloc);
    let mut next = 0usize;
    for partner in partners {
        if partner.is_some() {
            panels.push(next)?;
            next += 1;
        } else {
            panels.push(NOWHERE)?;
        }
    }
    Ok(panels)
}

/// The panels of the partners, of this many channels.
pub(crate) fn panels_beside<A: Allocator + Copy>(
    alloc: A,
    partners: &[Option<usize>],
    count: usize,
) -> Result<Vec<usize, A>, ToolFault> {
    let mut panels = Vec::new(alloc);
    for _ in 0..count {
        panels.push(NOWHERE)?;
    }
    let mut next = 0usize;
    for partner in partners {
        if let Some(partner) = *partner {
            if let Some(panel) = panels.get_mut(partner) {
                *panel = next;
            }
            next += 1;
        }
    }
    Ok(panels)
}

/// The times that are drawn of two records, and whether they are only a part of what both cover.
#[derive(Clone, Copy)]
pub(crate) struct Drawn {
    pub(crate) frame: Frame,
    pub(crate) is_part: bool,
}

/// The times that are drawn of two records: those that both cover, around the trigger where these
/// are long, or all; None where they have none in common.
pub(crate) fn drawn_of<A: Allocator>(
    file: &File<A>,
    one: &DrawnRecord<A>,
    other: &DrawnRecord<A>,
    is_whole: bool,
) -> Option<Drawn> {
    let cycle = one.cycle_or_usual();
    let (first, second) = (whole_frame(&one.kept)?, whole_frame(&other.kept)?);
    let both = Frame {
        from: first.from.max(second.from),
        to: first.to.min(second.to),
    };
    if both.to < both.from {
        return None;
    }
    if is_whole {
        let all = Frame {
            from: first.from.min(second.from),
            to: first.to.max(second.to),
        };
        return Some(Drawn {
            frame: rounded_out(lasting(Some(all), cycle.nanos)),
            is_part: false,
        });
    }
    let change = last_change(file, &one.kept, cycle);
    let both = lasting(Some(both), cycle.nanos);
    match window_of(both, cycle, change) {
        Some(frame) => Some(Drawn {
            frame,
            is_part: true,
        }),
        None => Some(Drawn {
            frame: rounded_out(both),
            is_part: false,
        }),
    }
}
