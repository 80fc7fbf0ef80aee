//! Intervals without scans.

ghost use Rattle.std.specs.Prelude.{◌≡◌};

use crate::plan::Frame;
use comtrade_io::ToolFault;
use std::alloc::Allocator;

/// Rows that were lost between two times, and their number.
#[derive(Clone, Copy)]
pub(crate) struct TimeGap {
    pub(crate) from: i64,
    pub(crate) to: i64,
    pub(crate) rows: u64,
}

impl TimeGap {
    /// A gap without rows so far, after a row of this time.
    fn after(time: i64) -> TimeGap
        ensures { result.rows ≡ 0 }
    {
        TimeGap {
            from: time,
            to: time,
            rows: 0,
        }
    }

    /// The gap when it ends at a time, clipped to the frame; None where nothing is left.
    fn up_to(self, frame: Frame, to: i64) -> Option<TimeGap> {
        let from = self.from.max(frame.from);
        let to = to.min(frame.to);
        if self.rows == 0 || to <= from {
            return None;
        }
        Some(TimeGap { from, to, ..self })
    }
}

/// The gaps of a frame: from the row before each to the row after it, or to the frame's edge.
pub(crate) fn gaps_of<A: Allocator + Copy>(
    alloc: A,
    frame: Frame,
    kept: &[Option<i64>],
) -> Result<Vec<TimeGap, A>, ToolFault> {
    let mut gaps = Vec::new(alloc);
    let mut begun = TimeGap::after(frame.from);
    for time in kept {
        match *time {
            None => begun.rows += 1,
            Some(time) => {
                if let Some(gap) = begun.up_to(frame, time) {
                    gaps.push(gap)?;
                }
                begun = TimeGap::after(time);
            }
        }
    }
    if let Some(gap) = begun.up_to(frame, frame.to) {
        gaps.push(gap)?;
    }
    Ok(gaps)
}
