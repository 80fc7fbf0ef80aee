//! A record in which faults were found, and one of its faults.

use crate::faults::contacts::Told;
use crate::faults::words::phases_of;
use comtrade_distance::LineData;
use comtrade_fault::{FaultType, Found};
use comtrade_format::File;
use std::alloc::{Allocator, Global};

/// A record, when its rows were taken, and what its status channels told.
#[derive(Clone, Copy)]
pub(crate) struct Source<'a, A: Allocator> {
    pub(crate) alloc: Global,
    pub(crate) lists: A,
    pub(crate) file: &'a File<A>,
    pub(crate) times: &'a [Option<i64>],
    pub(crate) told: &'a [Told],
    /// The line on which the faults are, if one is given.
    pub(crate) line: Option<&'a LineData>,
}

/// A fault of a record: its type, the row of its inception, and that of the next fault.
#[derive(Clone, Copy)]
pub(crate) struct Known {
    pub(crate) found: Found,
    pub(crate) fault: FaultType,
    pub(crate) inception: usize,
    pub(crate) next: Option<usize>,
}

/// The lesser of two rows, where there are both, else the one that is there.
fn sooner(one: Option<usize>, other: Option<usize>) -> Option<usize> {
    match (one, other) {
        (Some(one), Some(other)) => Some(one.min(other)),
        (Some(row), None) | (None, Some(row)) => Some(row),
        (None, None) => None,
    }
}

impl Known {
    /// The row of the record that is this one of its rate.
    pub(crate) fn row_of(&self, row: Option<usize>) -> Option<usize> {
        self.found.first.checked_add(row?)
    }

    /// The row in which the fault is cleared.
    pub(crate) fn cleared_row(&self) -> Option<usize> {
        self.row_of(self.found.disturbance.end)
    }

    /// The ends of the phases that take part, by the rows of their rate.
    pub(crate) fn ends(&self) -> (Option<usize>, Option<usize>, Option<usize>) {
        let ends = self.found.disturbance.ends;
        let (a, b, c) = phases_of(self.fault);
        (
            if a { ends.a } else { None },
            if b { ends.b } else { None },
            if c { ends.c } else { None },
        )
    }

    /// The first end of the phases that take part.
    pub(crate) fn first_end(&self) -> Option<usize> {
        let (a, b, c) = self.ends();
        self.row_of(sooner(sooner(a, b), c))
    }
}
