//! Where a moment lies in a record.

use crate::part::fault::PartFault;
use crate::part::rows::rows_between;
use comtrade_format::File;
use std::alloc::Allocator;

/// Where a moment lies in a record.
#[derive(Clone, Copy, Debug, PartialEq, Eq)]
pub(crate) enum Reach {
    /// Before the first row, or after the last one.
    Before,
    After,
    /// This many rows were taken up to it.
    Within(usize),
    /// It is not a moment, or the record has no times.
    Unknown,
}

pub(crate) fn reach_of<A: Allocator>(file: &File<A>, moment: &str) -> Reach {
    match rows_between(file, Some(moment), None) {
        Err(PartFault::NoRow) => return Reach::After,
        Err(_) => return Reach::Unknown,
        Ok(_) => {}
    }
    match rows_between(file, None, Some(moment)) {
        Ok(rows) => Reach::Within(rows.to),
        Err(PartFault::NoRow) => Reach::Before,
        Err(_) => Reach::Unknown,
    }
}
