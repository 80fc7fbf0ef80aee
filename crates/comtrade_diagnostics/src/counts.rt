//! How many lines and rows a head declares.

use comtrade_format::Head;
use std::alloc::Allocator;

/// The number of lines of each kind in a configuration file.
#[derive(Clone, Copy)]
pub(crate) struct Counts {
    pub(crate) analog: u64,
    pub(crate) status: u64,
    pub(crate) rates: u64,
}

impl Counts {
    /// The counts of a head.
    pub(crate) fn of<A: Allocator>(head: &Head<A>) -> Counts {
        Counts {
            analog: head.analog.items().len() as u64,
            status: head.status.items().len() as u64,
            rates: head.rates.items().len() as u64,
        }
    }
}

/// The number of rows that a head declares.
pub(crate) fn rows_of<A: Allocator>(head: &Head<A>) -> u64 {
    match head.rates.items().last() {
        Some(rate) => rate.endsamp,
        None => 0,
    }
}
