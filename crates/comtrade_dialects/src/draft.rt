//! The contents of a configuration file, before the data are known.

use crate::kinds::Form;
use crate::row::RowCounts;
use comtrade_format::Rate;
use comtrade_values::{Decimal, Items};
use dfr_channels::{AnalogChannel, StatusChannel};
use std::alloc::Allocator;

/// The revision whose lines a file has.
#[derive(Clone, Copy, PartialEq, Eq)]
pub(crate) enum Revision {
    Of1991,
    Of1999,
    Of2013,
}

/// How a channel declares the range of its samples.
#[derive(Clone, Copy, PartialEq, Eq)]
pub(crate) enum Range {
    /// As whole numbers that 1999 can hold.
    Said,
    /// It is empty.
    Empty,
    /// As whole numbers of 32 bits, of which 1999 cannot hold one.
    Long(i32, i32),
    /// In a form or with numbers that 32 bits cannot hold.
    Other,
    /// From at least 0 to more than 32,767, as for unsigned samples.
    Unsigned,
}

/// How the line of an analogue channel declares its range.
#[derive(Clone, Copy)]
pub(crate) struct DeclaredRange {
    pub range: Range,
    pub line: u64,
}

/// The rates, and the last row that they name. No rate if none is usable; no row if there is
/// no line.
#[derive(Drop)]
pub(crate) struct Rates<A: Allocator> {
    pub list: Vec<Rate, A>,
    pub last: Option<u64>,
}

/// The channels.
#[derive(Drop)]
pub(crate) struct ChannelLines<A: Allocator> {
    pub analog: Vec<AnalogChannel<A>, A>,
    /// For each analogue channel.
    pub said: Vec<DeclaredRange, A>,
    pub status: Vec<StatusChannel<A>, A>,
}

impl<A: Allocator> ChannelLines<A> {
    pub(crate) fn counts(&self) -> RowCounts {
        RowCounts {
            k: self.analog.len(),
            m: self.status.len(),
        }
    }
}

/// The names in the first line.
#[derive(Drop)]
pub(crate) struct NamesLine<A: Allocator> {
    pub station: Items<u8, A>,
    pub device: Items<u8, A>,
}

/// The contents of the lines of a configuration file.
#[derive(Drop)]
pub(crate) struct ConfigDraft<A: Allocator> {
    pub names: NamesLine<A>,
    pub channels: ChannelLines<A>,
    pub line_freq: Decimal,
    pub rates: Rates<A>,
    pub first: i64,
    pub trigger: i64,
    /// None if the file does not declare the type.
    pub form: Option<Form>,
    pub timemult: Decimal,
    pub revision: Revision,
    /// The times have more than six decimal places of a second.
    pub has_nanos: bool,
}
