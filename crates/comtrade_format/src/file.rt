//! The content of a configuration file and its data file.

use comtrade_values::{Decimal, Items};
use dfr_channels::{AnalogChannel, Reading, StatusChannel};
use std::alloc::{Allocator, Global};
use std::marker::Model;

/// The type of the data file (C37.111-1999, 5.3.8).
#[derive(Clone, Copy, Debug, PartialEq, Eq)]
pub enum Kind {
    /// One line of text per row.
    Ascii,
    /// Rows of fixed length, with little-endian numbers.
    Binary,
}

/// A sampling rate (5.3.6).
#[derive(Clone, Copy, Debug)]
pub struct Rate {
    /// Scans per second.
    pub samp: Decimal,
    /// The number of the last row sampled at this rate.
    pub endsamp: u64,
}

/// The content of a configuration file (clause 5).
#[derive(Drop, Debug)]
pub struct Head<A: Allocator = Global> {
    /// The station's name (5.3.1).
    pub station: Items<u8, A>,
    /// The recording device (5.3.1).
    pub device: Items<u8, A>,
    /// The analogue channels, in the order of the file (5.3.3).
    pub analog: Items<AnalogChannel<A>, A>,
    /// The status channels (contacts), in the order of the file (5.3.4).
    pub status: Items<StatusChannel<A>, A>,
    /// The line frequency in Hz (5.3.5).
    pub line_freq: Decimal,
    /// The number of rates as the file gives it. If it is 0, `rates` still has one entry (5.3.6).
    pub nrates: u32,
    /// The sampling rates (5.3.6).
    pub rates: Items<Rate, A>,
    /// The instant of the first row, in microseconds since 1970-01-01 00:00:00 (5.3.7).
    pub first: i64,
    /// The instant of the trigger, in the same unit.
    pub trigger: i64,
    /// The type of the data file (5.3.8).
    pub kind: Kind,
    /// The factor that turns time stamps into microseconds (5.3.9).
    pub timemult: Decimal,
}

impl<A: Allocator> Model for Head<A> {
    ghost use Rattle.comtrade_format.specs.Parts.{HeadParts};

    ghost Value = { HeadParts };

    ghost view = { λ h. record {
      station = h.station;
      device = h.device;
      analog = h.analog;
      status = h.status;
      line_freq = h.line_freq;
      nrates = h.nrates;
      rates = h.rates;
      first = h.first;
      trigger = h.trigger;
      kind = h.kind;
      timemult = h.timemult;
    } };
}

/// A row of a data file (clause 6): one scan.
#[derive(Drop, Debug)]
pub struct Row<A: Allocator = Global> {
    /// The row's number.
    pub number: u64,
    /// The time stamp, if the row has one. Times `timemult` it is in microseconds.
    pub stamp: Option<u64>,
    /// One reading for each analogue channel.
    pub values: Items<Reading, A>,
    /// One bit for each status channel.
    pub bits: Items<bool, A>,
}

impl<A: Allocator> Model for Row<A> {
    ghost use Rattle.comtrade_format.specs.Parts.{RowParts};

    ghost Value = { RowParts };

    ghost view = { λ r. record { number = r.number; stamp = r.stamp; values = r.values; bits = r.bits } };
}

/// A configuration file with its data file.
#[derive(Drop, Debug)]
pub struct File<A: Allocator = Global> {
    /// The content of the configuration file.
    pub head: Head<A>,
    /// The rows of the data file.
    pub rows: Items<Row<A>, A>,
}

impl<A: Allocator> Model for File<A> {
    ghost use Rattle.comtrade_format.specs.Parts.{FileParts};

    ghost Value = { FileParts };

    ghost view = { λ f. record { head = f.head; rows = f.rows } };
}
