//! The rows of a BINARY data file, read in place (C37.111-1999, clause 6).

ghost use Rattle.std.specs.Prelude.{◌≡◌, ◌+◌, ◌<◌, ◌≤◌, ◌==◌, length, IfOk, IfErr};
ghost use Rattle.comtrade_format.specs.declared.file.Kind.TheVariants as kinds;
ghost use Rattle.comtrade_read.specs.declared.fault.ReadFault.TheVariants as faults;
ghost use Rattle.comtrade_read.specs.Head.{last_sample};
ghost use Rattle.comtrade_read.specs.Reads.{ReadsRows, FaultyData, row_size};
ghost use Rattle.comtrade_table.specs.Places as spec;

use crate::bytes::{bit_of, number_of, stamp_of, value_of};
use comtrade_format::{Head, Kind, Rate};
use dfr_channels::Reading;
use std::alloc::Allocator;
use std::marker::Model;
use thiserror::Error;

/// The most channels of a head.
pub(crate) const MOST: usize = 999_999;

/// Why bytes are not read in place.
#[derive(Clone, Copy, Debug, PartialEq, Eq, Error)]
pub enum TableFault {
    /// The head is that of ASCII data.
    #[error("the data are ASCII")]
    Ascii,
    /// The head has more than 999,999 channels, as none from a file has (clause 5.3.2).
    #[error("the head has more than 999,999 channels")]
    Channels,
    /// The data file is not as long as its rows.
    #[error("the data file is not as long as its rows")]
    Length,
}

/// The rows of a BINARY data file, in its bytes. A clause reads a table as its rows: those to which
/// the bytes read.
#[derive(Drop)]
pub struct BinaryTable<'a> {
    dat: &'a [u8],
    analog: usize,
    status: usize,
    /// The bytes of a row.
    size: usize,
    count: usize,
}

impl<'a> Model for BinaryTable<'a> {
    ghost use Rattle.std.specs.Prelude.{◌≡◌, ◌*◌, ◌<◌, List, length};
    ghost use Rattle.comtrade_format.specs.Parts.{RowParts};
    ghost use Rattle.comtrade_read.specs.Reads.{row_size};
    ghost use Rattle.comtrade_read.specs.Inner.BinaryRows.{rows_at};

    ghost Value = { List RowParts };

    ghost view = { λ t. rows_at t.analog t.status t.dat.now t.count };

    ghost invariant = { λ t. (length t.dat.now ≡ t.count * t.size)
        × (t.size ≡ row_size t.analog t.status)
        × (t.analog < 1000000) × (t.status < 1000000) };
}

/// The `endsamp` of the last rate, or 0 if there is none.
pub(crate) fn last_sample(rates: &[Rate]) -> u64
    ensures { result ≡ last_sample rates.now }
{
    match rates {
        [.., last] => last.endsamp,
        [] => 0,
    }
}

/// The number of bytes of a row.
pub(crate) fn row_size(analog: usize, status: usize) -> usize
    requires analog { analog < 1000000 }
    requires status { status < 1000000 }
    ensures { result ≡ row_size analog status }
{
    8 + 2 * analog + 2 * ((status + 15) / 16)
}

impl<'a> BinaryTable<'a> {
    /// The rows of a BINARY data file under its head. The file must have as many rows as the last
    /// rate's `endsamp`, or none if the head has no rate. Nothing is allocated.
    pub fn of<A: Allocator>(head: &Head<A>, dat: &'a [u8]) -> Result<BinaryTable<'a>, TableFault>
        ensures rows { IfOk result (ReadsRows head.now dat.now) }
        ensures ascii { IfErr result (λ e. e ≡ TableFault.Ascii → head.now.kind ≡ kinds.Ascii) }
        ensures channels { IfErr result (λ e. e ≡ TableFault.Channels → (head.now.kind ≡ kinds.Binary)
            × (1000000 ≤ length head.now.analog + length head.now.status)) }
        ensures few { IfOk result (λ _. length head.now.analog + length head.now.status < 1000000) }
        ensures length { IfErr result (λ e. e ≡ TableFault.Length → (head.now.kind ≡ kinds.Binary)
            × (length head.now.analog + length head.now.status < 1000000)
            × FaultyData head.now dat.now faults.Length) }
        ensures binary { IfOk result (λ _. head.now.kind ≡ kinds.Binary) }
    {
        match head.kind {
            Kind::Ascii => return Err(TableFault::Ascii),
            Kind::Binary => {}
        }
        let analog = head.analog.items().len();
        let status = head.status.items().len();
        if analog > MOST || status > MOST - analog {
            return Err(TableFault::Channels);
        }
        let size = row_size(analog, status);
        let count = last_sample(head.rates.items());
        // the product may exceed 64 bits
        if dat.len() as u128 != count as u128 * size as u128 {
            return Err(TableFault::Length);
        }
        Ok(BinaryTable {
            dat,
            analog,
            status,
            size,
            count: count as usize,
        })
    }

    /// How many rows there are.
    pub fn len(&self) -> usize
        ensures { result ≡ length self.now }
    {
        self.count
    }

    /// Whether there is no row.
    pub fn is_empty(&self) -> bool
        ensures { result ≡ (length self.now == 0) }
    {
        self.count == 0
    }

    /// The number of a row; None where there is no such row.
    pub fn number(&self, row: usize) -> Option<u64>
        ensures { result ≡ spec.number_at self.now row }
    {
        if row >= self.count {
            return None;
        }
        Some(number_of(&self.dat[row * self.size..]))
    }

    /// The time stamp of a row; None where it has none, or there is no such row.
    pub fn stamp(&self, row: usize) -> Option<u64>
        ensures { result ≡ spec.stamp_at self.now row }
    {
        if row >= self.count {
            return None;
        }
        stamp_of(&self.dat[row * self.size + 4..])
    }

    /// The reading of an analogue channel in a row; None where there is no such place.
    pub fn reading(&self, row: usize, channel: usize) -> Option<Reading>
        ensures { result ≡ spec.reading_at self.now row channel }
    {
        if row >= self.count || channel >= self.analog {
            return None;
        }
        Some(value_of(&self.dat[row * self.size + 8 + 2 * channel..]))
    }

    /// The state of a contact in a row; None where there is no such place.
    pub fn state(&self, row: usize, contact: usize) -> Option<bool>
        ensures { result ≡ spec.state_at self.now row contact }
    {
        if row >= self.count || contact >= self.status {
            return None;
        }
        let groups = row * self.size + 8 + 2 * self.analog;
        Some(bit_of(&self.dat[groups..], contact))
    }
}
