//! Records: the scans around a trigger.

use comtrade_values::Items;
use dfr_channels::Scan;
use std::alloc::{Allocator, Global};
use std::marker::Model;

/// What opened a record.
#[derive(Clone, Copy, Debug, PartialEq, Eq)]
pub enum Cause {
    /// A manual trigger.
    Manual,
    /// The rule of this number, from 0.
    Rule(u32),
}

/// Which scans a record has, and what opened it. Scans are numbered from 0 as they are accepted.
#[derive(Clone, Copy, Debug, PartialEq, Eq)]
pub struct Extent {
    /// The record's number, from 1 in the order of opening.
    pub number: u64,
    /// Its first scan.
    pub first: u64,
    /// The scan at which the trigger that opened it occurred.
    pub trigger: u64,
    /// Its last scan.
    pub last: u64,
    pub cause: Cause,
}

/// A finished record, with all its scans. Contracts see its parts.
#[derive(Drop, Debug)]
pub struct Record<A: Allocator = Global> {
    extent: Extent,
    scans: Items<Scan<A>, A>,
}

impl<A: Allocator> Model for Record<A> {
    ghost use Rattle.dfr_recorder.specs.Parts.{RecordParts, IsWhole};

    ghost Value = { RecordParts };

    ghost view = { λ r. record { extent = r.extent; scans = r.scans } };

    ghost invariant = { λ r. IsWhole (record { extent = r.extent; scans = r.scans }) };
}

impl<A: Allocator> Record<A> {
    ghost use Rattle.std.specs.Prelude.{◌≡◌};
    ghost use Rattle.dfr_recorder.specs.Parts.{IsWhole};

    pub(crate) fn whole(extent: Extent, scans: Vec<Scan<A>, A>) -> Record<A>
        requires { IsWhole (record { extent = extent; scans = scans.items }) }
        ensures extent { result.extent ≡ extent }
        ensures scans { result.scans ≡ scans.items }
    {
        Record {
            extent,
            scans: Items::of(scans),
        }
    }

    /// Which scans it has, and what opened it. Any record has its trigger among its scans, and
    /// every scan from its first to its last.
    pub fn extent(&self) -> Extent
        ensures value { result ≡ self.now.extent }
        ensures whole { IsWhole self.now }
    {
        self.extent
    }

    /// Its scans, in order.
    pub fn scans(&self) -> &[Scan<A>]
        ensures { result.now ≡ self.now.scans }
    {
        self.scans.items()
    }
}
