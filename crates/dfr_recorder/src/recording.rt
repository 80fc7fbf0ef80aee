//! The open record, whose last scan has yet to come.

use crate::{Extent, Record};
use comtrade_values::Memory;
use dfr_channels::Scan;
use std::alloc::{Allocator, Global};
use std::marker::Model;

/// A record whose last scan has yet to come.
#[derive(Drop, Debug)]
pub(crate) struct Recording<A: Allocator = Global> {
    extent: Extent,
    scans: Vec<Scan<A>, A>,
}

impl<A: Allocator> Model for Recording<A> {
    ghost use Rattle.dfr_recorder.specs.Parts.{RecordParts};

    ghost Value = { RecordParts };

    ghost view = { λ r. record { extent = r.extent; scans = r.scans.items } };
}

impl<A: Allocator> Recording<A> {
    ghost use Rattle.std.specs.Prelude.{◌≡◌, [], ◌∷◌, ◌++◌, length, OnOk, OnErr};
    ghost use Rattle.dfr_recorder.specs.Parts.{IsWhole};

    pub(crate) fn new(extent: Extent, scans: Vec<Scan<A>, A>) -> Recording<A>
        ensures extent { result.extent ≡ extent }
        ensures scans { result.scans ≡ scans.items }
    {
        Recording { extent, scans }
    }

    pub(crate) fn extent(&self) -> Extent
        ensures { result ≡ self.now.extent }
    {
        self.extent
    }

    pub(crate) fn len(&self) -> usize
        ensures { result ≡ length self.now.scans }
    {
        self.scans.len()
    }

    /// Sets its extent, and so its last scan.
    pub(crate) fn move_to(&mut self, extent: Extent)
        ensures extent { self.new.extent ≡ extent }
        ensures scans { self.new.scans ≡ self.old.scans }
    {
        self.extent = extent;
    }

    /// Adds a scan. If an allocation fails, nothing changes.
    pub(crate) fn push(&mut self, scan: Scan<A>) -> Result<(), Memory>
        ensures extent { self.new.extent ≡ self.old.extent }
        ensures ok { OnOk result (self.new.scans ≡ self.old.scans ++ scan ∷ []) }
        ensures err { OnErr result (self.new.scans ≡ self.old.scans) }
    {
        match self.scans.push(scan) {
            Ok(()) => Ok(()),
            Err(_) => Err(Memory),
        }
    }

    /// Makes a finished record of it, once it has all its scans.
    pub(crate) fn close(self) -> Record<A>
        requires { IsWhole self }
        ensures extent { result.extent ≡ self.extent }
        ensures scans { result.scans ≡ self.scans }
    {
        let Recording { extent, scans } = self;
        Record::whole(extent, scans)
    }
}
