//! One contact, scan after scan.

ghost use Rattle.std.specs.Prelude.{◌≡◌, ◌≤◌, ◌+◌, ◌-◌, min};
ghost use Rattle.dfr_sequence.specs.Contacts as spec;

use crate::{Change, Flip, Limit, Place};
use circular_buffer::HeapCircularBuffer;
use std::alloc::{AllocError, Allocator, Global};
use std::marker::Model;

/// A contact: what is kept of its history. It takes the same time and memory for each scan.
#[derive(Drop)]
pub(crate) struct Contact<A: Allocator = Global> {
    channel: usize,
    limit: Limit,
    /// The state of the newest scan.
    on: bool,
    /// The newest change that is not told yet.
    newest: Option<Flip>,
    /// How many changes are not told yet.
    count: u32,
    /// The scans at which a change was told last, the newest first.
    recent: HeapCircularBuffer<u64, A>,
}

impl<A: Allocator> Model for Contact<A> {
    ghost use Rattle.std.specs.Prelude.{◌≡◌, ◌≤◌};
    ghost use Rattle.dfr_sequence.specs.Contacts.{Kept, kept_by};

    ghost Value = { Kept };

    ghost view = { λ a. kept_by a.channel a.limit a.on a.newest a.count a.recent.items };

    ghost invariant = { λ a. (1 ≤ a.limit.most) × (a.recent.capacity ≡ a.limit.most) };
}

/// One change more, up to the greatest number.
fn one_more(count: u32) -> u32
    ensures { result ≡ min 4_294_967_295 (count + 1) }
{
    if count < u32::MAX { count + 1 } else { count }
}

/// Whether two states differ.
pub(crate) fn differ(one: bool, other: bool) -> bool
    ensures { result ≡ spec.differ one other }
{
    match (one, other) {
        (true, false) | (false, true) => true,
        (true, true) | (false, false) => false,
    }
}

/// Whether a change may be told at a scan, if the one that counts was told at another.
fn is_apart(rate: u32, earlier: Option<u64>, scan: u64) -> bool
    ensures { result ≡ spec.is_apart rate earlier scan }
{
    match earlier {
        None => true,
        Some(earlier) => u128::from(earlier) + u128::from(rate) <= u128::from(scan),
    }
}

impl<A: Allocator> Contact<A> {
    ghost use Rattle.std.specs.Prelude.{◌≡◌, ◌≤◌, ◌∷◌, [], None, IfOk, slice_get};
    ghost use Rattle.dfr_sequence.specs.Contacts.{kept, wanted, noted, told_by, after_telling, IsStep};

    /// A contact of which no scan has come.
    pub(crate) fn new(
        alloc: A,
        channel: usize,
        limit: Limit,
        normal: bool,
    ) -> Result<Contact<A>, AllocError>
        requires some { 1 ≤ limit.most }
        ensures { IfOk result (λ contact. contact ≡ kept (wanted channel limit normal) []) }
    {
        let recent = HeapCircularBuffer::with_capacity(alloc, limit.most)?;
        Ok(Contact {
            channel,
            limit,
            on: normal,
            newest: None,
            count: 0,
            recent,
        })
    }

    /// Notes the state at a scan.
    fn note(&mut self, place: Place, bits: &[bool])
        ensures value { self.new ≡ noted self.old place bits.now }
        ensures some { 1 ≤ self.old.limit.most }
    {
        let on = match bits.get(self.channel) {
            Some(on) => *on,
            None => self.on,
        };
        if differ(on, self.on) {
            self.on = on;
            self.newest = Some(Flip { place, on });
            self.count = one_more(self.count);
        }
    }

    /// Tells what waits, if it may be told at this scan.
    fn tell(&mut self, scan: u64) -> Option<Change>
        ensures told { result ≡ told_by self.old scan }
        ensures kept { self.new ≡ after_telling self.old scan }
    {
        let flip = self.newest?;
        let earlier = self.recent.get(self.limit.most - 1).copied();
        if !is_apart(self.limit.rate, earlier, scan) {
            return None;
        }
        let change = Change {
            channel: self.channel,
            flip,
            count: self.count,
        };
        self.newest = None;
        self.count = 0;
        let _ = self.recent.push_front(scan);
        Some(change)
    }

    /// Takes in a scan, and returns what is told of the contact at it.
    pub(crate) fn step(&mut self, place: Place, bits: &[bool]) -> Option<Change>
        ensures { IsStep self.old place bits.now result self.new }
    {
        self.note(place, bits);
        self.tell(place.scan)
    }
}
