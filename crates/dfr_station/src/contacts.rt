//! The changes of contacts: the acquisition puts them into a queue, and the printing thread dates
//! them.

ghost use Rattle.std.specs.Prelude.{◌≡◌, ◌≤◌, [], IfOk, reverse};
ghost use Rattle.rtrb.specs.Ring.{sent};
ghost use Rattle.dfr_sequence.specs.Sequences.{Kept, all_wanted, sequence};
ghost use Rattle.dfr_live.specs.Devices.{Came};
ghost use Rattle.dfr_station.specs.Handed.{handed, HandsOne};

use crate::signals::Signals;
use crate::station::Printer;
use comtrade_values::Memory;
use dfr_channels::Layout;
use dfr_clock::Timebase;
use dfr_sequence::{Change, Limit, Sequence};
use rtrb::{Consumer, Producer, RingBuffer};
use std::alloc::{Allocator, Global};
use std::marker::Model;
use std::sync::atomic::Ordering;
use std::sync::{Mutex, Wait};

/// The most changes that may wait to be dated.
const WAITING: usize = 4_096;

/// The most changes that are dated in one turn.
const BATCH: usize = 1_024;

/// The end that sees the scans. It never waits: while the queue is full, it counts what it has no
/// room for.
#[derive(Drop)]
pub(crate) struct Contacts<A: Allocator = Global> {
    sequence: Sequence<A>,
    /// What is told at the newest scan.
    told: Vec<Change, A>,
    lane: Producer<Change, A>,
    /// How many changes the queue had no room for.
    untold: u64,
}

impl<A: Allocator> Model for Contacts<A> {
    ghost use Rattle.rtrb.specs.Ring.{sent};
    ghost use Rattle.dfr_station.specs.Handed.{Handed, handed};

    ghost Value = { Handed };

    ghost view = { λ c. handed c.sequence (sent c.lane) c.untold };
}

/// The end from which changes are taken.
#[derive(Drop)]
pub(crate) struct Changes<A: Allocator = Global> {
    lane: Consumer<Change, A>,
    /// How many changes that had no room have been reported.
    reported: u64,
}

/// Both ends, for contacts with these normal states.
pub(crate) fn contacts_of<A: Allocator + Copy>(
    alloc: A,
    limit: Limit,
    normal: &[bool],
) -> Result<(Contacts<A>, Changes<A>), Memory>
    requires some { 1 ≤ limit.most }
    ensures { IfOk result (λ made. made.0 ≡ handed (sequence (all_wanted limit 0 normal.now) []) [] 0) }
{
    let (lane, taken) = RingBuffer::new(alloc, WAITING)?;
    let contacts = Contacts {
        sequence: Sequence::new(alloc, limit, normal)?,
        told: Vec::with_capacity(alloc, normal.len())?,
        lane,
        untold: 0,
    };
    let changes = Changes {
        lane: taken,
        reported: 0,
    };
    Ok((contacts, changes))
}

/// Puts a change into the queue, or counts its changes if there is no room.
fn hand_one<A: Allocator>(lane: &mut Producer<Change, A>, untold: &mut u64, change: Change)
    ensures { (k : Kept) → HandsOne (handed k (sent lane.old) untold.old) change (handed k (sent lane.new) untold.new) }
{
    if lane.push(change).is_err() {
        *untold = untold.saturating_add(u64::from(change.count));
    }
}

/// Puts the changes into the queue, one after the other.
fn hand_on<A: Allocator>(lane: &mut Producer<Change, A>, untold: &mut u64, told: &[Change])
    ensures { (k : Kept) → Came HandsOne (handed k (sent lane.old) untold.old) (reverse told.now) (handed k (sent lane.new) untold.new) }
{
    for change in told {
        hand_one(lane, untold, *change);
    }
}

impl<A: Allocator + Copy> Contacts<A> {
    ghost use Rattle.dfr_station.specs.Handed.{Sees};

    /// Sees a scan that the queue of scans took. If an allocation fails, it counts as lost: its changes
    /// are told with the next scan.
    pub(crate) fn see(&mut self, signals: &Signals, scan: u64, bits: &[bool])
        ensures { Sees self.old scan bits.now self.new }
    {
        self.told.clear();
        if self.sequence.step(scan, bits, &mut self.told).is_err() {
            return;
        }
        hand_on(&mut self.lane, &mut self.untold, &self.told);
        signals.untold.store(self.untold, Ordering::SeqCst);
    }
}

/// The instant of a scan, in microseconds since 1970-01-01 00:00:00 UTC: the date of a record that it
/// triggers. None after the year 9999.
fn instant_of<A: Allocator, R: Wait>(
    rt: &R,
    times: Option<&Mutex<Timebase<A>>>,
    layout: &Layout<A>,
    scan: u64,
) -> Option<i64> {
    match times {
        Some(times) => i64::try_from(times.lock(rt).instant(scan)).ok(),
        None => layout.instant(scan),
    }
}

impl<A: Allocator> Changes<A> {
    /// Hands the waiting changes to the printer. Returns whether there were any.
    pub(crate) fn print<P: Printer, R: Wait>(
        &mut self,
        rt: &R,
        printer: &mut P,
        signals: &Signals,
        (times, layout): (Option<&Mutex<Timebase<A>>>, &Layout<A>),
    ) -> bool {
        let count = self.lane.slots().min(BATCH);
        for _ in 0..count {
            if let Ok(change) = self.lane.pop() {
                let instant = instant_of(rt, times, layout, change.flip.place.scan);
                printer.change(instant, change);
            }
        }
        let untold = signals.untold.load(Ordering::SeqCst);
        if untold != self.reported {
            printer.miss_changes(untold.saturating_sub(self.reported));
            self.reported = untold;
        }
        count > 0
    }
}
