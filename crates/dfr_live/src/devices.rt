//! The devices of a recorder that runs for long: they may lose scans, give orders while scans come,
//! and wait for memory. Each `Feed`, `Orders` and `Sink` is such a device.
//!
//! `W` names a family of devices: `Live` those of `run_live`. A crate that implements these traits for
//! its own types names them by a type of its own.

use crate::entry::Reply;
use crate::report::LiveFault;
use crate::station::{Fed, Feed, Order, Orders, Sink};
use dfr_channels::Scan;
use dfr_recorder::Extent;
use std::alloc::{Allocator, Global};

/// The devices that each `Feed`, `Orders` and `Sink` is.
#[derive(Clone, Copy, Debug, Drop)]
pub struct Live;

/// A source of scans that need not wait for the queue.
///
/// An implementation states in `gives` what one call of `next` does, and in `loses` what it does
/// when it hears that a scan is lost.
pub trait Intake<A: Allocator, W> {
    ghost use Rattle.std.specs.Prelude.{◌≡◌, Result, ℕ, MatchBool};
    ghost use Rattle.dfr_live.specs.declared.station.Fed.{Fed};

    ghost gives: { Self → Result (Fed A) ℕ → Self → Type 0 };

    ghost loses: { Self → Self → Type 0 };

    /// Returns the next scan, or the source's own error code. It may wait for its input. A scan in
    /// `spare` is not needed any more: it may be taken, and the next one have its memory.
    fn next(&mut self, spare: &mut Option<Scan<A>>) -> Result<Fed<A>, u32>
        ensures { gives self.old result self.new };

    /// The queue has no place for the scan that was given last. True: a lost scan takes its place.
    /// False: it is offered again.
    fn is_lost(&mut self) -> bool
        ensures { MatchBool result (loses self.old self.new) (self.new ≡ self.old) };
}

/// How a recording stands.
#[derive(Clone, Copy, Debug, PartialEq, Eq)]
pub struct Standing {
    /// How many scan steps were made. Those of lost and of refused scans count.
    pub pumped: u64,
    /// At how many of them a rule fired while the queue of finished records was full.
    pub missed: u64,
    /// How many finished records waited when this was last looked at.
    pub waiting: u32,
}

/// What a desk answers.
#[derive(Drop, Debug)]
pub enum Asked<A: Allocator = Global> {
    /// This order comes next. Its place is the number of scan steps to be made before it. Where more
    /// were made already, it is made at once.
    Order(u64, Order<A>),
    /// No order is known yet. The desk is asked again, after at most so many scan steps in all.
    NotYet(u64),
    /// No more orders come.
    Done,
}

/// A source of orders that may come while scans are recorded.
///
/// An implementation states in `asks` what a call of `next` does, and in `hears` what a reply does.
pub trait Desk<A: Allocator, W> {
    ghost use Rattle.std.specs.Prelude.{Option, Bool, ℕ};
    ghost use Rattle.dfr_live.specs.declared.devices.Asked.{Asked};
    ghost use Rattle.dfr_live.specs.declared.devices.Standing.{Standing};
    ghost use Rattle.dfr_live.specs.declared.entry.Reply.{Reply};

    ghost asks: { Self → Standing → Asked A → Self → Type 0 };

    ghost hears: { Self → ℕ → Option Reply → Bool → Self → Type 0 };

    /// Returns the next order, if there is one. It must not wait for the input.
    fn next(&mut self, standing: Standing) -> Asked<A>
        ensures { asks self.old standing result self.new };

    /// The reply to the order that was given last, made after `at` scan steps. None: an allocation
    /// failed, and the order was not made. False ends the recording with `Memory`.
    fn answered(&mut self, at: u64, reply: Option<Reply>) -> bool
        ensures { hears self.old at reply result self.new };
}

/// What to do with a record for whose files an allocation failed.
#[derive(Clone, Copy, Debug, PartialEq, Eq)]
pub enum Short {
    /// Make its files again.
    Again,
    /// Give it up.
    GiveUp,
    /// End the recording with `Memory`.
    Stop,
}

/// A destination of records that may wait for memory.
///
/// An implementation states in `puts` what a call of `put` does, and in `lacks` what it does about a
/// record without memory.
pub trait Outlet<W> {
    ghost use Rattle.std.specs.Prelude.{Result, ℕ};
    ghost use Rattle.dfr_recorder.specs.declared.record.Extent.{Extent};
    ghost use Rattle.dfr_live.specs.declared.devices.Short.{Short};
    ghost use Rattle.dfr_live.specs.Devices.{FilesParts};

    ghost puts: { Self → FilesParts → Result (Unit {0}) ℕ → Self → Type 0 };

    ghost lacks: { Self → Extent → Short → Self → Type 0 };

    /// Receives a record's configuration file and data file. It may wait, and try again itself. An
    /// error, with the outlet's own code, ends the recording.
    fn put(&mut self, extent: Extent, cfg: &[u8], dat: &[u8]) -> Result<(), u32>
        ensures { puts self.old (record { extent = extent; cfg = cfg.now; dat = dat.now }) result self.new };

    /// An allocation failed for the files of a record.
    fn no_memory(&mut self, extent: Extent) -> Short
        ensures { lacks self.old extent result self.new };
}

/// What a thread does when it cannot go on.
pub trait Pace {
    ghost use Rattle.std.specs.Prelude.{◌≡◌, IfErr};

    /// It found nothing to do, so many turns in a row. An error, `Turns`, ends the recording.
    fn idle(&self, turns: u64) -> Result<(), LiveFault>
        ensures { IfErr result (λ fault. fault ≡ LiveFault.Turns) };

    /// An allocation failed. What needed it is tried again, unless this returns an error, `Memory`.
    fn short(&self) -> Result<(), LiveFault>
        ensures { IfErr result (λ fault. fault ≡ LiveFault.Memory) };
}

impl<A: Allocator, F: Feed<A>> Intake<A, Live> for F {
    ghost use Rattle.dfr_live.specs.Devices.{never};

    ghost gives = { λ s r t. F.gives s r t };

    ghost loses = { λ s t. never s t };

    fn next(&mut self, _spare: &mut Option<Scan<A>>) -> Result<Fed<A>, u32> {
        Feed::next(self)
    }

    fn is_lost(&mut self) -> bool {
        false
    }
}

impl<A: Allocator, O: Orders<A>> Desk<A, Live> for O {
    ghost use Rattle.dfr_live.specs.Devices.{asks_plainly, hears_plainly};

    ghost asks = { λ s _ r t. asks_plainly O.hands s r t };

    ghost hears = { λ s _ reply goes_on t. hears_plainly s reply goes_on t };

    fn next(&mut self, _standing: Standing) -> Asked<A> {
        match Orders::next(self) {
            Some((place, order)) => Asked::Order(place, order),
            None => Asked::Done,
        }
    }

    fn answered(&mut self, _at: u64, reply: Option<Reply>) -> bool {
        reply.is_some()
    }
}

impl<K: Sink> Outlet<Live> for K {
    ghost use Rattle.dfr_live.specs.Devices.{stops};

    ghost puts = { λ s files r t. K.puts s files r t };

    ghost lacks = { λ s _ short t. stops s short t };

    fn put(&mut self, extent: Extent, cfg: &[u8], dat: &[u8]) -> Result<(), u32> {
        Sink::put(self, extent, cfg, dat)
    }

    fn no_memory(&mut self, _extent: Extent) -> Short {
        Short::Stop
    }
}
