//! What is handed out.

use dfr_bay::{Arrival, Lost};
use dfr_bus::Fault;
use std::alloc::{Allocator, Global};
use std::marker::Model;

/// What is reported of a frame. Streams, control blocks and contacts are told by their numbers,
/// from 0.
#[derive(Clone, Copy, Debug, PartialEq, Eq)]
pub enum Event {
    /// What becomes of a unit of a stream, if it isn't taken without a gap.
    Stream(usize, Arrival),
    /// The time to live of a control block's message is over.
    Expired(usize),
    /// A message whose states are not taken: it is a test, its control block needs commissioning, or
    /// it is simulated.
    Doubtful(usize),
    /// So many states of a control block are lost.
    StatesLost(usize, u32),
    /// A message has a state before the newest: out of order, or its sender began anew.
    Back(usize),
    /// A message has no state for this contact.
    NoState(usize),
    /// A frame that can't be read.
    Skipped(Fault),
}

/// A reading that is missing in a scan.
#[derive(Clone, Copy, Debug, PartialEq, Eq)]
pub struct LostReading {
    /// Its channel.
    pub channel: usize,
    /// Why.
    pub why: Lost,
}

/// What is handed out. Who reads it may clear it.
#[derive(Drop)]
pub struct Feed<A: Allocator = Global> {
    /// Lines of scans, as `dfrd` reads them.
    pub lines: Vec<u8, A>,
    /// What is reported of frames.
    pub events: Vec<Event, A>,
    /// Readings that are missing in the scans.
    pub missing: Vec<LostReading, A>,
}

impl<A: Allocator> Model for Feed<A> {
    ghost use Rattle.dfr_capture.specs.Recordings.{FeedParts};

    ghost Value = { FeedParts };

    ghost view = { λ f. record { lines = f.lines.items; events = f.events.items; missing = f.missing.items } };
}

impl<A: Allocator + Copy> Feed<A> {
    ghost use Rattle.std.specs.Prelude.{◌≡◌, []};

    /// Nothing.
    pub fn new(alloc: A) -> Feed<A>
        ensures { result ≡ record { lines = []; events = []; missing = [] } }
    {
        Feed {
            lines: Vec::new(alloc),
            events: Vec::new(alloc),
            missing: Vec::new(alloc),
        }
    }
}
