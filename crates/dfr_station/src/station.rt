//! What a recorder is connected to.

use crate::event::{Event, Trouble};
use crate::kept::NewRules;
use comtrade_write::Kind;
use dfr_channels::Layout;
use dfr_detect::Detectors;
use dfr_folder::Key;
use dfr_recorder::Recorder;
use dfr_sequence::Change;
use rtrb::Consumer;
use std::alloc::{Allocator, Global};
use std::sync::Arc;
use std::sync::atomic::AtomicBool;

/// What a store did with a pair that it took.
#[derive(Clone, Copy, Debug, PartialEq, Eq)]
pub struct Stored {
    /// The name under which the pair is stored.
    pub key: Key,
    /// How many older pairs were removed.
    pub removed: u64,
}

/// Takes the records' pairs of files.
///
/// An implementation may state in `stores` what one call does, whatever the header is: the store before
/// it, the name, the two files, the answer, and the store after it.
pub trait Store {
    ghost use Rattle.std.specs.Prelude.{Result, ℕ, List, ⊤};
    ghost use Rattle.dfr_folder.specs.declared.name.Key.{Key};
    ghost use Rattle.dfr_station.specs.declared.event.Trouble.{Trouble};
    ghost use Rattle.dfr_station.specs.declared.station.Stored.{Stored};

    ghost stores: { Self → Key → List ℕ → List ℕ → Result Stored Trouble → Self → Type 0 } = { λ _ _ _ _ _ _. ⊤ };

    /// Stores a record's configuration file and data file: both of them, or neither on an error. A
    /// header file is stored next to them, if there is one and that is possible.
    fn put(
        &mut self,
        key: Key,
        cfg: &[u8],
        dat: &[u8],
        header: Option<&[u8]>,
    ) -> Result<Stored, Trouble>
        ensures { stores self.old key cfg.now dat.now result self.new };
}

/// Prints events.
pub trait Printer {
    /// Prints an event. `at` is the instant of printing, in microseconds since 1970-01-01 00:00:00 UTC.
    /// What can't be printed is dropped.
    fn print(&mut self, at: i64, event: Event);

    /// Takes what is told of a contact, whose newest change was at this instant, in microseconds since
    /// 1970-01-01 00:00:00 UTC; None after the year 9999.
    fn change(&mut self, _instant: Option<i64>, _change: Change) {}

    /// So many changes of contacts were not handed over, since the queue was full.
    fn miss_changes(&mut self, _count: u64) {}
}

/// What an operator sends, and the flag that its line `stop` sets: then the input is to end. The rules
/// that it sets are left at `kept`, if they are to be kept beyond this run.
#[derive(Drop)]
pub struct Control<A: Allocator = Global> {
    pub bytes: Consumer<u8, A>,
    pub stop: Arc<AtomicBool, Global>,
    pub kept: Option<Arc<NewRules<A>, Global>>,
}

/// What a sample of -32768 in a frame is.
#[derive(Clone, Copy, Debug, PartialEq, Eq)]
pub enum Lowest {
    /// A missing one, as in BINARY data.
    Missing,
    /// One that the converter clipped: it counts as -32767.
    Clipped,
}

/// The form in which scans come.
#[derive(Clone, Copy, Debug, PartialEq, Eq)]
pub enum Input {
    /// Lines of text.
    Lines,
    /// Frames of bytes.
    Frames(Lowest),
    /// Frames of bytes, each with a mark, a checksum and a counter before it.
    Counted(Lowest),
}

/// A recorder, and how to run it.
#[derive(Drop)]
pub struct Station<A: Allocator = Global> {
    /// The recorder. Its last status channels are those of the detectors.
    pub recorder: Recorder<A>,
    /// The channels of the input: all but those of the detectors.
    pub inputs: Layout<A>,
    /// The detectors, in the order of their status channels.
    pub detectors: Detectors<A>,
    /// The form of the input.
    pub input: Input,
    /// The kind of the data files.
    pub kind: Kind,
    /// Whether to print a line each minute.
    pub minutes: bool,
    /// What an operator sends, if there is one.
    pub operator: Option<Control<A>>,
    /// Whether the input waits, so that nothing is lost for want of speed: while the queue of scans
    /// is full, and while the shelf has no room for another record.
    pub waits: bool,
    /// The most lost scans that take the place of those that did not come while the input stood still.
    pub gap: u32,
    /// The most changes of a contact that are told at the scans of a second, up to 1,000. None: none
    /// are told.
    pub chatter: Option<usize>,
}

/// Names the devices of a station.
#[derive(Clone, Copy, Debug, Drop)]
pub(crate) struct Recording;
