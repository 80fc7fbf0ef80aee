//! Reads the input and hands out what comes, one by one.

ghost use Rattle.std.specs.Prelude.{◌≡◌, ◌<◌, None, MatchOption, [], length};
ghost use Rattle.dfr_station.specs.Arrivals as spec;
ghost use Rattle.dfr_station.specs.Stations.{Begins};

use crate::intake::arrival::Arrival;
use crate::intake::buffer::Buffer;
use crate::intake::cutter::Cutter;
use crate::moment::Moment;
use crate::reading::Given;
use crate::station::Input;
use dfr_channels::{Layout, Scan};
use std::alloc::{Allocator, Global};
use std::io::Read;
use std::sync::Wait;
use std::time::Clock;

/// How the input ended.
#[derive(Clone, Copy, Debug, PartialEq, Eq)]
pub(crate) enum Ending {
    /// All that came was handed out.
    Whole,
    /// Within a frame. So many bytes of it came, and are not handed out.
    Cut(u64),
    /// It can't be read any more.
    Broken,
}

/// Why no more is read.
#[derive(Clone, Copy, Debug, PartialEq, Eq)]
pub(crate) enum Stop {
    /// The input has ended.
    End,
    /// It can't be read any more.
    Broken,
}

/// What comes next.
#[derive(Drop, Debug)]
pub(crate) enum Next<A: Allocator = Global> {
    /// This came.
    Arrival(Arrival<A>),
    /// A lost scan takes the place of one that did not come while the input stood still.
    Gap,
    /// Bytes have come. What came with them is handed out by the next calls.
    Read,
    /// All that was read has been handed out. The next call reads, and may wait for the input.
    Drained,
    /// The input has ended.
    End(Ending),
}

/// What comes with the input.
#[derive(Drop)]
pub(crate) struct Arrivals<'x, I, A: Allocator = Global> {
    pub(crate) input: I,
    cutter: Cutter<'x, A>,
    /// The moment of the last read.
    at: Moment,
    /// How many lost scans are handed out before anything else.
    gap: u32,
    /// All that was read has been handed out.
    is_drained: bool,
    /// Why no more is read.
    ending: Option<Stop>,
}

impl<'x, I, A: Allocator + Copy> Arrivals<'x, I, A> {
    /// Begins with what came before the recorder was made.
    pub(crate) fn new(
        alloc: A,
        layout: &'x Layout<A>,
        form: Input,
        read: (Buffer<A>, Moment),
        input: I,
    ) -> Arrivals<'x, I, A>
        ensures { Begins layout.entry.now form read.0 input result }
    {
        let (buffer, at) = read;
        Arrivals {
            input,
            cutter: Cutter::new(alloc, layout, form, buffer),
            at,
            gap: 0,
            is_drained: false,
            ending: None,
        }
    }

    /// The moment of the last read.
    pub(crate) fn at(&self) -> Moment {
        self.at
    }

    /// How many scans have come whole and wait, as far as that can be said before they are read.
    pub(crate) fn waiting(&self) -> u64 {
        self.cutter.waiting()
    }

    /// So many lost scans are to be handed out before anything else.
    pub(crate) fn stand_still(&mut self, lost: u32)
        requires none { self.old.gap ≡ 0 }
        ensures { (self.new.input ≡ self.old.input) × (self.new.cutter ≡ self.old.cutter)
            × (self.new.ending ≡ self.old.ending) × (self.new.gap ≡ lost) }
    {
        self.gap = lost;
    }

    /// How an input ended that was read to its end, once all that it gave was handed out.
    fn whole_or_cut(&self) -> Ending
        ensures { spec.EndsWith result self.now.cutter.buffer }
    {
        match self.cutter.buffer.waiting().len() {
            0 => Ending::Whole,
            left => Ending::Cut(left as u64),
        }
    }
}

impl<I: Read, A: Allocator + Copy> Arrivals<'_, I, A> {
    /// What comes next of what was read. None if more has to be read.
    fn next_read(&mut self, spare: &mut Option<Scan<A>>) -> Option<Next<A>>
        requires none { self.old.gap ≡ 0 }
        ensures next { MatchOption result (spec.IsDrained I.remaining self.old self.new)
            (λ next. spec.HandsNext I.remaining self.old next self.new) }
        ensures gap { MatchOption result (self.new.gap ≡ self.old.gap)
            (λ next. spec.ReadsAfterGap next self.new) }
    {
        let is_last = matches!(self.ending, Some(Stop::End));
        if let Some(arrival) = self.cutter.next(is_last, spare) {
            self.is_drained = false;
            return Some(Next::Arrival(arrival));
        }
        match self.ending? {
            Stop::End => Some(Next::End(self.whole_or_cut())),
            Stop::Broken => Some(Next::End(Ending::Broken)),
        }
    }

    /// Reads once.
    fn read<R: Wait + Clock>(&mut self, rt: &R)
        requires room { length self.old.cutter.buffer < 65_536 }
        requires going { self.old.ending ≡ None }
        ensures came { spec.CameFirst I.remaining self.old [] self.new }
        ensures gap { self.new.gap ≡ self.old.gap }
    {
        match self.cutter.buffer.fill(rt, &mut self.input) {
            Given::Bytes(_) => self.at = Moment::now(rt),
            Given::End => self.ending = Some(Stop::End),
            Given::Broken => self.ending = Some(Stop::Broken),
        }
    }

    /// What comes next. A scan of a frame has the memory of the spare one, if there is one.
    pub(crate) fn next<R: Wait + Clock>(&mut self, rt: &R, spare: &mut Option<Scan<A>>) -> Next<A>
        ensures next { spec.HandsNext I.remaining self.old result self.new }
        ensures gap { spec.ReadsAfterGap result self.new }
    {
        if self.gap > 0 {
            self.gap -= 1;
            return Next::Gap;
        }
        if let Some(next) = self.next_read(spare) {
            return next;
        }
        if !self.is_drained {
            self.is_drained = true;
            return Next::Drained;
        }
        self.read(rt);
        Next::Read
    }
}
