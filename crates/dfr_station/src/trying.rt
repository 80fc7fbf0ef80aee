//! What is reported of a store, and whether a pair that it did not take is tried again.

ghost use Rattle.std.specs.Prelude.{◌≡◌, MatchBool, false};
ghost use Rattle.dfr_station.specs.Input.{one_more};

use crate::event::{ClockState, Event, Trouble};
use crate::outlet::{Exports, LAST_TRIES, RETRY};
use crate::station::Stored;
use crate::times::followed_by;
use dfr_folder::Key;
use dfr_recorder::Extent;
use std::alloc::Allocator;
use std::sync::Wait;
use std::sync::atomic::Ordering;
use std::thread;
use std::time::{Clock, Duration};

impl<K, R: Wait + Clock, A: Allocator> Exports<'_, K, R, A> {
    /// How the wall clock and the scans stand to each other.
    pub(crate) fn clock_state(&self) -> Option<ClockState> {
        let ahead = self.signals.clock()?;
        let followed = match self.times {
            Some(times) => followed_by(&times.lock(self.rt), self.layout.start()),
            None => None,
        };
        Some(ClockState { ahead, followed })
    }

    /// Reports that the store took a pair, and counts it.
    pub(crate) fn tell_stored(&mut self, extent: Extent, stored: Stored)
        ensures { self.new ≡ record self.old { records = one_more self.old.records } }
    {
        if self.trouble.is_some() {
            self.trouble = None;
            self.teller.tell(Event::Over);
        }
        self.records = self.records.saturating_add(1);
        self.signals.records.store(self.records, Ordering::SeqCst);
        let clock = self.clock_state();
        self.teller.tell(Event::Record {
            extent,
            key: stored.key,
            clock,
            is_cut: false,
        });
        if stored.removed > 0 {
            self.teller.tell(Event::Removed(stored.removed));
        }
    }

    /// The files of a record were made: a want of memory is over.
    fn tell_memory(&mut self)
        ensures { self.new ≡ self.old }
    {
        if self.trouble == Some(Trouble::Memory) {
            self.trouble = None;
            self.teller.tell(Event::Over);
        }
    }

    /// Reports that a record is given up, and counts it.
    fn give_up(&mut self, key: Key, extent: Extent, why: Trouble)
        ensures { self.new ≡ record self.old { unwritten = one_more self.old.unwritten } }
    {
        self.unwritten = self.unwritten.saturating_add(1);
        self.teller.tell(Event::Unwritten { extent, key, why });
    }

    /// Reports why a pair wasn't stored, unless that was done. After a second it is tried again; but
    /// after the input has ended, only a few times in all, and in a storm never. Returns whether it is
    /// tried again. If not, the record is counted.
    pub(crate) fn tries_again(&mut self, key: Key, extent: Extent, trouble: Trouble) -> bool
        ensures counted { MatchBool result (self.new ≡ self.old)
            (self.new ≡ record self.old { unwritten = one_more self.old.unwritten }) }
        ensures storm { trouble ≡ Trouble.Storm → result ≡ false }
    {
        match trouble {
            Trouble::Storm => {
                self.tell_memory();
                self.give_up(key, extent, trouble);
                false
            }
            _ => self.waits(key, extent, trouble),
        }
    }

    /// Reports a trouble, unless that was done.
    pub(crate) fn tell_trouble(&mut self, trouble: Trouble)
        ensures { self.new ≡ self.old }
    {
        if self.trouble != Some(trouble) {
            self.trouble = Some(trouble);
            self.teller.tell(Event::Trouble(trouble));
        }
    }

    /// Reports a trouble, unless that was done, and waits for a second. After the input has ended the
    /// record is given up in the end. Returns whether its pair is tried again.
    fn waits(&mut self, key: Key, extent: Extent, trouble: Trouble) -> bool
        ensures { MatchBool result (self.new ≡ self.old)
            (self.new ≡ record self.old { unwritten = one_more self.old.unwritten }) }
    {
        self.tell_trouble(trouble);
        if self.is_last() {
            self.give_up(key, extent, trouble);
            return false;
        }
        thread::sleep(self.rt, Duration::from_millis(RETRY));
        true
    }

    /// Whether a record that the store didn't take is given up: the input has ended, and pairs were
    /// tried often enough since then.
    pub(crate) fn is_last(&mut self) -> bool
        ensures { self.new ≡ self.old }
    {
        if !self.signals.acquired.load(Ordering::SeqCst) {
            return false;
        }
        if self.last_tries < LAST_TRIES {
            self.last_tries += 1;
        }
        self.last_tries == LAST_TRIES
    }
}
