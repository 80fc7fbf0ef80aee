//! The lines of the file of events, which wait for the thread that writes them.

use crate::outcome::{FileFault, complain};
use crate::output::Lines;
use dfr_channels::Layout;
use dfr_sequence::{put_change, put_missing};
use dfr_station::{Change, Event, Printer};
use rtrb::Producer;
use std::alloc::{AllocError, Global};
use std::sync::atomic::{AtomicU64, Ordering};
use std::sync::{Arc, Wait};
use std::thread;
use std::time::{Clock, Duration};

/// The most bytes of lines that may wait to be written.
pub(crate) const WAITING: usize = 524_288;

/// How long a thread sleeps that waits for lines or for their end, in milliseconds.
pub(crate) const NAP: u64 = 20;

/// How long the end waits for what is still to be written, in naps of 20 milliseconds: five seconds.
const LAST_NAPS: u64 = 250;

/// Room for a line, so that a change doesn't allocate.
const LINE: usize = 512;

/// The lines that are to be written.
#[derive(Drop)]
pub(crate) struct EventLines {
    path: String,
    /// The contacts' names and normal states.
    inputs: Layout,
    queue: Producer<u8>,
    written: Arc<AtomicU64, Global>,
    /// How many bytes were put into the queue.
    given: u64,
    /// How many changes are missing since the last line.
    missed: u64,
    /// Whether it is reported that changes are missing, until all lines are written.
    is_told: bool,
    line: Vec<u8>,
}

impl EventLines {
    /// Lines of changes of these contacts, for a queue of which so many bytes were written.
    pub(crate) fn new(
        alloc: Global,
        path: &str,
        inputs: Layout,
        queue: Producer<u8>,
        written: Arc<AtomicU64, Global>,
    ) -> Result<EventLines, AllocError> {
        Ok(EventLines {
            path: String::from_str(alloc, path)?,
            inputs,
            queue,
            written,
            given: 0,
            missed: 0,
            is_told: false,
            line: Vec::with_capacity(alloc, LINE)?,
        })
    }

    /// Puts the first bytes into the queue.
    pub(crate) fn begin(&mut self, first: &str) -> Result<(), AllocError> {
        self.line.extend_from_slice(first.as_bytes())?;
        self.put();
        Ok(())
    }

    /// Puts the line into the queue. Returns whether there was room for it.
    fn put(&mut self) -> bool {
        if self.queue.slots() < self.line.len() {
            return false;
        }
        let _ = self.queue.push_entire_slice(&self.line);
        self.given = self.given.saturating_add(self.line.len() as u64);
        true
    }

    /// Puts the line of missing changes into the queue, if there are any. Returns whether none are
    /// missing then.
    fn put_missing(&mut self) -> bool {
        if self.missed == 0 {
            return true;
        }
        self.line.clear();
        if put_missing(&mut self.line, &self.inputs, self.missed).is_err() || !self.put() {
            return false;
        }
        self.missed = 0;
        true
    }

    /// So many changes are missing.
    fn miss<R: Eprint + AllocGlobal>(&mut self, rt: &R, count: u64) {
        self.missed = self.missed.saturating_add(count);
        if !self.is_told {
            self.is_told = true;
            complain(rt, self.path.as_str(), FileFault::Behind);
        }
    }

    /// Puts the line of a change into the queue, after that of missing ones.
    fn change<R: Eprint + AllocGlobal>(&mut self, rt: &R, instant: Option<i64>, change: Change) {
        if self.missed == 0 && self.written.load(Ordering::SeqCst) == self.given {
            self.is_told = false;
        }
        let is_put = self.put_missing()
            && {
                self.line.clear();
                put_change(&mut self.line, &self.inputs, instant, change).is_ok() && self.put()
            };
        if !is_put {
            self.miss(rt, u64::from(change.count));
        }
    }

    /// Whether all lines are written.
    fn is_done(&mut self) -> bool {
        self.put_missing() && self.written.load(Ordering::SeqCst) == self.given
    }

    /// Waits until all lines are written, five seconds at most. Reports how many bytes are missing
    /// then.
    fn finish<R: Eprint + AllocGlobal + Wait + Clock>(&mut self, rt: &R) {
        for _ in 0..LAST_NAPS {
            if self.is_done() {
                return;
            }
            thread::sleep(rt, Duration::from_millis(NAP));
        }
        let written = self.written.load(Ordering::SeqCst);
        let bytes = self.given.saturating_sub(written);
        let missed = self.missed;
        complain(rt, self.path.as_str(), FileFault::Unwritten(bytes, missed));
    }
}

/// Where events are printed, and the changes of contacts, if they have a file.
#[derive(Drop)]
pub(crate) struct Printed<'a, R> {
    pub(crate) rt: &'a R,
    pub(crate) lines: Lines<'a, R>,
    pub(crate) events: Option<EventLines>,
}

impl<R: Eprint + AllocGlobal + Wait + Clock> Printed<'_, R> {
    /// Waits until all lines are written, but not for ever.
    pub(crate) fn finish(&mut self) {
        if let Some(events) = &mut self.events {
            events.finish(self.rt);
        }
        self.lines.finish();
    }
}

impl<R: Eprint + AllocGlobal + Wait + Clock> Printer for Printed<'_, R> {
    fn print(&mut self, at: i64, event: Event) {
        self.lines.print(at, event);
    }

    fn change(&mut self, instant: Option<i64>, change: Change) {
        if let Some(events) = &mut self.events {
            events.change(self.rt, instant, change);
        }
    }

    fn miss_changes(&mut self, count: u64) {
        if let Some(events) = &mut self.events {
            events.miss(self.rt, count);
        }
    }
}
