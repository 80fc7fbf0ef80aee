//! What the threads know of a recording together: what was read of the input, and what the events
//! come to.

use dfr_health::Standing;
use dfr_station::Event;
use std::alloc::{AllocError, Global};
use std::io;
use std::io::Read;
use std::sync::atomic::{AtomicU64, Ordering};
use std::sync::{Arc, Mutex, Wait};
use std::time::Clock;

/// What the events come to.
#[derive(Clone, Copy, Debug, Drop)]
struct Told {
    standing: Standing,
    /// Since when no scan has come, in milliseconds on the monotonic clock, while that is reported.
    silent: Option<u64>,
}

/// What is known. The counters are written by the thread that reads the input, which waits for no
/// lock. The rest is written by the thread that prints.
#[derive(Drop)]
pub(crate) struct Heard {
    /// How many bytes of the input have been read.
    bytes: AtomicU64,
    /// When the last of them came that ended a frame, in milliseconds on the monotonic clock.
    newest: AtomicU64,
    told: Mutex<Told>,
}

/// What is known at one instant.
#[derive(Clone, Copy, Debug)]
pub(crate) struct Known {
    pub(crate) standing: Standing,
    /// How many scans have come. None while that isn't known.
    pub(crate) scans: Option<u64>,
    /// The milliseconds since the newest scan came. None before the first one, or without a clock.
    pub(crate) age: Option<u64>,
}

/// The milliseconds on the monotonic clock; None if it can't be read.
fn millis(clock: &impl Clock) -> Option<u64> {
    match clock.monotonic() {
        Ok(time) => u64::try_from(time.as_millis()).ok(),
        Err(_) => None,
    }
}

/// How many whole frames these bytes have; None if the input has no frames.
fn frames_in(bytes: u64, frame: Option<usize>) -> Option<u64> {
    bytes.checked_div(frame? as u64)
}

/// Since when no scan has come, if that was reported for so many seconds at this time.
fn silent_since(seconds: u64, millis: Option<u64>) -> Option<u64> {
    millis?.checked_sub(seconds.checked_mul(1_000)?)
}

impl Heard {
    /// Nothing is known.
    pub(crate) fn new(alloc: Global) -> Result<Arc<Heard, Global>, AllocError> {
        let told = Told {
            standing: Standing::new(),
            silent: None,
        };
        let heard = Heard {
            bytes: AtomicU64::new(0),
            newest: AtomicU64::new(0),
            told: Mutex::new(told),
        };
        match Arc::new(alloc, heard) {
            Ok(heard) => Ok(heard),
            Err(_) => Err(AllocError),
        }
    }

    /// Takes an event.
    pub(crate) fn hear<R: Wait + Clock>(&self, rt: &R, event: Event) {
        let millis = millis(rt);
        let mut told = self.told.lock(rt);
        told.standing = told.standing.after(event);
        match event {
            Event::Silent(seconds) => told.silent = silent_since(seconds, millis),
            Event::Heard => told.silent = None,
            _ => {}
        }
    }

    /// The recording has ended, maybe without an event that says so.
    pub(crate) fn end<R: Wait>(&self, rt: &R) {
        self.told.lock(rt).standing.state.is_recording = false;
    }

    /// What is known now. `frame` is the size of a frame, if the input has frames: each is a scan.
    pub(crate) fn known<R: Wait + Clock>(&self, rt: &R, frame: Option<usize>) -> Known {
        let told = *self.told.lock(rt);
        let standing = told.standing;
        let (scans, has_scan) = match frames_in(self.bytes.load(Ordering::SeqCst), frame) {
            Some(scans) => (Some(scans), scans > 0),
            None => (standing.state.scans, standing.state.has_scan),
        };
        let since = match told.silent {
            Some(since) => since,
            None => self.newest.load(Ordering::SeqCst),
        };
        let age = match millis(rt) {
            Some(now) if has_scan => now.checked_sub(since),
            _ => None,
        };
        Known {
            standing,
            scans,
            age,
        }
    }
}

/// An input, and who hears of what is read.
#[derive(Drop)]
pub(crate) struct Heeded<'a, I, R> {
    pub(crate) rt: &'a R,
    pub(crate) input: I,
    pub(crate) heard: Arc<Heard, Global>,
    /// The size of a frame, if the input has frames.
    pub(crate) frame: Option<usize>,
}

impl<I: Read, R: Clock> Read for Heeded<'_, I, R> {
    fn read(&mut self, buf: &mut [u8]) -> io::Result<usize> {
        let count = self.input.read(buf)?;
        let before = self.heard.bytes.load(Ordering::SeqCst);
        // (2^64 bytes take longer than any station lasts)
        let after = before.saturating_add(count as u64);
        let is_same = match self.frame {
            Some(_) => frames_in(before, self.frame) == frames_in(after, self.frame),
            None => count == 0,
        };
        if !is_same && let Some(now) = millis(self.rt) {
            self.heard.newest.store(now, Ordering::SeqCst);
        }
        // last, so that whoever sees a scan sees when it came
        self.heard.bytes.store(after, Ordering::SeqCst);
        Ok(count)
    }
}
