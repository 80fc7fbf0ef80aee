//! What the threads of a station do when they can't go on: they sleep.

use crate::outlet::{LAST_TRIES, RETRY};
use crate::signals::Signals;
use dfr_live::{LiveFault, Pace};
use std::sync::Wait;
use std::sync::atomic::Ordering;
use std::thread;
use std::time::{Clock, Duration};

/// How long a thread sleeps if it finds nothing to do, in milliseconds.
const NAP: u64 = 4;

/// Threads that sleep while nothing comes, and while there is no memory.
#[derive(Clone, Copy)]
pub(crate) struct Napping<'s, R> {
    pub(crate) rt: &'s R,
    pub(crate) signals: &'s Signals,
}

impl<R: Wait + Clock> Napping<'_, R> {
    fn nap(&self, millis: u64) {
        thread::sleep(self.rt, Duration::from_millis(millis));
    }
}

impl<R: Wait + Clock> Pace for Napping<'_, R> {
    fn idle(&self, _turns: u64) -> Result<(), LiveFault> {
        self.nap(NAP);
        Ok(())
    }

    /// After the input has ended, it is tried again each second, a few times in all.
    fn short(&self) -> Result<(), LiveFault> {
        self.signals.short.fetch_add(1, Ordering::SeqCst);
        if !self.signals.acquired.load(Ordering::SeqCst) {
            self.nap(NAP);
            return Ok(());
        }
        if self.signals.last_short.fetch_add(1, Ordering::SeqCst) >= LAST_TRIES as u64 {
            return Err(LiveFault::Memory);
        }
        self.nap(RETRY);
        Ok(())
    }
}
