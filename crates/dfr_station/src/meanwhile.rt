//! Reports the input's silence and each minute while no scan has come.

use crate::event::Event;
use crate::station::Printer;
use crate::telling::now;
use crate::watch::{Watch, millis};
use std::sync::atomic::{AtomicBool, Ordering};
use std::sync::{Mutex, Wait};
use std::thread;
use std::time::{Clock, Duration};

/// How long the thread sleeps that reports meanwhile, in milliseconds.
const NAP: u64 = 20;

/// The event of a minute before the first scan.
const NOTHING: Event = Event::Minute {
    scans: 0,
    lost: 0,
    records: 0,
    waiting: 0,
    missed: 0,
    clock: None,
};

/// What the thread works on that reports while no scan has come.
#[derive(Drop)]
pub(crate) struct Before<'x, P> {
    pub(crate) printer: &'x mut P,
    pub(crate) watch: Watch,
    pub(crate) minutes: bool,
}

impl<P: Printer> Before<'_, P> {
    /// Prints the events that are due.
    fn print(&mut self, clock: &impl Clock) {
        let millis = millis(clock);
        if let Some(event) = self.watch.silence(0, millis) {
            self.printer.print(now(clock), event);
        }
        if self.watch.is_minute(millis) && self.minutes {
            self.printer.print(now(clock), NOTHING);
        }
    }
}

/// What both threads know. The one that reports holds the lock throughout.
#[derive(Drop)]
pub(crate) struct Meanwhile<'y, P> {
    pub(crate) has_come: AtomicBool,
    pub(crate) before: Mutex<Before<'y, P>>,
}

/// Prints the events that are due, until the first scan has come.
pub(crate) fn report<P: Printer, R: Wait + Clock>(rt: &R, meanwhile: &Meanwhile<'_, P>) {
    let mut held = meanwhile.before.lock(rt);
    for _ in rt.forever() {
        if meanwhile.has_come.load(Ordering::SeqCst) {
            return;
        }
        held.print(rt);
        thread::sleep(rt, Duration::from_millis(NAP));
    }
}
