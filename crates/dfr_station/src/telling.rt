//! The thread that prints the events of the other threads.

use crate::contacts::Changes;
use crate::event::{ClockState, Event, Followed};
use crate::signals::Signals;
use crate::station::Printer;
use crate::teller::{Turn, Waiting};
use crate::times::followed_by;
use crate::watch::{Watch, millis};
use dfr_channels::Layout;
use dfr_clock::Timebase;
use std::alloc::{Allocator, Global};
use std::sync::atomic::Ordering;
use std::sync::{Mutex, Wait};
use std::thread;
use std::time::{Clock, Duration};

/// How long the thread sleeps if there are no events, in milliseconds.
const NAP: u64 = 20;

/// What the printing thread works on.
#[derive(Drop)]
pub(crate) struct Telling<'x, 's, P, A: Allocator = Global> {
    printer: &'x mut P,
    scans: Waiting<A>,
    triggers: Waiting<A>,
    exports: Waiting<A>,
    /// The changes of contacts, if they are told.
    changes: Option<Changes<A>>,
    minutes: bool,
    watch: Watch,
    /// What dates the records, if the clock does.
    times: Option<&'s Mutex<Timebase<A>>>,
    layout: &'s Layout<A>,
    /// How many failed allocations that are tried again have been reported.
    short: u64,
}

impl<'x, 's, P, A: Allocator> Telling<'x, 's, P, A> {
    pub(crate) fn new(
        printer: &'x mut P,
        (scans, triggers, exports): (Waiting<A>, Waiting<A>, Waiting<A>),
        changes: Option<Changes<A>>,
        minutes: bool,
        watch: Watch,
        times: Option<&'s Mutex<Timebase<A>>>,
        layout: &'s Layout<A>,
    ) -> Telling<'x, 's, P, A> {
        Telling {
            printer,
            scans,
            triggers,
            exports,
            changes,
            minutes,
            watch,
            times,
            layout,
            short: 0,
        }
    }
}

/// The current instant in microseconds since 1970-01-01 00:00:00 UTC; 0 if the clock can't be read.
pub fn now(clock: &impl Clock) -> i64 {
    match clock.since_1970() {
        Ok(time) => i64::try_from(time.as_micros()).unwrap_or(i64::MAX),
        Err(_) => 0,
    }
}

/// The event with the current counts.
fn standing(signals: &Signals, followed: Option<Followed>) -> Event {
    Event::Minute {
        scans: signals.came.load(Ordering::SeqCst),
        lost: signals.lost.load(Ordering::SeqCst),
        records: signals.records.load(Ordering::SeqCst),
        waiting: signals.waiting.load(Ordering::SeqCst),
        missed: signals.missed.load(Ordering::SeqCst),
        clock: signals.clock().map(|ahead| ClockState { ahead, followed }),
    }
}

impl<P: Printer, A: Allocator + Copy> Telling<'_, '_, P, A> {
    /// How the clock is followed, if it dates records.
    fn followed<R: Wait>(&self, rt: &R) -> Option<Followed> {
        let timebase = self.times?.lock(rt);
        followed_by(&timebase, self.layout.start())
    }

    /// Prints the events of the input's silence and of each minute, if they are due.
    fn print_watch<R: Wait>(&mut self, rt: &R, turn: Turn, signals: &Signals) {
        let came = signals.came.load(Ordering::SeqCst);
        if let Some(event) = self.watch.silence(came, turn.millis)
            && (!turn.is_end || event == Event::Heard)
        {
            self.printer.print(turn.at, event);
        }
        if self.watch.is_minute(turn.millis) && self.minutes {
            let followed = self.followed(rt);
            self.printer.print(turn.at, standing(signals, followed));
        }
    }

    /// Prints the event of failed allocations, if there were more.
    fn print_short(&mut self, turn: Turn, signals: &Signals) {
        let short = signals.short.load(Ordering::SeqCst);
        if short != self.short {
            self.short = short;
            self.printer.print(turn.at, Event::Memory);
        }
    }

    /// Hands over the changes of contacts. Returns whether there were any.
    fn print_changes<R: Wait>(&mut self, rt: &R, signals: &Signals) -> bool {
        match &mut self.changes {
            Some(changes) => changes.print(rt, self.printer, signals, (self.times, self.layout)),
            None => false,
        }
    }

    /// Prints the waiting events. Returns whether there were any. They are counted in the reverse of
    /// the order of printing, so that a record is never printed before its trigger.
    fn print<R: Wait + Clock>(&mut self, rt: &R, signals: &Signals) -> bool {
        let turn = Turn {
            at: now(rt),
            millis: millis(rt),
            is_end: signals.acquired.load(Ordering::SeqCst),
        };
        let exports = self.exports.count();
        let triggers = self.triggers.count();
        let scans = self.scans.count();
        self.scans.print(self.printer, turn, scans);
        self.triggers.print(self.printer, turn, triggers);
        self.print_short(turn, signals);
        self.exports.print(self.printer, turn, exports);
        self.print_watch(rt, turn, signals);
        let changed = self.print_changes(rt, signals);
        changed || exports > 0 || triggers > 0 || scans > 0
    }
}

/// Prints events until all other threads have ended and all events are printed.
pub(crate) fn print_events<A: Allocator + Copy, P: Printer, R: Wait + Clock>(
    rt: &R,
    signals: &Signals,
    telling: &Mutex<Telling<'_, '_, P, A>>,
) {
    let mut telling = telling.lock(rt);
    for _ in rt.forever() {
        let ended = signals.ended.load(Ordering::SeqCst);
        if telling.print(rt, signals) {
            continue;
        }
        if ended {
            return;
        }
        thread::sleep(rt, Duration::from_millis(NAP));
    }
}
