//! A queue of events: one end takes them, the other hands them to the printer.

use crate::event::Event;
use crate::losses::{KINDS, Pending, losses_in};
use crate::station::Printer;
use rtrb::{Consumer, Producer, RingBuffer};
use std::alloc::{AllocError, Allocator, Global};

/// The most events of a thread that may wait to be printed.
const WAITING: usize = 4_096;

/// The most events of a thread that are printed in one turn.
const BATCH: usize = 50;

/// After losses are reported, the next ones are reported so much later, in milliseconds.
const QUIET: u64 = 1_000;

/// The instant at which events are printed.
#[derive(Clone, Copy)]
pub(crate) struct Turn {
    /// In microseconds since 1970-01-01 00:00:00 UTC.
    pub(crate) at: i64,
    /// In milliseconds on the monotonic clock.
    pub(crate) millis: u64,
    /// The input has ended, so all losses are reported.
    pub(crate) is_end: bool,
}

/// The end that reports events. It never waits: while the queue is full, it counts them.
#[derive(Drop)]
pub(crate) struct Teller<A: Allocator = Global> {
    lane: Producer<Event, A>,
    /// How many events were not taken since the last one that was.
    missed: u64,
}

/// The end from which events are taken. Of losses the first are reported at once, and those of the
/// next second together.
#[derive(Drop)]
pub(crate) struct Waiting<A: Allocator = Global> {
    events: Consumer<Event, A>,
    /// Losses that wait to be reported.
    losses: Pending,
    /// When they may be reported, in milliseconds on the monotonic clock.
    quiet: u64,
}

/// Both ends of a queue of events.
pub(crate) fn telling_of<A: Allocator + Copy>(
    alloc: A,
) -> Result<(Teller<A>, Waiting<A>), AllocError> {
    let (lane, events) = RingBuffer::new(alloc, WAITING)?;
    let waiting = Waiting {
        events,
        losses: Pending::NONE,
        quiet: 0,
    };
    Ok((Teller { lane, missed: 0 }, waiting))
}

impl<A: Allocator> Waiting<A> {
    /// How many events are to be printed in this turn.
    pub(crate) fn count(&mut self) -> usize {
        self.events.slots().min(BATCH)
    }

    /// Prints the losses, if they may be reported.
    fn print_losses<P: Printer>(&mut self, printer: &mut P, turn: Turn) {
        if !turn.is_end && turn.millis < self.quiet {
            return;
        }
        for _ in 0..KINDS {
            let Some(losses) = self.losses.take() else {
                return;
            };
            printer.print(turn.at, losses.event());
            self.quiet = turn.millis.saturating_add(QUIET);
        }
    }

    /// Prints an event, or keeps losses until they may be reported.
    fn print_event<P: Printer>(&mut self, printer: &mut P, turn: Turn, event: Event) {
        match losses_in(event) {
            Some(losses) => self.losses.add(losses),
            None => {
                self.print_losses(printer, turn);
                printer.print(turn.at, event);
            }
        }
    }

    /// Prints the first `count` events that wait.
    pub(crate) fn print<P: Printer>(&mut self, printer: &mut P, turn: Turn, count: usize) {
        for _ in 0..count {
            if let Ok(event) = self.events.pop() {
                self.print_event(printer, turn, event);
            }
        }
        self.print_losses(printer, turn);
    }
}

impl<A: Allocator> Teller<A> {
    /// Puts an event into the queue, after the number of missed ones. Returns whether there was
    /// room for it.
    pub(crate) fn offer(&mut self, event: Event) -> bool {
        if self.missed > 0 {
            if self.lane.push(Event::Missed(self.missed)).is_err() {
                return false;
            }
            self.missed = 0;
        }
        self.lane.push(event).is_ok()
    }

    /// Reports an event. If there is no room for it, it is counted as missed.
    pub(crate) fn tell(&mut self, event: Event) {
        if !self.offer(event) {
            self.missed = self.missed.saturating_add(1);
        }
    }
}
