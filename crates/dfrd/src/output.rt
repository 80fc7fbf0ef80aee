//! Standard output, on which events are printed. A thread of its own writes to it, since a pipe that
//! nobody reads holds up whoever writes.

use crate::heard::Heard;
use comtrade_values::put;
use dfr_health::level_of;
use dfr_station::{Event, Printer, now, put_event};
use rtrb::{Consumer, Producer, RingBuffer};
use std::alloc::{AllocError, Global};
use std::io::{ErrorKind, Write};
use std::sync::atomic::{AtomicU64, Ordering};
use std::sync::{Arc, Wait};
use std::time::{Clock, Duration};
use std::{io, thread};

/// The most bytes of lines that may wait to be written.
const WAITING: usize = 262_144;

/// How long the thread sleeps if no line waits, or the reader of a pipe is slow, in milliseconds.
const NAP: u64 = 20;

/// How long it waits after a failed write before it tries again, in milliseconds.
const RETRY: u64 = 500;

/// How long the end waits for what is still to be written, in naps of 20 milliseconds: five seconds.
const LAST_NAPS: u64 = 250;

/// After so many more failed writes the end waits no longer.
const LAST_FAILED: u64 = 3;

/// How far the writing has come.
#[derive(Drop)]
pub(crate) struct Progress {
    /// How many bytes have been written.
    written: AtomicU64,
    /// How many writes have failed.
    failed: AtomicU64,
}

/// The lines that are to be written.
#[derive(Drop)]
pub(crate) struct Lines<'a, R> {
    rt: &'a R,
    queue: Producer<u8>,
    progress: Arc<Progress, Global>,
    /// How many bytes were put into the queue.
    given: u64,
    /// How many lines the queue had no room for, since the last one that it took.
    missed: u64,
    /// The line that reports them.
    report: Vec<u8>,
    /// The line that is printed.
    line: Vec<u8>,
    /// Who hears of each event, printed or not.
    heard: Arc<Heard, Global>,
    how: How,
}

/// Room for a line, so that printing doesn't allocate: a line has about 300 bytes.
const LINE: usize = 512;

/// How lines are printed.
#[derive(Clone, Copy, Debug)]
pub(crate) struct How {
    /// The line of each minute is left out.
    pub(crate) is_quiet: bool,
    /// Each line begins with its syslog level.
    pub(crate) is_journal: bool,
}

/// The lines, and what the thread needs that writes them.
pub(crate) fn lines_of<'a, R: AllocGlobal>(
    rt: &'a R,
    heard: &Arc<Heard, Global>,
    how: How,
) -> Result<(Lines<'a, R>, Consumer<u8>, Arc<Progress, Global>), AllocError> {
    let (queue, waiting) = RingBuffer::new(rt.alloc(), WAITING)?;
    let progress = Arc::new(
        rt.alloc(),
        Progress {
            written: AtomicU64::new(0),
            failed: AtomicU64::new(0),
        },
    )?;
    let shared = Arc::try_clone(&progress)?;
    let lines = Lines {
        rt,
        queue,
        progress,
        given: 0,
        missed: 0,
        report: Vec::with_capacity(rt.alloc(), LINE)?,
        line: Vec::with_capacity(rt.alloc(), LINE)?,
        heard: Arc::try_clone(heard)?,
        how,
    };
    Ok((lines, waiting, shared))
}

/// Makes the line of an event.
fn make_line(
    line: &mut Vec<u8>,
    is_journal: bool,
    at: i64,
    event: Event,
) -> Result<(), AllocError> {
    line.clear();
    if is_journal {
        put(line, level_of(event).prefix())?;
    }
    put_event(line, at, event)
}

impl<R: Clock> Lines<'_, R> {
    /// Makes the line that reports missed lines, if there are any.
    fn make_report(&mut self) -> Result<(), AllocError> {
        self.report.clear();
        if self.missed == 0 {
            return Ok(());
        }
        let missed = Event::Missed(self.missed);
        make_line(&mut self.report, self.how.is_journal, now(self.rt), missed)
    }

    /// Puts the line into the queue, after a report of the lines that were missed. If there is no room
    /// for both, the line is missed. Returns whether there was.
    fn put(&mut self) -> bool {
        if self.make_report().is_err() {
            self.missed = self.missed.saturating_add(1);
            return false;
        }
        let first = self.report.len() as u64;
        let second = self.line.len() as u64;
        if (self.queue.slots() as u64) < first.saturating_add(second) {
            self.missed = self.missed.saturating_add(1);
            return false;
        }
        let _ = self.queue.push_entire_slice(&self.report);
        let _ = self.queue.push_entire_slice(&self.line);
        self.given = self.given.saturating_add(first).saturating_add(second);
        self.missed = 0;
        true
    }

    /// Whether all lines are written, those that report missed ones too.
    fn is_done(&mut self) -> bool {
        let missed = self.missed;
        if missed > 0 {
            self.line.clear();
            self.put();
        }
        if self.missed > missed {
            // there was no room for the report: it is no line that was missed
            self.missed = missed;
        }
        self.missed == 0 && self.progress.written.load(Ordering::SeqCst) == self.given
    }

    /// Waits until all lines are written, five seconds at most, and no longer than until writing
    /// has failed three times.
    pub(crate) fn finish(&mut self) {
        let before = self.progress.failed.load(Ordering::SeqCst);
        for _ in 0..LAST_NAPS {
            let failed = self.progress.failed.load(Ordering::SeqCst);
            if self.is_done() || LAST_FAILED <= failed.saturating_sub(before) {
                return;
            }
            thread::sleep(self.rt, Duration::from_millis(NAP));
        }
    }
}

impl<R: Wait + Clock> Lines<'_, R> {
    /// Prints an event's line. Returns whether there was memory and room for it.
    fn is_printed(&mut self, at: i64, event: Event) -> bool {
        match make_line(&mut self.line, self.how.is_journal, at, event) {
            Ok(()) => self.put(),
            Err(_) => {
                self.missed = self.missed.saturating_add(1);
                false
            }
        }
    }
}

impl<R: Wait + Clock> Printer for Lines<'_, R> {
    fn print(&mut self, at: i64, event: Event) {
        self.heard.hear(self.rt, event);
        if self.how.is_quiet && matches!(event, Event::Minute { .. }) {
            return;
        }
        if !self.is_printed(at, event) {
            self.heard.hear(self.rt, Event::Missed(1));
        }
    }
}

/// Writes these bytes to standard output. Tries again after a failed write.
fn write_whole<R: Print + Wait + Clock>(rt: &R, bytes: &[u8], progress: &Progress) {
    let mut out = io::writer(rt);
    let mut rest = bytes;
    for _ in rt.forever() {
        if rest.is_empty() {
            return;
        }
        match out.write(rest) {
            Ok(count) if count > 0 => {
                rest = rest.get(count..).unwrap_or(&[]);
                progress.written.fetch_add(count as u64, Ordering::SeqCst);
            }
            Err(error) if matches!(error.kind(), ErrorKind::WouldBlock | ErrorKind::Interrupted) =>
                {
                    thread::sleep(rt, Duration::from_millis(NAP));
                }
            _ => {
                progress.failed.fetch_add(1, Ordering::SeqCst);
                thread::sleep(rt, Duration::from_millis(RETRY));
            }
        }
    }
}

/// Writes the lines in the queue to standard output, as they come.
pub(crate) fn write_lines<R: Print + Wait + Clock>(
    rt: &R,
    queue: &mut Consumer<u8>,
    progress: &Progress,
) {
    let mut piece = [0u8; 16_384];
    for _ in rt.forever() {
        let count = queue.pop_partial_slice(&mut piece);
        if count == 0 {
            thread::sleep(rt, Duration::from_millis(NAP));
        } else {
            write_whole(rt, piece.get(..count).unwrap_or(&[]), progress);
        }
    }
}
