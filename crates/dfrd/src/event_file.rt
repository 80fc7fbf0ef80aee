//! The file of events: a line for each change of a contact. A thread of its own writes to it, which
//! may wait for the disk.

use crate::event_lines::{EventLines, NAP, WAITING};
use crate::outcome::{FileFault, Reason, complain, out_of_memory, reason_of};
use comtrade_io::{ToolFault, fault_of};
use dfr_channels::Layout;
use dfr_sequence::EVENT_HEAD;
use rtrb::{Consumer, RingBuffer};
use std::alloc::{AllocError, Global};
use std::fs::{File, OpenOptions};
use std::io::{ErrorKind, Read, Seek, SeekFrom, Write};
use std::rt::Files;
use std::sync::atomic::{AtomicU64, Ordering};
use std::sync::{Arc, Wait};
use std::time::{Clock, Duration};
use std::{io, thread};

/// How long the thread waits after a failed write before it tries again, in milliseconds.
const RETRY: u64 = 500;

/// What the thread works on.
#[derive(Drop)]
pub(crate) struct EventFile {
    path: String,
    file: File,
    queue: Consumer<u8>,
    /// How many bytes have been written.
    written: Arc<AtomicU64, Global>,
    /// Why writing failed last, until all is written and synced.
    reported: Option<Reason>,
}

/// What a file of events is like that is opened.
#[derive(Clone, Copy, Debug, PartialEq, Eq)]
enum Found {
    /// There is nothing in it.
    Empty,
    /// It has events, and its last line is whole.
    Whole,
    /// It has events, and its last line is not whole.
    Torn,
    /// It is another file.
    Other,
}

/// Whether an open file ends with a line feed.
fn ends_whole(file: &mut File) -> io::Result<bool> {
    let mut last = [0u8; 1];
    file.seek(SeekFrom::End(-1))?;
    let count = file.read(&mut last)?;
    Ok(count == 1 && last == [b'\n'])
}

/// What is in an open file.
fn found_in(file: &mut File) -> io::Result<Found> {
    if !file.metadata()?.is_file() {
        return Ok(Found::Other);
    }
    let mut first = [0u8; 128];
    let mut count = 0;
    for _ in 0..first.len() {
        let Some(rest) = first.get_mut(count..) else {
            break;
        };
        let more = file.read(rest)?;
        if more == 0 {
            break;
        }
        count = count.saturating_add(more);
    }
    if count == 0 {
        Ok(Found::Empty)
    } else if !first.starts_with(EVENT_HEAD.as_bytes()) {
        Ok(Found::Other)
    } else if ends_whole(file)? {
        Ok(Found::Whole)
    } else {
        Ok(Found::Torn)
    }
}

/// Opens the file, to append to it.
fn opened<R: Files<File = File>>(rt: &R, path: &str) -> io::Result<File> {
    OpenOptions::new()
        .read(true)
        .append(true)
        .create(true)
        .open(rt, path)
}

/// What the first bytes are that this run appends. None if the file is another one, which is
/// printed.
fn begin<R: Eprint + AllocGlobal>(rt: &R, path: &str, found: Found) -> Option<&'static str> {
    match found {
        Found::Empty => Some(EVENT_HEAD),
        Found::Whole => Some(""),
        Found::Torn => {
            complain(rt, path, FileFault::Torn);
            Some("\n")
        }
        Found::Other => {
            complain(rt, path, FileFault::NoEvents);
            None
        }
    }
}

/// Both ends of the file with this path. None if it can't be opened, which is printed.
pub(crate) fn events_at<R: Files<File = File> + Eprint + AllocGlobal>(
    rt: &R,
    path: &str,
    inputs: Layout,
) -> Option<(EventLines, EventFile)> {
    let opening = match opened(rt, path) {
        Ok(mut file) => match found_in(&mut file) {
            Ok(found) => Ok((file, found)),
            Err(error) => Err(error),
        },
        Err(error) => Err(error),
    };
    let (file, found) = match opening {
        Ok(both) => both,
        Err(error) => {
            complain(rt, path, fault_of(error.kind(), ToolFault::Output));
            return None;
        }
    };
    let first = begin(rt, path, found)?;
    match both_ends(rt.alloc(), path, inputs, file, first) {
        Ok(both) => Some(both),
        Err(_) => {
            out_of_memory(rt);
            None
        }
    }
}

/// Both ends, with these first bytes.
fn both_ends(
    alloc: Global,
    path: &str,
    inputs: Layout,
    file: File,
    first: &str,
) -> Result<(EventLines, EventFile), AllocError> {
    let (queue, waiting) = RingBuffer::new(alloc, WAITING)?;
    let written = Arc::new(alloc, AtomicU64::new(0))?;
    let mut lines = EventLines::new(alloc, path, inputs, queue, Arc::try_clone(&written)?)?;
    lines.begin(first)?;
    let file = EventFile {
        path: String::from_str(alloc, path)?,
        file,
        queue: waiting,
        written,
        reported: None,
    };
    Ok((lines, file))
}

impl EventFile {
    /// A write failed. Its reason is printed, once.
    fn report<R: Eprint + AllocGlobal>(&mut self, rt: &R, reason: Reason) {
        if self.reported != Some(reason) {
            self.reported = Some(reason);
            complain(rt, self.path.as_str(), FileFault::Written(reason));
        }
    }

    /// Writes these bytes, and tries again after a failed write. Lines are counted.
    fn write_whole<R: Eprint + AllocGlobal + Wait + Clock>(
        &mut self,
        rt: &R,
        bytes: &[u8],
        are_lines: bool,
    ) {
        let mut rest = bytes;
        for _ in rt.forever() {
            if rest.is_empty() {
                return;
            }
            match self.file.write(rest) {
                Ok(count) if count > 0 => {
                    rest = &rest[count..];
                    if are_lines {
                        self.written.fetch_add(count as u64, Ordering::SeqCst);
                    }
                }
                Err(error) if error.kind() == ErrorKind::Interrupted => {}
                Err(error) => {
                    self.report(rt, reason_of(&error));
                    thread::sleep(rt, Duration::from_millis(RETRY));
                }
                Ok(_) => {
                    self.report(rt, Reason::Other);
                    thread::sleep(rt, Duration::from_millis(RETRY));
                }
            }
        }
    }

    /// Writes the first line again before these lines, if the file was emptied meanwhile, as a program
    /// does that rotates logs.
    fn begin_anew<R: Eprint + AllocGlobal + Wait + Clock>(&mut self, rt: &R, lines: &[u8]) {
        let head = EVENT_HEAD.as_bytes();
        let is_empty = match self.file.metadata() {
            Ok(metadata) => metadata.len() == 0,
            Err(_) => false,
        };
        if is_empty && !lines.starts_with(head) {
            self.write_whole(rt, head, false);
        }
    }

    /// Writes the lines in the queue, as they come.
    pub(crate) fn keep_written<R: Eprint + AllocGlobal + Wait + Clock>(&mut self, rt: &R) {
        let mut piece = [0u8; 16_384];
        for _ in rt.forever() {
            let count = self.queue.pop_partial_slice(&mut piece);
            if count == 0 {
                thread::sleep(rt, Duration::from_millis(NAP));
            } else {
                self.begin_anew(rt, &piece[..count]);
                self.write_whole(rt, &piece[..count], true);
                match self.file.sync_data() {
                    Ok(()) => self.reported = None,
                    Err(error) => self.report(rt, reason_of(&error)),
                }
            }
        }
    }
}
