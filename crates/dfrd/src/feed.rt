//! The input where there is an operator, who may end it: a thread of its own reads it, since a read
//! that waits can't be ended.

ghost use Rattle.std.specs.Prelude.{◌≡◌, ◌-◌, ◌≤◌, ◌<◌, min, length, take, drop, Some, IsTrue};
ghost use Rattle.rtrb.specs.Ring.{received, known_items};
ghost use Rattle.dfrd.specs.Feeding as spec;

use crate::capture::BusLines;
use dfr_station::{Buffer, ROOM};
use memchr::memrchr;
use rtrb::{Consumer, Producer, RingBuffer};
use std::alloc::{AllocError, Global};
use std::io::{ErrorKind, Read};
use std::sync::atomic::{AtomicBool, Ordering};
use std::sync::{Arc, Wait};
use std::time::{Clock, Duration};
use std::{io, thread};

/// The most bytes that were read and wait.
const WAITING: usize = 262_144;

/// How long a thread sleeps if no byte waits or there is no room, in milliseconds.
const NAP: u64 = 5;

/// How the reading stands.
#[derive(Drop)]
struct Feed {
    /// No more bytes are read.
    is_over: AtomicBool,
    /// The input could not be read to its end.
    is_broken: AtomicBool,
}

/// What the thread works on that reads the input.
#[derive(Drop)]
pub(crate) struct Feeder {
    bytes: Producer<u8>,
    feed: Arc<Feed, Global>,
    piece: Vec<u8>,
}

/// The bytes that the thread has read. Until the input is over they are handed on in whole frames or
/// lines, so that `stop` never ends it within one. A line that is longer than the room comes in parts.
#[derive(Drop)]
pub(crate) struct Fed<'a, R> {
    rt: &'a R,
    bytes: Consumer<u8>,
    feed: Arc<Feed, Global>,
    /// The input is to end.
    stop: Arc<AtomicBool, Global>,
    /// Whether the input has frames, and their size.
    has_frames: bool,
    size: usize,
    /// Bytes that were taken from the queue. They begin with a frame or a line.
    waiting: Buffer,
    /// How many of them may be handed on.
    whole: usize,
    /// How many more bytes are taken: those that were in the queue when the input was to end. None
    /// before that.
    left: Option<usize>,
    ghost sized: { 0 < size },
    ghost few: { whole ≤ length waiting },
}

/// Both ends of an input that ends once `stop` is set. `size` is that of its frames, if it has any.
pub(crate) fn feed_of<'a, R: AllocGlobal>(
    rt: &'a R,
    stop: Arc<AtomicBool, Global>,
    has_frames: bool,
    size: usize,
) -> Result<(Feeder, Fed<'a, R>), AllocError>
    requires sized { 0 < size }
{
    let (into, from) = RingBuffer::new(rt.alloc(), WAITING)?;
    let feed = Feed {
        is_over: AtomicBool::new(false),
        is_broken: AtomicBool::new(false),
    };
    let feed = Arc::new(rt.alloc(), feed)?;
    let other = Arc::try_clone(&feed)?;
    let feeder = Feeder {
        bytes: into,
        feed,
        piece: vec![in rt.alloc(); 0u8; ROOM]?,
    };
    let fed = Fed {
        rt,
        bytes: from,
        feed: other,
        stop,
        has_frames,
        size,
        waiting: Buffer::new(rt.alloc())?,
        whole: 0,
        left: None,
    };
    Ok((feeder, fed))
}

/// Puts bytes into the queue; waits while there is no room.
fn send<R: Wait + Clock>(rt: &R, queue: &mut Producer<u8>, bytes: &[u8]) {
    for _ in rt.forever() {
        if queue.push_entire_slice(bytes).is_ok() {
            return;
        }
        thread::sleep(rt, Duration::from_millis(NAP));
    }
}

impl Feeder {
    /// Reads nothing: the input could not be read.
    pub(crate) fn break_off(&mut self) {
        self.feed.is_broken.store(true, Ordering::SeqCst);
        self.feed.is_over.store(true, Ordering::SeqCst);
    }

    /// Reads the input to its end.
    pub(crate) fn read_all<I: Read, R: Wait + Clock>(&mut self, rt: &R, input: &mut I) {
        for _ in rt.forever() {
            match input.read(self.piece.as_mut_slice()) {
                Ok(0) => break,
                Ok(count) => send(rt, &mut self.bytes, &self.piece[..count]),
                Err(error) => match error.kind() {
                    ErrorKind::Interrupted => {}
                    ErrorKind::WouldBlock => thread::sleep(rt, Duration::from_millis(NAP)),
                    _ => {
                        self.feed.is_broken.store(true, Ordering::SeqCst);
                        break;
                    }
                },
            }
        }
        self.feed.is_over.store(true, Ordering::SeqCst);
    }
}

/// How many bytes the whole frames, or the whole lines, at the front have. A line that is longer
/// than the room is handed on in parts.
fn whole_in(has_frames: bool, size: usize, bytes: &[u8]) -> usize
    requires sized { 0 < size }
    ensures whole { spec.IsWhole has_frames size bytes.now result }
    ensures few { result ≤ length bytes.now }
{
    let len = bytes.len();
    if has_frames {
        return len - len % size;
    }
    match memrchr(b'\n', bytes) {
        Some(last) => last + 1,
        None if len < ROOM => 0,
        None => len,
    }
}

impl<R: Wait + Clock> Fed<'_, R> {
    /// Takes bytes from the queue, and finds how many may be handed on: all, if they are the last
    /// ones of an input that is over.
    fn take_in(&mut self, is_over: bool)
        ensures { spec.TakesIn self.old.has_frames self.old.size is_over (received self.old.bytes) self.old.waiting
            (received self.new.bytes) (length (known_items self.new.bytes)) self.new.waiting self.new.whole }
    {
        let count = self.waiting.take_from(&mut self.bytes);
        self.left = match self.left {
            Some(left) if count < left => Some(left - count),
            Some(_) => Some(0),
            None => None,
        };
        let is_last = is_over && self.bytes.is_empty();
        let bytes = self.waiting.waiting();
        self.whole = if is_last {
            bytes.len()
        } else {
            whole_in(self.has_frames, self.size, bytes)
        };
    }

    /// Whether the input is to end, and nothing is left in the queue that was there when it was to.
    fn is_stopped(&mut self) -> bool
        ensures stopped { IsTrue result → self.new.left ≡ Some 0 }
        ensures same { (received self.new.bytes ≡ received self.old.bytes)
            × (self.new.waiting ≡ self.old.waiting) × (self.new.whole ≡ self.old.whole) }
    {
        if !self.stop.load(Ordering::SeqCst) {
            return false;
        }
        let left = match self.left {
            Some(left) => left,
            None => self.bytes.slots(),
        };
        self.left = Some(left);
        left == 0
    }

    /// Hands on what may be handed on, as far as there is room. Returns how many bytes it is.
    fn hand_on(&mut self, room: &mut [u8]) -> usize
        ensures count { result ≡ min self.old.whole (length room.old) }
        ensures bytes { take result room.new ≡ take result self.old.waiting }
        ensures rest { (self.new.waiting ≡ drop result self.old.waiting)
            × (self.new.whole ≡ self.old.whole - result) }
    {
        let count = self.whole.min(room.len());
        room[..count].copy_from_slice(&self.waiting.waiting()[..count]);
        self.whole -= count;
        self.waiting.use_up(count);
        count
    }

    /// How the input ended.
    fn ending(&self) -> io::Result<()> {
        if self.feed.is_broken.load(Ordering::SeqCst) {
            Err(io::Error::from(ErrorKind::Other))
        } else {
            Ok(())
        }
    }
}

impl<R: Wait + Clock> Read for Fed<'_, R> {
    fn read(&mut self, buf: &mut [u8]) -> io::Result<usize> {
        for _ in self.rt.forever() {
            if self.whole > 0 {
                return Ok(self.hand_on(buf));
            }
            if self.is_stopped() {
                return Ok(0);
            }
            let is_over = self.feed.is_over.load(Ordering::SeqCst);
            self.take_in(is_over);
            if self.whole > 0 {
                continue;
            }
            if is_over {
                self.ending()?;
                return Ok(0);
            }
            thread::sleep(self.rt, Duration::from_millis(NAP));
        }
        Ok(0)
    }
}

/// An input that is read directly, or by a thread; the lines of a capture.
#[derive(Drop)]
pub(crate) enum Source<'a, I, R> {
    Direct(I),
    Capture(BusLines<'a, I, R>),
    Fed(Fed<'a, R>),
}

impl<I: Read + Drop, R: Eprint + AllocGlobal + Wait + Clock> Read for Source<'_, I, R> {
    fn read(&mut self, buf: &mut [u8]) -> io::Result<usize> {
        match self {
            Source::Direct(input) => input.read(buf),
            Source::Capture(lines) => lines.read(buf),
            Source::Fed(fed) => fed.read(buf),
        }
    }
}
