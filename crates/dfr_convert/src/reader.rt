//! The lines of a capture, as a reader.

ghost use Rattle.std.specs.Prelude.{◌≡◌, ◌+◌, ◌-◌, ◌≤◌, [], length, min, take, drop};
ghost use Rattle.dfr_convert.specs.Ends as spec;

use crate::conversion::{Conversion, Stop};
use crate::teller::{End, Teller};
use dfr_capture::{Feed, Plan};
use dfr_pcap::{TranslateFault, Translation};
use std::alloc::{AllocError, Global};
use std::io;
use std::io::{ErrorKind, Read};

/// How many bytes of a capture are read at once.
const PIECE: usize = 65_536;

/// How many bytes the head of a capture has.
const HEAD: usize = 24;

/// The lines of the capture that `input` gives. What becomes of its frames is told on standard error.
#[derive(Drop)]
pub struct CaptureLines<'a, I, R> {
    input: I,
    teller: Teller<'a, R>,
    translation: Translation<Global>,
    conversion: Conversion<Global>,
    /// What is read at once.
    piece: Vec<u8>,
    /// What the last piece is in the form of libpcap.
    plain: Vec<u8>,
    /// What the last piece gave.
    feed: Feed<Global>,
    /// How many bytes of its lines were handed on.
    at: usize,
    /// How the capture ended, once it did.
    end: Option<End>,
    /// How many bytes came, up to those of a head.
    came: usize,
    /// The nanosecond at which the frame came that gave the first lines.
    first: Option<u64>,
    ghost within: { at ≤ length feed.lines },
    ghost few: { came ≤ 24 },
}

/// Nothing is handed out any more.
fn clear(feed: &mut Feed<Global>)
    ensures { feed.new ≡ record { lines = []; events = []; missing = [] } }
{
    feed.lines.clear();
    feed.events.clear();
    feed.missing.clear();
}

/// How a capture has ended of which so many bytes came, and maybe a first line.
fn end_of(came: usize, is_within: bool, first: Option<u64>) -> End
    ensures { result ≡ spec.end_of came is_within first }
{
    if came == 0 {
        return End::Empty;
    }
    if came < HEAD {
        return End::Headless;
    }
    match (is_within, first) {
        (true, _) => End::Cut,
        (false, None) => End::Scanless,
        (false, Some(_)) => End::Over,
    }
}

impl<'a, I: Read + Drop, R: Eprint + AllocGlobal> CaptureLines<'a, I, R> {
    /// The lines of a capture under this plan, for the program of this name.
    pub fn new(
        rt: &'a R,
        name: &'static str,
        plan: Plan,
        input: I,
    ) -> Result<CaptureLines<'a, I, R>, AllocError> {
        let conversion = Conversion::new(rt.alloc(), plan)?;
        let piece = vec![in rt.alloc(); 0u8; PIECE]?;
        Ok(CaptureLines {
            input,
            teller: Teller::new(rt, name),
            translation: Translation::new(rt.alloc()),
            conversion,
            piece,
            plain: Vec::new(rt.alloc()),
            feed: Feed::new(rt.alloc()),
            at: 0,
            end: None,
            came: 0,
            first: None,
        })
    }

    /// The nanosecond since 1970 at which the frame came that gave the first lines, by the capture.
    pub fn first_time(&self) -> Option<u64>
        ensures { result ≡ self.now.first }
    {
        self.first
    }

    /// The capture has ended so.
    fn finish(&mut self, end: End) {
        self.end = Some(end);
        self.teller.tell_end(end);
    }

    /// Tells what the last piece gave, and how the capture ended, if it was read no further.
    fn tell(&mut self, taken: Result<(), Stop>, translated: Result<(), TranslateFault>) {
        self.teller.tell(&self.feed);
        if let Err(stop) = taken {
            self.finish(End::Stopped(stop));
        } else if let Err(fault) = translated {
            self.finish(End::Untranslated(fault));
        }
    }

    /// Takes in so many bytes of the piece.
    fn take_in(&mut self, count: usize)
        requires { count ≤ length self.old.piece.items }
    {
        self.at = 0;
        clear(&mut self.feed);
        self.plain.clear();
        let translated = self
            .translation
            .take_in(&self.piece[..count], &mut self.plain);
        let taken = self
            .conversion
            .take_in(&self.plain, &mut self.feed, &mut self.first);
        self.tell(taken, translated);
    }

    /// The capture is at its end.
    fn end(&mut self) {
        let is_within = self.translation.is_within() || self.conversion.is_within();
        self.finish(end_of(self.came, is_within, self.first));
    }

    /// Reads a piece, and takes it in.
    fn fill(&mut self) -> io::Result<()> {
        match self.input.read(self.piece.as_mut_slice()) {
            Ok(0) => {
                self.end();
                Ok(())
            }
            Ok(count) => {
                self.came = (self.came + count).min(HEAD);
                self.take_in(count);
                Ok(())
            }
            Err(error) => Err(error),
        }
    }

    /// Hands on lines, as far as there is room.
    fn hand_on(&mut self, room: &mut [u8]) -> usize
        ensures count { result ≡ min (length self.old.feed.lines - self.old.at) (length room.old) }
        ensures bytes { take result room.new ≡ take result (drop self.old.at self.old.feed.lines) }
        ensures rest { (self.new.at ≡ self.old.at + result) × (self.new.feed ≡ self.old.feed) }
    {
        let lines = &self.feed.lines[self.at..];
        let count = lines.len().min(room.len());
        room[..count].copy_from_slice(&lines[..count]);
        self.at += count;
        count
    }
}

impl<I: Read + Drop, R: Eprint + AllocGlobal> Read for CaptureLines<'_, I, R> {
    /// A capture that is damaged or cut off gives its lines, and then the error `InvalidData`.
    fn read(&mut self, buf: &mut [u8]) -> io::Result<usize> {
        for _ in 0..u64::MAX {
            if self.at < self.feed.lines.len() {
                return Ok(self.hand_on(buf));
            }
            match self.end {
                None => self.fill()?,
                Some(End::Over | End::Scanless) => return Ok(0),
                Some(_) => return Err(io::Error::from(ErrorKind::InvalidData)),
            }
        }
        // (so the capture isn't taken for one that has ended)
        Err(io::Error::from(ErrorKind::Interrupted))
    }
}
