//! What is told of a capture on standard error.

ghost use Rattle.std.specs.Prelude.{◌≡◌, ◌+◌, ◌-◌, ◌*◌, ◌^◌, min};

use crate::conversion::Stop;
use crate::words::Words;
use dfr_bay::Lost;
use dfr_bus::Wrong;
use dfr_capture::Feed;
use dfr_pcap::TranslateFault;
use std::alloc::Global;

/// How many events are told one by one.
const MOST: u64 = 1000;

/// What is told of a file in another form.
const NO_CAPTURE: &str =
    "not a capture; expected one of `tcpdump -w` or `dumpcap`, in the form pcap \
     or pcapng";

/// How the reading of a capture ended.
#[derive(Clone, Copy, Debug, PartialEq, Eq)]
pub enum End {
    /// With the capture.
    Over,
    /// With the capture, which has no scan.
    Scanless,
    /// There was no capture.
    Empty,
    /// The capture ended within its head.
    Headless,
    /// The capture ended within a packet.
    Cut,
    /// Before its end.
    Stopped(Stop),
    /// Before its end, at a block of the form pcapng.
    Untranslated(TranslateFault),
}

/// How much there was to tell.
#[derive(Clone, Copy, Debug, PartialEq, Eq)]
struct Counts {
    events: u64,
    absent: u64,
    quality: u64,
    range: u64,
}

/// Tells what becomes of the frames of a capture: events one by one up to a thousand, and counts each
/// time they have doubled, and at the end.
#[derive(Drop)]
pub struct Teller<'a, R> {
    rt: &'a R,
    /// The program's name.
    name: &'static str,
    counts: Counts,
    /// At so many events and missing readings the counts are told next.
    next: u64,
}

/// One more, up to the largest number there is.
fn more(count: u64) -> u64
    ensures { result ≡ min (count + 1) (2 ^ 64 - 1) }
{
    if count < u64::MAX { count + 1 } else { count }
}

/// Twice as many, up to the largest number there is.
fn twice(count: u64) -> u64
    ensures { result ≡ min (2 * count) (2 ^ 64 - 1) }
{
    if count <= u64::MAX / 2 {
        2 * count
    } else {
        u64::MAX
    }
}

impl Counts {
    /// All of them together, up to the largest number there is.
    fn total(&self) -> u64
        ensures { let c = self.now in result ≡ min (c.events + c.absent + c.quality + c.range) (2 ^ 64 - 1) }
    {
        let missing = u128::from(self.absent) + u128::from(self.quality) + u128::from(self.range);
        let all = u128::from(self.events) + missing;
        if all < u128::from(u64::MAX) {
            all as u64
        } else {
            u64::MAX
        }
    }

    /// Counts a missing reading.
    fn miss(&mut self, why: Lost) {
        match why {
            Lost::Absent => self.absent = more(self.absent),
            Lost::Quality => self.quality = more(self.quality),
            Lost::Range => self.range = more(self.range),
        }
    }
}

impl<'a, R: Eprint> Teller<'a, R> {
    /// Before the first frame.
    pub fn new(rt: &'a R, name: &'static str) -> Teller<'a, R> {
        let counts = Counts {
            events: 0,
            absent: 0,
            quality: 0,
            range: 0,
        };
        Teller {
            rt,
            name,
            counts,
            next: 1024,
        }
    }

    /// Tells the counts.
    fn tell_counts(&self, when: &str) {
        let name = self.name;
        let Counts {
            events,
            absent,
            quality,
            range,
        } = self.counts;
        let _ = eprintln!(self.rt;
            "{name}: {when}: {events} events; readings missing: {absent} absent, {quality} of bad \
             quality, {range} out of range"
        );
    }

    /// Tells what a piece of the capture gives.
    pub fn tell(&mut self, feed: &Feed<Global>) {
        let name = self.name;
        for event in &feed.events {
            self.counts.events = more(self.counts.events);
            if self.counts.events <= MOST {
                let words = Words(*event);
                let _ = eprintln!(self.rt; "{name}: {words}");
            } else if self.counts.events == MOST + 1 {
                let _ = eprintln!(self.rt; "{name}: further events are counted");
            }
        }
        for lost in &feed.missing {
            self.counts.miss(lost.why);
        }
        let total = self.counts.total();
        if total >= self.next {
            self.tell_counts("so far");
            self.next = twice(total);
        }
    }

    /// Tells how the capture ended.
    pub fn tell_end(&self, end: End) {
        let name = self.name;
        self.tell_counts("end");
        let _ = match end {
            End::Over => Ok(()),
            End::Scanless => {
                eprintln!(self.rt; "{name}: the capture has no scan of the streams of the set-up")
            }
            End::Empty => eprintln!(self.rt; "{name}: standard input is empty; expected a capture"),
            End::Headless => eprintln!(self.rt; "{name}: the capture ends within its head"),
            End::Cut => eprintln!(self.rt; "{name}: the capture ends within a packet"),
            End::Stopped(Stop::Damaged(0, Wrong::Magic)) => {
                eprintln!(self.rt; "{name}: {NO_CAPTURE}")
            }
            End::Stopped(stop) => eprintln!(self.rt; "{name}: {stop}"),
            End::Untranslated(fault) => eprintln!(self.rt; "{name}: {fault}"),
        };
    }
}
