//! Your own recorder in three threads: one samples a line, one triggers, one takes the records.
//! Prints both files of each record.

use anyhow::{Context, Result};
use comtrade_read::read_cfg;
use comtrade_write::{Head, Kind};
use dfr_channels::{Layout, Reading, Rule, Rules, Scan, Setup};
use dfr_live::{Fed, Feed, Order, Orders, Sink, run_live};
use dfr_recorder::{Extent, Limits, Recorder};
use std::alloc::Global;
use std::io::{self, Write};
use std::ops::Range;
use std::sync::Wait;
use std::thread::Threads;

/// The channels, in the form of a configuration file: one current in steps of 0.5 A.
const CHANNELS: &[u8] = b"Northfield 110 kV,My recorder,1999\n1,1A,0D\n\
    1,IA,A,Line 3,A,0.5,0,0,-32767,32767,600,1,P\n50\n1\n1000,1\n\
    01/07/2024,10:30:00\n01/07/2024,10:30:00\nASCII\n1";

/// The source of samples: here a line whose current rises tenfold from scan 30 to scan 39. Scan 35
/// is lost. After scan 99 no more scans come.
#[derive(Drop)]
struct Line {
    alloc: Global,
    scans: Range<u32>,
}

impl Feed<Global> for Line {
    fn next(&mut self) -> Result<Fed, u32> {
        match self.scans.next() {
            Some(35) => Ok(Fed::Lost),
            Some(30..=39) => scan(self.alloc, 1000),
            Some(_) => scan(self.alloc, 100),
            None => Ok(Fed::Done),
        }
    }
}

/// A scan of one reading. Where an allocation fails, the feed's own error 1, which ends the run.
fn scan(alloc: Global, sample: i32) -> Result<Fed, u32> {
    let readings = Vec::from_slice(alloc, &[Reading::Value(sample)]).or(Err(1u32))?;
    Ok(Fed::Scan(Scan::new(readings, Vec::new(alloc))))
}

/// A trigger besides the rules: an operator, once, after this many scans.
#[derive(Drop)]
struct Operator {
    after: Option<u64>,
}

impl Orders<Global> for Operator {
    fn next(&mut self) -> Option<(u64, Order)> {
        Some((self.after.take()?, Order::Trigger))
    }
}

/// Receives the records, and keeps both files of each in memory, one after the other.
#[derive(Drop)]
struct Kept {
    files: Vec<u8>,
}

impl Sink for Kept {
    fn put(&mut self, _extent: Extent, cfg: &[u8], dat: &[u8]) -> Result<(), u32> {
        self.files.extend_from_slice(cfg).or(Err(2u32))?;
        self.files.extend_from_slice(dat).or(Err(2u32))
    }
}

/// A layout of 1,000 scans a second. Its clock starts at the head's first instant, in microseconds
/// since 1970.
fn layout(head: Head) -> Result<Layout> {
    let setup = Setup {
        station: head.station,
        device: head.device,
        analog: head.analog,
        status: head.status,
        line_freq: head.line_freq,
        rate: 1000,
        start: head.first,
    };
    Layout::new(setup).ok().context("no set-up")
}

/// A recorder whose rule fires while the reading is 500 or more. A record has up to 5 scans before
/// the trigger and 10 after the last scan at which it fired, at most 100 in all. Up to 4 finished
/// records may wait.
fn recorder(alloc: Global, layout: Layout) -> Result<Recorder> {
    let over = Rule::Level {
        channel: 0,
        over: true,
        threshold: 500,
    };
    let rules = Rules::new(&layout, vec![in alloc; over]?)
        .ok()
        .context("no rules")?;
    let limits = Limits::new(&layout, 5, 10, 100, 4)?;
    Recorder::new(alloc, layout, limits, rules)
        .ok()
        .context("out of memory")
}

/// The recorder of one line, with the channels above.
pub fn line_recorder(alloc: Global) -> Result<Recorder> {
    recorder(alloc, layout(read_cfg(alloc, CHANNELS)?)?)
}

/// Runs the recorder until no more scans come, and prints the files that it kept.
pub fn record<R: Threads + Wait + Print + AllocGlobal + Sync>(rt: &R) -> Result<()> {
    let alloc = rt.alloc();
    let recorder = line_recorder(alloc)?;
    let mut feed = Line {
        alloc,
        scans: 0..100,
    };
    let mut orders = Operator { after: Some(80) };
    let mut sink = Kept {
        files: Vec::new(alloc),
    };
    let (lane, turns) = (64, 1_000_000_000); // places for scans; looks in a row at which a thread may find nothing
    run_live(
        rt,
        alloc,
        recorder,
        lane,
        Kind::Ascii,
        turns,
        &mut feed,
        &mut orders,
        &mut sink,
    )?;
    let mut out = io::writer(rt);
    out.write_all(&sink.files)?;
    Ok(out.flush()?)
}
