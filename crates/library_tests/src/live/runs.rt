//! A run in three threads over a feed, orders and a sink that do as they are told, and fail where they are told to.

use crate::live::parts::{fed, is_report};
use crate::live::progress::{
    Progress, begun, count_handed, finds_room, tell_ordered, wait_for_orders,
};
use crate::live::station::recorder;
use comtrade_read::read;
use comtrade_write::{File, Kind, Row};
use dfr_channels::Reading;
use dfr_live::{Entry, Fed, Feed, LiveFault, LiveReport, Order, Orders, Reply, Sink, run_live};
use dfr_recorder::{Extent, Hit, Recorder, TriggerFault};
use std::alloc::Global;
use std::sync::Wait;
use std::thread::Threads;

/// How many turns a thread may take without getting on, where nothing else is said.
pub const TURNS: u64 = 10_000_000;

/// The feed's part of a run: how many scans it gives, and the call, from 0, at which it fails with code 7.
#[derive(Clone, Copy)]
pub enum Giving {
    Scans(u32),
    FailsAt(u32),
    /// It never has a scan.
    Never,
}

/// The places of the triggers that are ordered.
#[derive(Clone, Copy)]
pub enum Placing<'a> {
    At(&'a [u64]),
    /// From this one on, each so many scans after the one before, so many in all.
    Every(u64, u64, u64),
}

/// What triggers do, with the number of scan steps before each.
pub type Told<'a> = &'a [(u64, Result<Hit, TriggerFault>)];

/// A run: its lane, its shelf, the kind of its files, the turns, what the feed gives, the places of its triggers, how many records
/// may be ordered and not handed to the sink, the record at which the sink waits for the last order, the one at which it fails with
/// code 9, and what its first triggers do.
#[derive(Clone, Copy)]
pub struct Run<'a> {
    pub lane: usize,
    pub shelf: u32,
    pub kind: Kind,
    pub turns: u64,
    pub giving: Giving,
    pub triggers: Placing<'a>,
    pub room: u64,
    pub holds_at: u64,
    pub fails_at: u64,
    pub told: Told<'a>,
}

/// Five scans, no trigger.
pub const RUN: Run = Run {
    lane: 8,
    shelf: 1,
    kind: Kind::Ascii,
    turns: TURNS,
    giving: Giving::Scans(5),
    triggers: Placing::At(&[]),
    room: u64::MAX,
    holds_at: 0,
    fails_at: 0,
    told: &[],
};

#[derive(Drop)]
struct ToldFeed {
    alloc: Global,
    giving: Giving,
    given: u32,
}

impl Feed<Global> for ToldFeed {
    fn next(&mut self) -> Result<Fed, u32> {
        let k = self.given;
        self.given = k.saturating_add(1);
        // The scan of place k has the value k mod 100.
        let x = (k % 100) as i32;
        match self.giving {
            Giving::Scans(n) => {
                if k < n {
                    fed(self.alloc, x)
                } else {
                    Ok(Fed::Done)
                }
            }
            Giving::FailsAt(n) => { if k < n { fed(self.alloc, x) } else { Err(7) } }
            Giving::Never => Ok(Fed::NotYet),
        }
    }
}

#[derive(Drop)]
struct ToldOrders<'a> {
    triggers: Placing<'a>,
    progress: &'a Progress,
    room: u64,
    made: u64,
}

fn place_of(triggers: Placing, made: u64) -> Option<u64> {
    match triggers {
        Placing::At(places) => places.get(made as usize).copied(),
        Placing::Every(from, scans, times) => {
            (made < times).then_some(made.saturating_mul(scans).saturating_add(from))
        }
    }
}

impl Orders<Global> for ToldOrders<'_> {
    fn next(&mut self) -> Option<(u64, Order)> {
        let Some(place) = place_of(self.triggers, self.made) else {
            tell_ordered(self.progress);
            return None;
        };
        if !finds_room(self.progress, self.made, self.room) {
            return None;
        }
        self.made = self.made.saturating_add(1);
        Some((place, Order::Trigger))
    }
}

/// Reads back what it gets. It keeps how many records it got, the first and the last scan of the newest, and whether each was whole.
#[derive(Drop)]
struct ToldSink<'a> {
    alloc: Global,
    progress: &'a Progress,
    holds_at: u64,
    fails_at: u64,
    got: u64,
    newest: (u64, u64),
    whole: bool,
}

/// The row of this number, of the scan of this place.
fn is_row(row: &Row, number: u64, place: u64) -> bool {
    row.number == number
        && row.stamp == Some(number.saturating_sub(1).saturating_mul(1000))
        && row.values.items() == [Reading::Value((place % 100) as i32)].as_slice()
        && row.bits.items().is_empty()
}

/// The instant of a scan at 1,000 scans a second from 1970 on, in microseconds.
fn is_instant(instant: i64, place: u64) -> bool {
    place < 1_000_000 && instant == place as i64 * 1000
}

/// The file has the rows of these scans.
fn has_rows(rows: &[Row], extent: Extent) -> bool {
    let mut number = 1u64;
    let mut place = extent.first;
    for row in rows {
        if !is_row(row, number, place) {
            return false;
        }
        number = number.saturating_add(1);
        place = place.saturating_add(1);
    }
    place == extent.last.saturating_add(1)
}

fn is_file_of(file: &File, extent: Extent) -> bool {
    is_instant(file.head.first, extent.first)
        && is_instant(file.head.trigger, extent.trigger)
        && has_rows(file.rows.items(), extent)
}

/// The pair of files holds the scans of the record's places.
pub fn is_read_back(alloc: Global, cfg: &[u8], dat: &[u8], extent: Extent) -> bool {
    match read(alloc, cfg, dat) {
        Ok(file) => is_file_of(&file, extent),
        Err(_) => false,
    }
}

impl Sink for ToldSink<'_> {
    fn put(&mut self, extent: Extent, cfg: &[u8], dat: &[u8]) -> Result<(), u32> {
        if extent.number == self.fails_at {
            return Err(9);
        }
        count_handed(self.progress);
        if extent.number == self.holds_at {
            wait_for_orders(self.progress);
        }
        self.got = self.got.saturating_add(1);
        self.newest = (extent.first, extent.last);
        self.whole = self.whole
            && extent.number == self.got
            && is_read_back(self.alloc, cfg, dat, extent);
        Ok(())
    }
}

/// How many scan steps a run made and whether a record is still open, or its fault; how many records the sink got; the first and the
/// last scan of the newest.
pub type Came = (Result<(u64, bool), LiveFault>, u64, (u64, u64));

fn ended(report: &Result<LiveReport, LiveFault>) -> Result<(u64, bool), LiveFault> {
    match report {
        Ok(report) => Ok((report.stepped, report.ended.recorder.is_recording())),
        Err(fault) => Err(*fault),
    }
}

fn is_trigger(entry: &Entry, at: u64, answer: Result<Hit, TriggerFault>) -> bool {
    entry.caller == 0 && entry.at == at && entry.reply == Reply::Trigger(answer)
}

/// The log has these triggers first; the takes of the export thread, which has seat 1, come after them.
fn has_triggers(log: &[Entry], wanted: Told) -> bool {
    let front = log.get(..wanted.len()).unwrap_or(&[]);
    front.len() == wanted.len()
        && front
            .iter()
            .zip(wanted)
            .all(|(entry, (at, answer))| is_trigger(entry, *at, *answer))
        && log.iter().all(|entry| entry.caller < 2)
}

/// A run that ended handed over as many records as the sink got, and made these triggers.
fn is_right(report: &Result<LiveReport, LiveFault>, got: u64, told: Told) -> bool {
    match report {
        Ok(report) => {
            is_report(report, report.stepped, got) && has_triggers(&report.ended.log, told)
        }
        Err(_) => true,
    }
}

fn came_of<R: Threads + Wait + Sync>(
    rt: &R,
    alloc: Global,
    recorder: Recorder,
    run: Run,
) -> Option<Came> {
    let progress = begun();
    let mut feed = ToldFeed {
        alloc,
        giving: run.giving,
        given: 0,
    };
    let mut orders = ToldOrders {
        triggers: run.triggers,
        progress: &progress,
        room: run.room,
        made: 0,
    };
    let mut sink = ToldSink {
        alloc,
        progress: &progress,
        holds_at: run.holds_at,
        fails_at: run.fails_at,
        got: 0,
        newest: (0, 0),
        whole: true,
    };
    let report = run_live(
        rt,
        alloc,
        recorder,
        run.lane,
        run.kind,
        run.turns,
        &mut feed,
        &mut orders,
        &mut sink,
    );
    let came = (ended(&report), sink.got, sink.newest);
    (sink.whole && is_right(&report, sink.got, run.told)).then_some(came)
}

/// None where no recorder could be made, a record wasn't read back to the scans of its places, or the report is another.
pub fn outcome<R: Threads + Wait + Sync>(rt: &R, alloc: Global, run: Run) -> Option<Came> {
    match recorder(alloc, run.shelf) {
        Some(recorder) => came_of(rt, alloc, recorder, run),
        None => None,
    }
}
