//! Three threads.

use crate::amount::Amount;
use crate::live::times::{none, note, tell};
use crate::numbers::Numbers;
use crate::station::{LIMITS, TURNS, recorder};
use anyhow::{Context, Result};
use comtrade_write::Kind;
use dfr_channels::Scan;
use dfr_live::{Fed, Feed, LiveFault, LiveReport, Order, Orders, Sink, run_live};
use dfr_recorder::{Extent, Recorder};
use std::alloc::{AllocGlobal, Global};
use std::rt::Clock;
use std::sync::Wait;
use std::thread::Threads;
use std::time::Instant;

/// Copies of some scans in turn.
#[derive(Drop)]
struct Copies<'a> {
    set: &'a [Scan],
    at: usize,
    left: u64,
}

impl Feed<Global> for Copies<'_> {
    fn next(&mut self) -> std::result::Result<Fed, u32> {
        if self.left == 0 {
            return Ok(Fed::Done);
        }
        self.left -= 1;
        self.at = if self.at < 63 { self.at + 1 } else { 0 };
        let Some(scan) = self.set.get(self.at) else {
            return Err(1);
        };
        match scan.try_clone() {
            Ok(scan) => Ok(Fed::Scan(scan)),
            Err(_) => Err(2),
        }
    }
}

/// A trigger after each so many scans.
#[derive(Drop)]
struct Each {
    place: u64,
    step: u64,
    end: u64,
}

impl Orders<Global> for Each {
    fn next(&mut self) -> Option<(u64, Order)> {
        self.place = self.place.saturating_add(self.step);
        if self.place > self.end {
            return None;
        }
        Some((self.place, Order::Trigger))
    }
}

/// Lets the files go.
#[derive(Clone, Copy)]
struct Nowhere;

impl Sink for Nowhere {
    fn put(&mut self, _extent: Extent, _cfg: &[u8], _dat: &[u8]) -> std::result::Result<(), u32> {
        Ok(())
    }
}

/// What is run: the places of the lane, the kind of files, a trigger after each so many scans, and how many scans, or how many
/// where little is measured.
#[derive(Clone, Copy)]
struct Run {
    name: &'static str,
    places: usize,
    kind: Kind,
    step: u64,
    scans: (u32, u32),
}

const ASCII: Run = Run {
    name: "run_live, ASCII records",
    places: 1_024,
    kind: Kind::Ascii,
    step: 10_000,
    scans: (200_000, 100),
};

const BINARY: Run = Run {
    name: "run_live, BINARY records",
    kind: Kind::Binary,
    ..ASCII
};

const RUNS: [Run; 5] = [
    Run {
        name: "run_live, no record",
        step: u64::MAX,
        ..ASCII
    },
    ASCII,
    BINARY,
    Run {
        name: "the same, a lane of 8",
        places: 8,
        ..BINARY
    },
    Run {
        name: "the same, a lane of 1",
        places: 1,
        scans: (20_000, 10),
        ..BINARY
    },
];

/// Whether all went well.
fn ran_well<R: Wait + Threads + Sync + AllocGlobal>(
    rt: &R,
    recorder: Recorder,
    set: &[Scan],
    run: Run,
    scans: u64,
) -> bool {
    let mut feed = Copies {
        set,
        at: 0,
        left: scans,
    };
    let mut orders = Each {
        place: 0,
        step: run.step,
        end: scans,
    };
    is_report(run_live(
        rt,
        rt.alloc(),
        recorder,
        run.places,
        run.kind,
        TURNS,
        &mut feed,
        &mut orders,
        &mut Nowhere,
    ))
}

fn is_report(came: std::result::Result<LiveReport, LiveFault>) -> bool {
    match came {
        Ok(report) => {
            drop(report);
            true
        }
        Err(_) => false,
    }
}

fn once<R: Wait + Threads + Sync + Clock + AllocGlobal>(
    rt: &R,
    set: &[Scan],
    run: Run,
    scans: u64,
    times: &mut Vec<u64>,
) -> Result<()> {
    let recorder = recorder(rt.alloc(), LIMITS, Vec::new(rt.alloc())).context("a recorder")?;
    let start = Instant::now(rt);
    let ran = ran_well(rt, recorder, set, run, scans);
    note(times, start?.elapsed(rt)?.as_nanos())?;
    if ran { Ok(()) } else { None.context("a run") }
}

fn all<R: Wait + Threads + Sync + Clock + Print + AllocGlobal>(
    rt: &R,
    set: &[Scan],
    amount: Amount,
    run: Run,
) -> Result<()> {
    let (full, little) = run.scans;
    let scans = amount.over(full, little) as u64;
    let mut times = none(rt.alloc());
    for _ in 0..amount.runs {
        once(rt, set, run, scans, &mut times)?;
    }
    tell(rt, amount, run.name, scans, &mut times)
}

pub fn measure<R: Wait + Threads + Sync + Clock + Print + AllocGlobal>(
    rt: &R,
    amount: Amount,
) -> Result<()> {
    let set = Numbers::not_negative(1).scans(rt.alloc(), 64)?;
    for run in RUNS {
        all(rt, &set, amount, run)?;
    }
    Ok(())
}
