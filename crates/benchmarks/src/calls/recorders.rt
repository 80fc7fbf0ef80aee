//! Scans of an idle recorder, of one with rules, and of one with a record open.

use crate::amount::Amount;
use crate::calls::clock::{Least, now, since};
use crate::calls::station::recorder;
use crate::numbers::Numbers;
use anyhow::{Context, Result};
use dfr_channels::Scan;
use dfr_recorder::Recorder;
use std::alloc::Global;
use std::rt::Clock;

/// How many scans the ring holds.
const RING: u32 = 1_000;

#[derive(Clone, Copy)]
struct State {
    name: &'static str,
    rules: u32,
    open: bool,
}

const STATES: [State; 3] = [
    State {
        name: "scan, idle, no rule",
        rules: 0,
        open: false,
    },
    State {
        name: "scan, idle, 8 level rules",
        rules: 8,
        open: false,
    },
    State {
        name: "scan, record open, no rule",
        rules: 0,
        open: true,
    },
];

fn feed(recorder: &mut Recorder, scans: Vec<Scan>) -> Result<()> {
    for scan in scans {
        recorder.scan(scan).ok().context("a lawful scan")?;
    }
    Ok(())
}

/// Fills the ring, and opens a record where the state has one open.
fn prepare(alloc: Global, recorder: &mut Recorder, open: bool) -> Result<()> {
    feed(recorder, Numbers::new(2).scans(alloc, RING)?)?;
    if open {
        recorder.trigger().ok().context("a record opens")?;
    }
    Ok(())
}

fn scan_all<R: Clock + AllocGlobal>(
    rt: &R,
    recorder: &mut Recorder,
    scans: u32,
    least: &mut Least,
) -> Result<()> {
    let scans = Numbers::new(1).scans(rt.alloc(), scans)?;
    let start = now(rt);
    feed(recorder, scans)?;
    least.add(since(rt, start)?);
    Ok(())
}

fn measure_in<R: Clock + AllocGlobal>(
    rt: &R,
    recorder: &mut Recorder,
    scans: u32,
    open: bool,
    least: &mut Least,
) -> Result<()> {
    prepare(rt.alloc(), recorder, open)?;
    scan_all(rt, recorder, scans, least)
}

fn measure_once<R: Clock + AllocGlobal>(
    rt: &R,
    scans: u32,
    state: State,
    least: &mut Least,
) -> Result<()> {
    let mut recorder = recorder(rt.alloc(), RING - 1, 900_000, state.rules)?;
    measure_in(rt, &mut recorder, scans, state.open, least)
}

fn measure_state<R: Clock + Print + AllocGlobal>(
    rt: &R,
    amount: Amount,
    state: State,
) -> Result<()> {
    let scans = amount.over(5_000, 20);
    let mut least = Least::none();
    for _ in 0..amount.runs {
        measure_once(rt, scans, state, &mut least)?;
    }
    least.print(rt, amount, state.name, scans as u64)?;
    Ok(())
}

pub fn measure<R: Clock + Print + AllocGlobal>(rt: &R, amount: Amount) -> Result<()> {
    for state in STATES.iter() {
        measure_state(rt, amount, *state)?;
    }
    Ok(())
}
