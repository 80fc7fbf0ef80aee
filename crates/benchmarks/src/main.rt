//! What the libraries take of time, and how they stand runs by chance.
//!
//! `benchmarks calls RUNS` makes each measure of single calls RUNS times and prints the least time of each; `benchmarks live RUNS` those of
//! offers, pumps and recordings in three threads, and prints the least and the median time of each. Without a number each is made
//! once, over little, and nothing is printed.
//!
//! `benchmarks soak WAY SEED LANE SEATS THREADS ROUNDS` reads a script and runs a recorder by chance, with calls that are refused memory,
//! and prints what each thread saw and what the end left. WAY is `free` (all threads at once), `orderly` (first the scans, then
//! the calls) or `station` (`run_live`, whose feed and sink may fail). `bench/soak` makes the scripts and judges.
//!
//! `benchmarks detect RUNS` measures detectors; `benchmarks histories` prints the bits of histories of standard input, which
//! `bench/detectors.py` makes and judges.
//!
//! `benchmarks clock` follows a clock by lines of standard input; `bench/clock.py` makes them and judges.
#![tactic(auto)]

mod amount;
mod calls;
mod clock;
mod detect;
mod live;
mod maker;
mod numbers;
mod soak;
mod station;
mod words;

use crate::amount::Amount;
use anyhow::{Context, Result};
use std::env;
use std::env::Args;

#[derive(Clone, Copy)]
enum Work {
    Calls,
    Clock,
    Detect,
    Histories,
    Live,
    Soak,
}

fn work_of(word: &str) -> Option<Work> {
    match word {
        "calls" => Some(Work::Calls),
        "clock" => Some(Work::Clock),
        "detect" => Some(Work::Detect),
        "histories" => Some(Work::Histories),
        "live" => Some(Work::Live),
        "soak" => Some(Work::Soak),
        _ => None,
    }
}

fn first_word(words: &mut Args) -> Option<Work> {
    work_of(words.next()?.as_str())
}

/// How often, where a word says it.
fn runs_of(words: &mut Args) -> Result<Option<u32>> {
    match words.next() {
        Some(word) => Ok(Some(word.parse::<u32>().ok().context("a number of runs")?)),
        None => Ok(None),
    }
}

fn main(rt: HostRuntime) -> Result<()> {
    let mut words = env::args(&rt)?;
    let _program = words.next();
    match first_word(&mut words).context("calls, clock, detect, histories, live or soak")? {
        Work::Clock => clock::follow(&rt),
        Work::Detect => detect::measure(&rt, Amount::of(runs_of(&mut words)?)),
        Work::Histories => detect::histories(&rt),
        Work::Calls => calls::measure(&rt, Amount::of(runs_of(&mut words)?)),
        Work::Live => live::measure(&rt, Amount::of(runs_of(&mut words)?)),
        Work::Soak => soak::soak(&rt, &mut words),
    }
}
