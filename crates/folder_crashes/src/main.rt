//! Cuts the power of a folder in memory again and again, and looks at what each crash leaves.
//!
//! `folder_crashes CRASHES` goes through runs with a cut at each of their calls, with calls that fail
//! and without, until it has looked at so many crashes, and prints the first that is wrong.
#![tactic(auto)]

mod chance;
mod disk;
mod files;
mod judge;
mod run;

use crate::run::{Plan, Tally, run};
use anyhow::{Context, Result};
use std::alloc::Global;
use std::env;

/// Looks at so many crashes, or some more.
fn crashes(alloc: Global, least: u64) -> Result<Tally> {
    let mut tally = Tally {
        crashes: 0,
        wrong: None,
    };
    for seed in 1..u64::MAX {
        for cut in 1..u64::MAX {
            let plan = Plan {
                records: 1 + seed % 4,
                keep: 1 + (seed % 2) as usize,
                cut,
                odds: [0, 40, 12][(seed % 3) as usize],
                swaps: seed % 5 < 2,
                seed,
            };
            if !run(alloc, &plan, 8, &mut tally)? {
                break;
            }
        }
        if least <= tally.crashes || tally.wrong.is_some() {
            break;
        }
    }
    Ok(tally)
}

fn main(rt: HostRuntime) -> Result<()> {
    let mut words = env::args(&rt)?;
    let _program = words.next();
    let word = words.next().context("a number of crashes")?;
    let least = word.parse::<u64>().ok().context("a number of crashes")?;
    let tally = crashes(rt.alloc(), least)?;
    match tally.wrong {
        None => println!(rt; "{least} crashes or more, nothing wrong")?,
        Some(wrong) => println!(rt; "crash {}: {wrong:?}", tally.crashes)?,
    }
    Ok(())
}
