//! The lane and the lock in one thread: so many scans are offered, and then pumped.

ghost use Rattle.std.specs.Prelude.{◌≡◌};

use crate::amount::Amount;
use crate::live::times::{none, note, tell};
use crate::maker::opened_of;
use crate::numbers::Numbers;
use crate::station::{LIMITS, recorder};
use anyhow::{Context, Result};
use dfr_channels::Scan;
use dfr_live::{Opened, Session, Shared, Source, Token};
use std::alloc::{AllocGlobal, Global};
use std::marker::Brand;
use std::rt::Clock;
use std::sync::Wait;
use std::time::Instant;

const PLACES: u32 = 1_024;

/// What offering and what pumping took, in nanoseconds.
#[derive(Drop)]
struct Times {
    offers: Vec<u64>,
    pumps: Vec<u64>,
}

fn offer_all<N: Session<Global>>(source: &mut Source<N>, scans: Vec<Scan>) -> u64 {
    let mut taken = 0u64;
    for scan in scans {
        if source.offer(scan).is_ok() {
            taken = taken.saturating_add(1);
        }
    }
    taken
}

fn offered<N: Session<Global>, R: Clock>(
    rt: &R,
    source: &mut Source<N>,
    scans: Vec<Scan>,
    times: &mut Vec<u64>,
) -> Result<u64> {
    let start = Instant::now(rt)?;
    let taken = offer_all(source, scans);
    note(times, start.elapsed(rt)?.as_nanos())?;
    Ok(taken)
}

fn pumped<N: Session<Global>, R: Wait + Clock>(
    rt: &R,
    shared: &Shared<N>,
    token: &mut Token,
    times: &mut Vec<u64>,
) -> Result<u64> {
    let start = Instant::now(rt)?;
    let pumped = shared.pump(rt, token, PLACES);
    note(times, start.elapsed(rt)?.as_nanos())?;
    Ok(pumped.scans as u64)
}

/// Offers a lane full of scans, and pumps them.
fn batch<N: Session<Global>, R: Wait + Clock + AllocGlobal>(
    rt: &R,
    (shared, source, token): (&Shared<N>, &mut Source<N>, &mut Token),
    times: &mut Times,
) -> Result<()> {
    let scans = Numbers::not_negative(1).scans(rt.alloc(), PLACES)?;
    let taken = offered(rt, source, scans, &mut times.offers)?;
    if pumped(rt, shared, token, &mut times.pumps)? == taken {
        return Ok(());
    }
    None.context("each scan that was taken is stepped")
}

fn batches<N: Session<Global>, R: Wait + Clock + AllocGlobal>(
    rt: &R,
    (shared, source, token): (&Shared<N>, &mut Source<N>, &mut Token),
    runs: u32,
    times: &mut Times,
) -> Result<()> {
    for _ in 0..runs {
        batch(rt, (shared, &mut *source, &mut *token), times)?;
    }
    Ok(())
}

/// The lane's ends are let go by name.
fn named<N: Session<Global>, R: Wait + Clock + AllocGlobal>(
    rt: &R,
    opened: Opened,
    runs: u32,
    times: &mut Times,
) -> Result<()>
    requires { (opened.opening ≡ N.opening) × (opened.lane ≡ N.lane)
        × (opened.seats ≡ N.seats) }
{
    let (shared, mut source, mut tokens) = opened.share::<N>();
    let done = match tokens.first_mut() {
        Some(token) => batches(rt, (&shared, &mut source, token), runs, times),
        None => None.context("a token"),
    };
    drop(shared);
    drop(source);
    drop(tokens);
    done
}

fn run<R: Wait + Clock + AllocGlobal>(rt: &R, runs: u32, times: &mut Times) -> Result<()> {
    let recorder = recorder(rt.alloc(), LIMITS, Vec::new(rt.alloc())).context("a recorder")?;
    let opened = opened_of(rt.alloc(), recorder, PLACES as usize, 1).context("opens")?;
    named::<Brand, R>(rt, opened, runs, times)
}

pub fn measure<R: Wait + Clock + Print + AllocGlobal>(rt: &R, amount: Amount) -> Result<()> {
    let mut times = Times {
        offers: none(rt.alloc()),
        pumps: none(rt.alloc()),
    };
    run(rt, amount.runs, &mut times)?;
    let places = PLACES as u64;
    tell(rt, amount, "offer, one thread", places, &mut times.offers)?;
    tell(
        rt,
        amount,
        "pump of 1,024, one thread",
        places,
        &mut times.pumps,
    )
}
